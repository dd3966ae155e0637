// A case as it is read and judged: its numbers, one after the other, and the sequences among them, of which only the first numbers are told
// where the others are zero or repeat them.
use crate::tally::Tally;
use std::convert::TryFrom;
use std::io;

// A case asks for a number that it does not have, or for more room than there is, or it is not in the notation.
#[derive(Clone, Copy, Debug, PartialEq, Eq)]
pub(crate) struct Unreadable;

// Why a case is not compared to its end.
#[derive(Drop)]
pub(crate) enum Stop {
    Unreadable,
    // What differs could not be told.
    Io(io::Error),
}

impl From<Unreadable> for Stop {
    fn from(_: Unreadable) -> Stop {
        Stop::Unreadable
    }
}

impl From<io::Error> for Stop {
    fn from(error: io::Error) -> Stop {
        Stop::Io(error)
    }
}

// Numbers of a case: how many there are and how many of them are told. Past the told ones come zeros, or, if `back` is not 0, the last so
// many told ones again and again.
#[derive(Clone, Copy)]
pub(crate) struct Sequence<'a> {
    length: usize,
    told: usize,
    back: usize,
    // The numbers from the first told one on.
    numbers: &'a [u32],
}

// How many numbers tell a sequence before those of its own.
const HEAD: usize = 3;

fn number_at(numbers: &[u32], k: usize) -> u32 {
    numbers.get(k).copied().unwrap_or(0)
}

impl<'a> Sequence<'a> {
    // The sequence that these numbers begin with.
    fn new(numbers: &'a [u32]) -> Sequence<'a> {
        Sequence {
            length: number_at(numbers, 0) as usize,
            told: number_at(numbers, 1) as usize,
            back: number_at(numbers, 2) as usize,
            numbers: numbers.get(HEAD..).unwrap_or(&[]),
        }
    }

    // A sequence of no numbers.
    pub(crate) fn empty() -> Sequence<'a> {
        Sequence::new(&[])
    }

    // The same as whole rows of three numbers, all of which are told.
    pub(crate) fn in_rows(self) -> Sequence<'a> {
        let length = self.length - self.length % 3;
        Sequence {
            length,
            told: length,
            back: 0,
            numbers: self.numbers,
        }
    }

    fn element(self, k: usize) -> u32 {
        if k < self.told {
            return number_at(self.numbers, k);
        }
        if 0 < self.back && self.back <= self.told {
            return number_at(
                self.numbers,
                self.told - self.back + (k - self.told) % self.back,
            );
        }
        0
    }

    // Past its end each element is to be the same number, `rest`.
    fn due(self, k: usize, rest: u32) -> u32 {
        if k < self.length {
            self.element(k)
        } else {
            rest
        }
    }

    // Its elements, if there is room for so many and each fits.
    fn fill<T: TryFrom<u32> + Copy>(self, room: &mut [T]) -> Result<&[T], Unreadable>
    where
        T::Error: Drop,
    {
        let slots = room.get_mut(..self.length).ok_or(Unreadable)?;
        for (k, slot) in slots.iter_mut().enumerate() {
            *slot = T::try_from(self.element(k)).map_err(|_| Unreadable)?;
        }
        Ok(slots)
    }
}

#[derive(Drop)]
pub(crate) struct Case<'a> {
    // The numbers of the case, and past them those of earlier ones: a case that asks for these cannot be read.
    numbers: &'a [u32],
    // How many numbers the case has.
    count: usize,
    // How many of them are read.
    place: usize,
    tally: &'a mut Tally,
}

impl<'a> Case<'a> {
    pub(crate) fn new(numbers: &'a [u32], count: usize, tally: &'a mut Tally) -> Case<'a> {
        Case {
            numbers,
            count,
            place: 0,
            tally,
        }
    }

    fn pass(&mut self, count: usize) -> Result<(), Unreadable> {
        let place = self.place.checked_add(count);
        self.place = place
            .filter(|place| *place <= self.count)
            .ok_or(Unreadable)?;
        Ok(())
    }

    // The next number.
    pub(crate) fn number(&mut self) -> Result<u32, Unreadable> {
        let number = number_at(self.numbers, self.place);
        self.pass(1)?;
        Ok(number)
    }

    // The next N numbers.
    pub(crate) fn take<const N: usize>(&mut self) -> Result<[u32; N], Unreadable> {
        let mut taken = [0; N];
        for slot in taken.iter_mut() {
            *slot = self.number()?;
        }
        Ok(taken)
    }

    // The sequence that is next. It is not passed, since what is told of it is told before its numbers.
    pub(crate) fn sequence(&self) -> Sequence<'a> {
        Sequence::new(self.numbers.get(self.place..).unwrap_or(&[]))
    }

    pub(crate) fn pass_sequence(&mut self, sequence: Sequence<'_>) -> Result<(), Unreadable> {
        self.pass(HEAD)?;
        self.pass(sequence.told)
    }

    // The elements of the sequence that is next, if there is room for so many and each fits.
    pub(crate) fn column<'r, T: TryFrom<u32> + Copy>(
        &mut self,
        room: &'r mut [T],
    ) -> Result<&'r [T], Unreadable>
    where
        T::Error: Drop,
    {
        let sequence = self.sequence();
        let column = sequence.fill(room)?;
        self.pass_sequence(sequence)?;
        Ok(column)
    }

    // The rows of the sequence that is next, if there is room for so many.
    pub(crate) fn rows<'r>(
        &mut self,
        room: &'r mut [[u32; 3]],
    ) -> Result<&'r [[u32; 3]], Unreadable> {
        let sequence = self.sequence();
        let numbers = sequence.in_rows().fill(room.as_flattened_mut())?;
        self.pass_sequence(sequence)?;
        Ok(numbers.as_chunks::<3>().0)
    }

    // So many slots of a table as the next number says. A case that lends more than there is room for cannot be run.
    pub(crate) fn lend<'r, T>(&mut self, room: &'r mut [T]) -> Result<&'r mut [T], Unreadable> {
        let count = self.number()? as usize;
        room.get_mut(..count).ok_or(Unreadable)
    }

    // A case ends where all of its numbers are read.
    pub(crate) fn end(&self) -> Result<(), Unreadable> {
        if self.place == self.count {
            Ok(())
        } else {
            Err(Unreadable)
        }
    }

    // Holds what is here to what is recorded, number by number.
    pub(crate) fn judge(
        &mut self,
        what: &[&str],
        index: usize,
        due: &[u64],
        here: &[u64],
    ) -> Result<(), Stop> {
        for ((what, due), here) in what.iter().zip(due).zip(here) {
            self.tally.judge(self.place, what, index, *due, *here)?;
        }
        Ok(())
    }

    // Holds each element that is here to what a sequence says of it, and to `rest` past its end.
    pub(crate) fn judge_elements<T: Copy + Into<u64>>(
        &mut self,
        what: &str,
        sequence: Sequence<'_>,
        elements: &[T],
        rest: u32,
    ) -> Result<(), Stop> {
        for (k, here) in elements.iter().enumerate() {
            let due = u64::from(sequence.due(k, rest));
            self.tally.judge(self.place, what, k, due, (*here).into())?;
        }
        Ok(())
    }

    // The same of the sequence that is next.
    pub(crate) fn judge_column<T: Copy + Into<u64>>(
        &mut self,
        what: &str,
        column: &[T],
        rest: u32,
    ) -> Result<(), Stop> {
        let sequence = self.sequence();
        self.judge_elements(what, sequence, column, rest)?;
        Ok(self.pass_sequence(sequence)?)
    }
}
