// What the comparisons come to: how many answers agree and how many differ. What differs is told.
use std::io;
use std::io::Stdout;

#[derive(Clone, Copy)]
pub(crate) struct Tally {
    out: Stdout,
    // Cases are counted from 1.
    case: u32,
    agreed: u32,
    differing: u32,
    // Whether the case has differed. Only its first difference is told, since others may be its echo.
    has_differed: bool,
}

impl Tally {
    pub(crate) fn new(out: Stdout) -> Tally {
        Tally {
            out,
            case: 0,
            agreed: 0,
            differing: 0,
            has_differed: false,
        }
    }

    pub(crate) fn begin_case(&mut self) {
        self.case = self.case.wrapping_add(1);
        self.has_differed = false;
    }

    fn count_difference(&mut self) {
        self.differing = self.differing.wrapping_add(1);
        self.has_differed = true;
    }

    // Holds what is here to what is recorded. The index says which of several it is, and the place how many numbers of the case are read.
    pub(crate) fn judge(
        &mut self,
        place: usize,
        what: &str,
        index: usize,
        due: u64,
        here: u64,
    ) -> io::Result<()> {
        if due == here {
            self.agreed = self.agreed.wrapping_add(1);
            return Ok(());
        }
        if !self.has_differed {
            let case = self.case;
            println!(self.out;
                "case {case}, before number {place}: {what} {index}: recorded {due}, here {here}"
            )?;
        }
        self.count_difference();
        Ok(())
    }

    pub(crate) fn tell_unreadable(&mut self) -> io::Result<()> {
        let case = self.case;
        println!(self.out; "case {case} cannot be read")?;
        self.count_difference();
        Ok(())
    }

    pub(crate) fn report(&self) -> io::Result<()> {
        let case = self.case;
        let agreed = self.agreed;
        let differing = self.differing;
        println!(self.out; "{case} cases, {agreed} answers agree")?;
        if differing != 0 {
            println!(self.out; "{differing} answers differ")?;
        }
        Ok(())
    }
}
