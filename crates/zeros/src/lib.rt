// Inner: zero to every slot of a lent table. A slot is a number, a byte or a row of numbers: what has a zero.
#![tactic(auto)]

ghost use Rattle.std.specs.Prelude.{◌≡◌, length, replicate};
ghost use Rattle.zeros.specs.Rows.{zeros};

// What a slot of a table may hold: a value that has a zero. std's `Default` doesn't serve: it says which values `default` may answer, and
// names none that a contract can cite.
pub trait Zero: Copy {
    ghost zero: { Self };

    fn zero() -> Self
        ensures { result ≡ zero };
}

impl Zero for u8 {
    ghost zero = { 0 };

    fn zero() -> u8 {
        0
    }
}

impl Zero for u32 {
    ghost zero = { 0 };

    fn zero() -> u32 {
        0
    }
}

// A row of numbers is zero where each of them is.
impl<const N: usize> Zero for [u32; N] {
    ghost zero = { zeros N };

    fn zero() -> [u32; N] {
        [0; N]
    }
}

// std's `fill` asks that a clone can't fail, which no bound says, so the slots are written here; by their places, so that a
// fill that passes over some is another number and no other form (`must-fail/last_left.edit`).
pub fn zero_all<T: Zero>(slots: &mut [T])
    ensures { slots.new ≡ replicate (length slots.old) T.zero }
{
    for i in 0..slots.len() {
        slots[i] = T::zero();
    }
}
