//! Bits that tests make and compare.

use arrays::{Bits, Places};

/// So many places, all 1 but the one, if it is among them.
#[derive(Drop)]
pub(crate) struct AllBut {
    pub(crate) place: usize,
    pub(crate) len: usize,
}

impl Places for AllBut {
    ghost use Rattle.std.specs.Prelude.{◌==◌, not};

    ghost at = { λ p i. not (i == p.place) };

    ghost count = { λ p. p.len };

    fn len(&self) -> usize {
        self.len
    }

    fn at(&self, i: usize) -> bool {
        i != self.place
    }
}

/// Whether the bits are these.
pub(crate) fn has_bits(bits: &Bits<'_>, expected: &[bool]) -> bool {
    if bits.len() != expected.len() {
        return false;
    }
    for (i, bit) in expected.iter().enumerate() {
        if bits.get(i) != *bit {
            return false;
        }
    }
    true
}
