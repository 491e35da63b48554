//! The numbers of a column in the type that the column has: they are compared there, which takes fewer steps than in 128 bits.

use crate::tally::Value;
use arrays::Integer;

/// A number of one of the eight integer types, as a value.
#[derive(Clone, Copy)]
pub(crate) struct Number<T: Integer> {
    pub(crate) number: T,
}

impl<T: Integer> Value for Number<T> {
    ghost use Rattle.arrays.specs.Prelude.{int};

    ghost item = { λ n. int (T.value n.number) };

    fn exceeds(self, other: Number<T>) -> bool {
        other.number.is_less(self.number)
    }
}
