//! The least or the greatest of numbers that come one by one.

ghost use Rattle.std.specs.Prelude.{◌≡◌, ◌^◌, ◌≤ℤ◌, None, neg_ℤ, option_map, pos};
ghost use Rattle.arrays.specs.Prelude.{int};
ghost use Rattle.group.specs.Joined.{better};
ghost use Rattle.tallies.specs.Ends.{further, number_if_any, with_item};

use crate::end::{End, is_further};

/// Stands for no number: no integer type has it.
const NONE: i128 = 1 << 100;

/// The best number so far, if there is one.
#[derive(Clone, Copy)]
pub struct BestNumber {
    pub number: i128,
}

impl BestNumber {
    /// That of no numbers.
    pub(crate) fn none() -> BestNumber
        ensures { number_if_any result.number ≡ None }
    {
        BestNumber { number: NONE }
    }

    /// With a number more.
    #[inline(always)]
    pub(crate) fn with_number(self, end: End, number: i128) -> BestNumber
        requires low { neg_ℤ (pos (2 ^ 64)) ≤ℤ number }
        requires high { number ≤ℤ pos (2 ^ 64) }
        ensures { number_if_any result.number ≡ with_item end (number_if_any self.number) (int number) }
    {
        // Without a jump for each test, since which of them holds is not to be foreseen.
        let replaced = (self.number == NONE) | is_further(end, self.number, number);
        if replaced {
            BestNumber { number }
        } else {
            self
        }
    }

    /// The further one of both.
    #[inline(always)]
    pub(crate) fn or_better(self, end: End, other: BestNumber) -> BestNumber
        ensures { number_if_any result.number ≡ better (further end) (number_if_any self.number) (number_if_any other.number) }
    {
        let further = (other.number != NONE) & is_further(end, self.number, other.number);
        let replaced = (self.number == NONE) | further;
        if replaced { other } else { self }
    }

    /// The number, if there is one.
    pub(crate) fn get(self) -> Option<i128>
        ensures { option_map int result ≡ number_if_any self.number }
    {
        if self.number == NONE {
            None
        } else {
            Some(self.number)
        }
    }
}
