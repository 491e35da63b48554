//! Counts and sums of numbers.

ghost use Rattle.std.specs.Prelude.{◌≡◌, ◌+◌, ◌*◌, ◌^◌, ◌<◌, ◌≤◌, ◌≤ℤ◌, ◌+ℤ◌, neg_ℤ, pos};
ghost use Rattle.tallies.specs.Totals.{sum_if_any};

/// How many numbers there were, and their sum: 0 where there was none.
#[derive(Clone, Copy)]
pub struct Total {
    pub count: u64,
    pub sum: i128,
    ghost low: { neg_ℤ (pos (2 ^ 64 * count)) ≤ℤ sum },
    ghost high: { sum ≤ℤ pos (2 ^ 64 * count) },
}

/// That of no numbers.
pub(crate) fn no_total() -> Total
    ensures count { result.count ≡ 0 }
    ensures sum { result.sum ≡ pos 0 }
{
    Total { count: 0, sum: 0 }
}

impl Total {
    /// With a number more.
    #[inline(always)]
    pub(crate) fn with_number(self, number: i128) -> Total
        requires few { self.count < 2 ^ 40 }
        requires low { neg_ℤ (pos (2 ^ 64)) ≤ℤ number }
        requires high { number ≤ℤ pos (2 ^ 64) }
        ensures count { result.count ≡ self.count + 1 }
        ensures sum { result.sum ≡ self.sum +ℤ number }
    {
        Total {
            count: self.count + 1,
            sum: self.sum + number,
        }
    }

    /// With the numbers of another one.
    #[inline(always)]
    pub(crate) fn with_total(self, other: Total) -> Total
        requires { self.count + other.count ≤ 2 ^ 40 }
        ensures count { result.count ≡ self.count + other.count }
        ensures sum { result.sum ≡ self.sum +ℤ other.sum }
    {
        Total {
            count: self.count + other.count,
            sum: self.sum + other.sum,
        }
    }

    /// The sum, none where there was no number.
    pub(crate) fn sum_if_any(self) -> Option<i128>
        ensures { result ≡ sum_if_any self.count self.sum }
    {
        if self.count == 0 {
            None
        } else {
            Some(self.sum)
        }
    }
}
