//! The ends of an order.

ghost use Rattle.std.specs.Prelude.{◌≡◌};
ghost use Rattle.arrays.specs.Prelude.{int};
ghost use Rattle.tallies.specs.Ends.{is_further};

/// Which end of an order is requested.
#[derive(Clone, Copy)]
pub enum End {
    Least,
    Greatest,
}

/// Whether the second number is further to the end.
#[inline(always)]
pub(crate) fn is_further(end: End, x: i128, y: i128) -> bool
    ensures { result ≡ is_further end (int x) (int y) }
{
    match end {
        End::Least => x > y,
        End::Greatest => y > x,
    }
}
