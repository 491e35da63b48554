//! Which ways to stand to each other meet a comparison.

ghost use Rattle.std.specs.Prelude.{◌≡◌};
ghost use Rattle.std.specs.Cmp.Lexicographic.{slice_cmp};
ghost use Rattle.std.specs.Ordering.{bool_cmp, int_cmp, nat_cmp};
ghost use Rattle.std.specs.declared.cmp.Ordering.{Ordering};
ghost use Rattle.kernels.specs.Order.{meets};
ghost use Rattle.kernels.specs.Wanted.{wants};

use super::CmpOp;
use std::cmp::Ordering;

/// The ways for two items to stand to each other that meet a comparison.
#[derive(Clone, Copy)]
pub(crate) struct Wanted {
    pub(crate) less: bool,
    pub(crate) equal: bool,
    pub(crate) greater: bool,
}

impl Wanted {
    /// Those of a comparison.
    pub(crate) fn of(op: CmpOp) -> Wanted
        ensures { (o : Ordering) → wants result o ≡ meets op o }
    {
        let (less, equal, greater) = match op {
            CmpOp::Eq => (false, true, false),
            CmpOp::Ne => (true, false, true),
            CmpOp::Lt => (true, false, false),
            CmpOp::Le => (true, true, false),
            CmpOp::Gt => (false, false, true),
            CmpOp::Ge => (false, true, true),
        };
        Wanted {
            less,
            equal,
            greater,
        }
    }

    /// Whether two numbers stand so to each other.
    #[inline(always)]
    pub(crate) fn numbers(self, x: i128, y: i128) -> bool
        ensures { result ≡ wants self (int_cmp x y) }
    {
        ((x < y) & self.less) | ((x == y) & self.equal) | ((x > y) & self.greater)
    }

    /// Whether two truth values stand so to each other, false before true.
    #[inline(always)]
    pub(crate) fn bools(self, x: bool, y: bool) -> bool
        ensures { result ≡ wants self (bool_cmp x y) }
    {
        ((!x & y) & self.less) | ((x == y) & self.equal) | ((x & !y) & self.greater)
    }

    /// Whether two byte strings stand so to each other. Where less and greater are wanted alike, it asks only
    /// whether they are equal.
    #[inline(always)]
    pub(crate) fn bytes(self, x: &[u8], y: &[u8]) -> bool
        ensures { result ≡ wants self (slice_cmp nat_cmp x.now y.now) }
    {
        if self.less != self.greater {
            return self.has(x.cmp(&y));
        }
        if x == y { self.equal } else { self.less }
    }

    /// Whether two items that stand so to each other are wanted.
    #[inline(always)]
    pub(crate) fn has(self, found: Ordering) -> bool
        ensures { result ≡ wants self found }
    {
        match found {
            Ordering::Less => self.less,
            Ordering::Equal => self.equal,
            Ordering::Greater => self.greater,
        }
    }
}
