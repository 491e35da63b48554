//! What stands at each slot on one side of an operator: the numbers of a column, or one number.

ghost use Rattle.std.specs.Prelude.{◌≡◌, ◌<◌, ◌^◌, ◌≤ℤ◌, ℕ, ℤ, neg_ℤ, pos, true, false, IfErr, IfOk};
ghost use Rattle.arrays.specs.Kind as kind;
ghost use Rattle.arrays.specs.Prelude.{is_of_type, number_at, view_kind};
ghost use Rattle.kernels.specs.Beside.{has_number};

use crate::fault::KernelFault;
use arrays::{IntType, Integer, Ints, ViewType};

/// A number at each slot; at one that isn't valid, any number.
pub(crate) trait Side {
    ghost count: { Self → ℕ };

    ghost number: { Self → ℕ → ℤ };

    /// The number at slot `j`.
    fn at(&self, j: usize) -> i128
        requires { j < count self.now }
        ensures value { result ≡ number self.now j }

        // A number of any of the eight types is from -2^64 to 2^64.
        ensures low { neg_ℤ (pos (2 ^ 64)) ≤ℤ result }
        ensures high { result ≤ℤ pos (2 ^ 64) };
}

/// A side whose numbers are of type `T`, taken as such.
pub(crate) trait Own<T: Integer>: Side {
    /// The number at slot `j`.
    fn own(&self, j: usize) -> T
        requires { j < Self.count self.now }
        ensures { T.value result ≡ Self.number self.now j };
}

impl<'a, T: Integer> Side for Ints<'a, T> {
    ghost count = { λ c. c.slots };

    ghost number = { λ c j. number_at T.ty c.values.now j };

    #[inline(always)]
    fn at(&self, j: usize) -> i128 {
        self.read(j).wide()
    }
}

impl<'a, T: Integer> Own<T> for Ints<'a, T> {
    #[inline(always)]
    fn own(&self, j: usize) -> T {
        self.read(j)
    }
}

/// One number of type `T` at each slot.
#[derive(Drop)]
pub(crate) struct One<T: Integer> {
    pub(crate) number: T,
    pub(crate) slots: u32,
}

impl<T: Integer> Side for One<T> {
    ghost count = { λ o. o.slots };

    ghost number = { λ o j. T.value o.number };

    #[inline(always)]
    fn at(&self, _j: usize) -> i128 {
        self.number.wide()
    }
}

impl<T: Integer> Own<T> for One<T> {
    #[inline(always)]
    fn own(&self, _j: usize) -> T {
        self.number
    }
}

/// The integer type of a column, which has the number.
pub(crate) fn type_with(a: ViewType<'_>, number: i128) -> Result<IntType, KernelFault>
    ensures ok { IfOk result (λ t. (view_kind a.entry ≡ kind.int t) × (is_of_type t number ≡ true)) }
    ensures err { IfErr result (λ e. (has_number (view_kind a.entry) number ≡ false) × (e ≡ KernelFault.TypesDiffer)) }
{
    match a {
        ViewType::Int(ty) if ty.holds(number) => Ok(ty),
        _ => Err(KernelFault::TypesDiffer),
    }
}
