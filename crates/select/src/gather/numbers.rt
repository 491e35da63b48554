//! Picked numbers.

ghost use Rattle.std.specs.Prelude.{◌≡◌, IfOk, IfSome, length};
ghost use Rattle.std.specs.List.{All};
ghost use Rattle.arrays.specs.Kind as kind;
ghost use Rattle.arrays.specs.Prelude.{IsOfType, number_at, shown};
ghost use Rattle.select.specs.Picked.{IsPick, picked};
ghost use Rattle.select.specs.Stored.{AreStored};

use super::bits::picked_validity;
use crate::rows::Rows;
use arrays::{Array, Buffer, IntType, Integer, Ints, NoMemory, View, with_integer};
use std::alloc::Global;

/// The picked rows of a view of integers.
pub(super) fn gather_numbers<R: Rows>(
    alloc: Global,
    ty: IntType,
    view: &View<'_>,
    rows: &R,
) -> Result<Array, NoMemory>
    requires kind { view.now.kind ≡ kind.int ty }
    requires within { All (IsPick (length view.now.items)) (R.picks rows.now) }
    ensures { IfOk result (λ r. r ≡ shown (kind.int ty) (picked view.now.items (R.picks rows.now))) }
{
    with_integer!(ty, gather::<_, R>(alloc, view, rows))
}

/// The picked rows of a view of integers of type `T`.
pub(super) fn gather<T: Integer, R: Rows>(
    alloc: Global,
    view: &View<'_>,
    rows: &R,
) -> Result<Array, NoMemory>
    requires kind { view.now.kind ≡ kind.int T.ty }
    requires within { All (IsPick (length view.now.items)) (R.picks rows.now) }
    ensures { IfOk result (λ r. r ≡ shown (kind.int T.ty) (picked view.now.items (R.picks rows.now))) }
{
    let numbers = view.ints::<T>();
    let validity = picked_validity(alloc, &numbers.validity, rows)?;
    let values = Buffer::from_vec(picked_numbers(alloc, &numbers, rows)?)?;
    Array::from_numbers(alloc, T::ty(), rows.slots(), validity, values)
}

/// The numbers that lie in the picked rows, one behind the other: any number where a slot isn't valid or no row is
/// picked.
fn picked_numbers<T: Integer, R: Rows>(
    alloc: Global,
    numbers: &Ints<'_, T>,
    rows: &R,
) -> Result<Vec<u8>, NoMemory>
    requires { All (IsPick numbers.now.slots) (R.picks rows.now) }
    ensures { IfOk result (λ v. AreStored T.ty numbers.now.values.now (R.picks rows.now) (length (R.picks rows.now)) v.items) }
{
    let count = rows.slots() as usize;

    // A buffer is padded by at most 63 bytes, so that the numbers aren't copied again.
    let mut values = Vec::with_capacity(alloc, count * T::ty().bits.bytes() + 63)?;
    let mut place = rows.first();
    for _slot in 0..count {
        T::push(&mut values, number_under(numbers, rows.next(&mut place)))?;
    }
    Ok(values)
}

/// The number that lies in the picked row, whether the slot is valid or not; 0 where there is no row.
#[inline(always)]
fn number_under<T: Integer>(numbers: &Ints<'_, T>, pick: Option<usize>) -> i128
    requires { IsPick numbers.now.slots pick }
    ensures value { IfSome pick (λ i. result ≡ number_at T.ty numbers.now.values.now i) }
    ensures of_type { IsOfType T.ty result }
{
    match pick {
        Some(i) => numbers.read(i).wide(),
        None => 0,
    }
}
