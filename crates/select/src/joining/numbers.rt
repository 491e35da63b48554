//! Numbers one after the other.

ghost use Rattle.std.specs.Prelude.{◌≡◌, ◌≤◌, IfOk, length};
ghost use Rattle.std.specs.List.{All};
ghost use Rattle.arrays.specs.Kind as kind;
ghost use Rattle.arrays.specs.Prelude.{Seen, joined_items, most_slots, shown};
ghost use Rattle.select.specs.Joined.{AreNumbersOf, TellsNulls};

use super::valid::joined_validity;
use arrays::validity::buffer_of;
use arrays::{Array, Buffer, IntType, NoMemory, View};
use std::alloc::Global;

/// The numbers of views of an integer type, which have so many slots together.
pub(super) fn join(
    alloc: Global,
    ty: IntType,
    views: &[View<'_>],
    slots: usize,
) -> Result<Array, NoMemory>
    requires kinds { All (λ (s : Seen). s.kind ≡ kind.int ty) views.now }
    requires slots { slots ≡ length (joined_items views.now) }
    requires short { slots ≤ most_slots }
    ensures { IfOk result (λ r. r ≡ shown (kind.int ty) (joined_items views.now)) }
{
    let values = Buffer::from_vec(joined_numbers(alloc, ty, views, slots)?)?;
    let validity = joined_validity(alloc, views, slots)?;
    Array::from_numbers(alloc, ty, slots as u32, buffer_of(validity), values)
}

/// The numbers that lie in all views, whether their slots are valid or not.
fn joined_numbers(
    alloc: Global,
    ty: IntType,
    views: &[View<'_>],
    slots: usize,
) -> Result<Vec<u8>, NoMemory>
    requires kinds { All (λ (s : Seen). s.kind ≡ kind.int ty) views.now }
    requires short { slots ≤ most_slots }
    ensures numbers { IfOk result (λ v. AreNumbersOf ty (joined_items views.now) v.items) }
    ensures reported { IfOk result (λ v. All TellsNulls views.now) }
{
    // A buffer is padded by at most 63 bytes, so that the numbers aren't copied again.
    let mut values = Vec::with_capacity(alloc, slots * ty.bits.bytes() + 63)?;
    for view in views {
        values.extend_from_slice(view.numbers(ty))?;
    }
    Ok(values)
}
