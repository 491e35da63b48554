//! The rows of a view at indices.

ghost use Rattle.std.specs.Prelude.{◌≡◌, None, IfErr, IfOk};
ghost use Rattle.arrays.specs.Kind as kind;
ghost use Rattle.arrays.specs.Lengths.{is_too_big};
ghost use Rattle.select.specs.Chosen.{chosen};
ghost use Rattle.select.specs.Fault.{IsSelectFault};
ghost use Rattle.select.specs.Selection.{indices_fault, take_fault, taken};

use crate::fault::SelectFault;
use crate::gather::gather;
use crate::indices::Indices;
use arrays::{Array, Integer, View, ViewType, with_integer};
use std::alloc::Global;

/// The items at the indices, in their order and as often as they come: null where the index is null. A
/// dictionary-encoded view keeps its kind and shares its dictionary. `WrongKind` unless the indices are integers;
/// else `IndexOutOfRange` at the least row whose index is there and names no slot of the view. `OffsetsFull` where
/// the taken texts or items of lists are past 2^31 - 1. `NoMemory` where a growth was refused.
///
/// Of `["a", null, "c"]` the indices `[2, null, 0, 0]` take `["c", null, "a", "a"]`.
pub fn take(alloc: Global, view: &View<'_>, indices: &View<'_>) -> Result<Array, SelectFault>
    ensures ok { IfOk result (λ r. (take_fault view.now indices.now ≡ None)
        × (r ≡ chosen view.now.kind (λ items. taken items indices.now.items) view.now)) }
    ensures err { IfErr result (IsSelectFault (indices_fault indices.now) (take_fault view.now indices.now)
        (is_too_big view.now.kind (taken view.now.items indices.now.items))) }
{
    let ViewType::Int(ty) = indices.ty() else {
        return Err(SelectFault::WrongKind);
    };
    with_integer!(ty, take_at::<_>(alloc, view, indices))
}

/// The items at indices of type `T`, which are read where they lie.
fn take_at<T: Integer>(
    alloc: Global,
    view: &View<'_>,
    indices: &View<'_>,
) -> Result<Array, SelectFault>
    requires { indices.now.kind ≡ kind.int T.ty }
    ensures ok { IfOk result (λ r. (take_fault view.now indices.now ≡ None)
        × (r ≡ chosen view.now.kind (λ items. taken items indices.now.items) view.now)) }
    ensures err { IfErr result (IsSelectFault (indices_fault indices.now) (take_fault view.now indices.now)
        (is_too_big view.now.kind (taken view.now.items indices.now.items))) }
{
    let rows = Indices::<T>::of(indices, view.slots() as usize)?;
    gather(alloc, view, &rows)
}
