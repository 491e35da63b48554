//! Views one after the other, as an array: one module for each layout.

ghost use Rattle.std.specs.Prelude.{◌≡◌, ◌≤◌, None, length, true, IfErr, IfNone, IfOk, IfSome};
ghost use Rattle.std.specs.List.{All, list_all};
ghost use Rattle.arrays.specs.Prelude.{Seen, is_past, joined_items, most_slots, same_kind, view_kind};
ghost use Rattle.select.specs.Fault.{IsFull, IsSelectFault};
ghost use Rattle.select.specs.Joined.{concat_fault, is_content_too_big, is_joined_too_big, joined, kind_of_first};

mod bools;
mod dicts;
mod lists;
mod numbers;
mod texts;
mod valid;

use crate::fault::SelectFault;
use arrays::{Array, MOST_SLOTS, View, ViewType};
use std::alloc::Global;

/// The items of all views, one view after the other. Dictionaries come one after the other too, and codes name their
/// entries there, so that doubles may stand among them. `TypesDiffer` unless all views are of one type. `OffsetsFull`
/// where the slots, texts, items of lists or dictionaries are past 2^31 - 1 together. `NoMemory` where a growth was
/// refused.
///
/// `[1, 2]` and `[null]` give `[1, 2, null]`.
pub fn concat(alloc: Global, views: &[View<'_>]) -> Result<Array, SelectFault>
    requires { 1 ≤ length views.now }
    ensures ok { IfOk result (λ r. (concat_fault views.now ≡ None) × (r ≡ joined (kind_of_first views.now) views.now)) }
    ensures err { IfErr result (IsSelectFault (concat_fault views.now) (concat_fault views.now)
        (is_joined_too_big (kind_of_first views.now) views.now)) }
{
    let ty = views[0].ty();
    if !are_of(ty, views) {
        return Err(SelectFault::TypesDiffer);
    }
    match slots_of(views) {
        Some(slots) => join(alloc, ty, views, slots),
        None => Err(SelectFault::OffsetsFull),
    }
}

/// Whether all views are of the type.
fn are_of(ty: ViewType<'_>, views: &[View<'_>]) -> bool
    ensures { result ≡ list_all (λ (s : Seen). same_kind s.kind (view_kind ty.entry)) views.now }
{
    views.iter().all(|view| view.ty().is_same(ty))
}

/// How many slots views have together, none where it is more than an array may have.
fn slots_of(views: &[View<'_>]) -> Option<usize>
    ensures some { IfSome result (λ n. (n ≡ length (joined_items views.now)) × (n ≤ most_slots)) }
    ensures none { IfNone result (is_past (length (joined_items views.now)) ≡ true) }
{
    let mut slots = 0;
    for view in views {
        slots += view.slots() as usize;
        if slots > MOST_SLOTS {
            return None;
        }
    }
    Some(slots)
}

/// The items of views of one type, which have so many slots together.
fn join(
    alloc: Global,
    ty: ViewType<'_>,
    views: &[View<'_>],
    slots: usize,
) -> Result<Array, SelectFault>
    requires some { 1 ≤ length views.now }
    requires kinds { All (λ (s : Seen). s.kind ≡ view_kind ty) views.now }
    requires slots { slots ≡ length (joined_items views.now) }
    requires short { slots ≤ most_slots }
    ensures ok { IfOk result (λ r. r ≡ joined (view_kind ty.entry) views.now) }
    ensures err { IfErr result (IsFull (is_content_too_big (view_kind ty.entry) views.now)) }
{
    match ty {
        ViewType::Int(ty) => Ok(numbers::join(alloc, ty, views, slots)?),
        ViewType::Bool => Ok(bools::join(alloc, views, slots)?),
        ViewType::Text(width) => texts::join(alloc, width, views, slots),
        ViewType::List(width, item) => {
            let lengths = lists::lengths(alloc, width, views, slots)?;
            let children = lists::children(alloc, item, views)?;
            let parts = lists::parts(alloc, &children)?;
            let Some(slots) = slots_of(&parts) else {
                return Err(SelectFault::OffsetsFull);
            };
            let child = join(alloc, ViewType::of(&item.ty), &parts, slots)?;
            Ok(lengths.finish(item.copy(alloc)?, child)?)
        }
        ViewType::Dict => dicts::join(alloc, views, slots),
    }
}
