//! Lists one after the other: how long they are, and the rows of the children that they hold.

ghost use Rattle.std.specs.Prelude.{◌≡◌, ◌+◌, ◌++◌, ◌||◌, ◌<◌, ◌≤◌, IfErr, IfOk, OnOk, Some, length, map, slice_index_or, true};
ghost use Rattle.std.specs.List.{All};
ghost use Rattle.arrays.specs.Prelude.{Seen, inner_items, is_list, is_past, is_too_big, item_kind, joined_items, kind_of, list_length, most_slots, null, out-Field, total};
ghost use Rattle.select.specs.Children.{AreChildren, IsChild};
ghost use Rattle.select.specs.Fault.{IsFull};

use crate::fault::SelectFault;
use crate::gather::{gather_picks, spread_out};
use crate::rows::FirstRows;
use arrays::{Array, Field, ListBuilder, NoMemory, OffsetWidth, View};
use std::alloc::Global;

/// How long the lists of views are, which have so many slots together, with offsets of this width.
pub(super) fn lengths(
    alloc: Global,
    width: OffsetWidth,
    views: &[View<'_>],
    slots: usize,
) -> Result<ListBuilder, SelectFault>
    requires kinds { All (λ (s : Seen). is_list s.kind ≡ true) views.now }
    requires slots { slots ≡ length (joined_items views.now) }
    requires short { slots ≤ most_slots }
    ensures width { IfOk result (λ b. b.width ≡ width) }
    ensures ok { IfOk result (λ b. b.lengths ≡ map list_length (joined_items views.now)) }
    ensures err { IfErr result (IsFull (is_past (length (inner_items (joined_items views.now))))) }
{
    let mut builder = ListBuilder::with_capacity(alloc, width, slots)?;
    for view in views {
        push_all(&mut builder, view)?;
    }
    Ok(builder)
}

/// Adds the lengths of all slots of a view at the end.
fn push_all(builder: &mut ListBuilder, view: &View<'_>) -> Result<(), SelectFault>
    requires kind { is_list view.now.kind ≡ true }
    requires room { length builder.old.lengths + length view.now.items ≤ most_slots }
    ensures width { builder.new.width ≡ builder.old.width }
    ensures ok { OnOk result (builder.new.lengths ≡ builder.old.lengths ++ map list_length view.now.items) }
    ensures err { IfErr result (IsFull (is_past (total (builder.old.lengths ++ map list_length view.now.items)))) }
{
    for i in 0..view.len() {
        builder.push(length_at(view, i))?;
    }
    Ok(())
}

/// How long list `i` is, none where there is none.
fn length_at(view: &View<'_>, i: usize) -> Option<usize>
    requires kind { is_list view.now.kind ≡ true }
    requires within { i < length view.now.items }
    ensures { result ≡ list_length (slice_index_or view.now.items i null) }
{
    match view.list_at(i) {
        Some(list) => Some(list.len()),
        None => None,
    }
}

/// The children of views of lists of the field's type, each with the rows alone that lists hold.
pub(super) fn children(
    alloc: Global,
    item: &Field,
    views: &[View<'_>],
) -> Result<Vec<Array>, SelectFault>
    requires { All (λ (s : Seen). item_kind s.kind ≡ Some (kind_of (out-Field item.now).ty)) views.now }
    ensures ok { IfOk result (λ v. AreChildren (kind_of (out-Field item.now).ty) views.now v.items) }
    ensures err { IfErr result (IsFull (is_past (length (inner_items (joined_items views.now)))
        || is_too_big (kind_of (out-Field item.now).ty) (inner_items (joined_items views.now)))) }
{
    let mut children = Vec::with_capacity(alloc, views.len())?;
    for view in views {
        children.push(child_of(alloc, view)?)?;
    }
    Ok(children)
}

/// The rows of a view's child that lists hold.
fn child_of(alloc: Global, view: &View<'_>) -> Result<Array, SelectFault>
    requires { is_list view.now.kind ≡ true }
    ensures ok { IfOk result (IsChild view.now) }
    ensures err { IfErr result (IsFull (is_too_big view.now.kind view.now.items)) }
{
    let lists = view.lists();
    let all = FirstRows::new(view.slots());
    let spread = spread_out(alloc, OffsetWidth::Narrow, &lists, &all)?;
    gather_picks(alloc, &lists.child, &spread.rows)
}

/// Views of all slots of arrays.
pub(super) fn parts<'a>(alloc: Global, arrays: &'a [Array]) -> Result<Vec<View<'a>>, NoMemory>
    ensures { IfOk result (λ v. v.items ≡ arrays.now) }
{
    let mut views = Vec::with_capacity(alloc, arrays.len())?;
    for array in arrays {
        views.push(array.view())?;
    }
    Ok(views)
}
