//! The items of lists as columns.

ghost use Rattle.std.specs.Prelude.{◌≡◌, ◌++◌, ◌<◌, All, IfOk, OnOk, Some, length, slice_index_or, true};
ghost use Rattle.arrays.specs.Prelude.{Kind, inner_items, is_list, item_kind, items_in, joined_items, null};
ghost use Rattle.json_print.specs.Slots.{AreOf};

use arrays::{NoMemory, View};
use std::alloc::Global;

/// Adds list `i` of a column, if it is there, as the column of its items.
fn push_list<'a>(lists: &mut Vec<View<'a>>, column: &View<'a>, i: usize) -> Result<(), NoMemory>
    requires list { is_list column.now.kind ≡ true }
    requires within { i < length column.now.items }
    ensures items { OnOk result (joined_items lists.new.items
        ≡ joined_items lists.old.items ++ items_in (slice_index_or column.now.items i null)) }
    ensures kinds { OnOk result ((k : Kind) → item_kind column.now.kind ≡ Some k → AreOf k lists.old.items
        → AreOf k lists.new.items) }
{
    match column.list_at(i) {
        Some(list) => {
            lists.push(list)?;
            Ok(())
        }
        None => Ok(()),
    }
}

/// Adds the lists of a column that are there, each as the column of its items.
fn push_lists<'a>(lists: &mut Vec<View<'a>>, column: &View<'a>) -> Result<(), NoMemory>
    requires { is_list column.now.kind ≡ true }
    ensures items { OnOk result (joined_items lists.new.items ≡ joined_items lists.old.items ++ inner_items column.now.items) }
    ensures kinds { OnOk result ((k : Kind) → item_kind column.now.kind ≡ Some k → AreOf k lists.old.items
        → AreOf k lists.new.items) }
{
    for i in 0..column.len() {
        push_list(lists, column, i)?;
    }
    Ok(())
}

/// The lists of columns that are there, each as the column of its items.
pub(crate) fn lists_of<'a>(alloc: Global, columns: &[View<'a>]) -> Result<Vec<View<'a>>, NoMemory>
    requires { All (λ c. is_list c.kind ≡ true) columns.now }
    ensures items { IfOk result (λ lists. joined_items lists.items ≡ inner_items (joined_items columns.now)) }
    ensures kinds { IfOk result (λ lists. (k : Kind) → All (λ c. item_kind c.kind ≡ Some k) columns.now → AreOf k lists.items) }
{
    let mut lists = Vec::new(alloc);
    for column in columns {
        push_lists(&mut lists, column)?;
    }
    Ok(lists)
}
