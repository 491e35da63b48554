//! Picked lists: how long they are, and the rows of the child that they hold.

ghost use Rattle.std.specs.Prelude.{◌≡◌, ◌+◌, ◌<◌, ◌++◌, ◌||◌, ◌∷◌, [], map, length, option_map, IfErr, IfOk, OnOk};
ghost use Rattle.std.specs.List.{All};
ghost use Rattle.arrays.specs.Prelude.{IsRange, inner_items, is_past, item_of_range, items_of_lists, list_length, most_slots, total};
ghost use Rattle.select.specs.Fault.{IsFull};
ghost use Rattle.select.specs.Picked.{IsPick, picked, picked_at};
ghost use Rattle.select.specs.Ranges.{rows_of};

use crate::fault::SelectFault;
use crate::picks::Picks;
use crate::rows::Rows;
use arrays::{ListBuilder, Lists, OffsetWidth};
use std::alloc::Global;

/// Lists in the making, and the rows of the child that they hold, one list after the other.
#[derive(Drop)]
pub(crate) struct Spread {
    pub(crate) lists: ListBuilder,
    pub(crate) rows: Picks,
}

/// The picked rows of a column of lists, which are to have offsets of this width.
pub(crate) fn spread_out<R: Rows>(
    alloc: Global,
    width: OffsetWidth,
    lists: &Lists<'_>,
    rows: &R,
) -> Result<Spread, SelectFault>
    requires { All (IsPick lists.now.slots) (R.picks rows.now) }
    ensures width { IfOk result (λ s. s.lists.width ≡ width) }
    ensures lengths { IfOk result (λ s. s.lists.lengths ≡ map list_length (picked (items_of_lists lists.now) (R.picks rows.now))) }
    ensures rows { IfOk result (λ s. picked lists.now.child.items s.rows ≡ inner_items (picked (items_of_lists lists.now) (R.picks rows.now))) }
    ensures within { IfOk result (λ s. All (IsPick (length lists.now.child.items)) s.rows) }
    ensures err { IfErr result (IsFull (is_past (length (inner_items (picked (items_of_lists lists.now) (R.picks rows.now)))))) }
{
    let count = rows.slots() as usize;
    let mut spread = Spread {
        lists: ListBuilder::with_capacity(alloc, width, count)?,
        rows: Picks::new(alloc),
    };
    let mut place = rows.first();
    for _slot in 0..count {
        let row = rows.next(&mut place);
        spread.push(range_at(lists, row))?;
    }
    Ok(spread)
}

impl Spread {
    /// Adds a list at the end that holds neighbouring rows of the child, or null.
    fn push(&mut self, range: Option<(usize, usize)>) -> Result<(), SelectFault>
        requires room { length self.old.lists.lengths < most_slots }
        requires range { IsRange most_slots range }
        ensures width { self.new.lists.width ≡ self.old.lists.width }
        ensures lengths { OnOk result (self.new.lists.lengths ≡ self.old.lists.lengths ++ option_map (λ r. r.1) range ∷ []) }
        ensures rows { OnOk result (self.new.rows ≡ self.old.rows ++ rows_of range) }
        ensures err { IfErr result (IsFull (is_past (length self.old.rows + length (rows_of range))
            || is_past (total (self.old.lists.lengths ++ option_map (λ r. r.1) range ∷ [])))) }
    {
        match range {
            Some((start, count)) => {
                self.rows.push_run(start, count)?;
                self.lists.push(Some(count))?;
            }
            None => self.lists.push(None)?,
        }
        Ok(())
    }
}

/// The rows of the child that the picked list holds: the first one, and how many. None where there is no list.
fn range_at(lists: &Lists<'_>, pick: Option<usize>) -> Option<(usize, usize)>
    requires { IsPick lists.now.slots pick }
    ensures item { item_of_range lists.now.child.items result ≡ picked_at (items_of_lists lists.now) pick }
    ensures within { IsRange (length lists.now.child.items) result }
    ensures small { IsRange most_slots result }
{
    match pick {
        Some(i) => lists.get(i),
        None => None,
    }
}
