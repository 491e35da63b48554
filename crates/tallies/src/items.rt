//! The least and the greatest of any items.

ghost use Rattle.std.specs.Prelude.{◌≡◌, ◌<◌, ◌≤◌, All, IfOk, List, None, OnOk, false, length, map};
ghost use Rattle.arrays.specs.Prelude.{Item, is_list};
ghost use Rattle.tallies.specs.Columns.{show_item, show_number};
ghost use Rattle.tallies.specs.Ends.{agg_at};
ghost use Rattle.tallies.specs.Merging.{merge_all};
ghost use Rattle.tallies.specs.Picked.{items_at};
ghost use Rattle.tallies.specs.Spread.{padded, spread};
ghost use Rattle.tallies.specs.Tallies.{AreTallies};

use crate::best::put_better;
use crate::best_number::BestNumber;
use crate::end::End;
use arrays::{NoMemory, View};
use group::{Scalar, ScalarRef};
use std::alloc::Global;

/// Adds the items of a column at these rows to what is sought in their groups.
pub(crate) fn add_items(
    alloc: Global,
    bests: &mut [Option<Scalar>],
    end: End,
    view: &View<'_>,
    rows: &[usize],
    ids: &[usize],
) -> Result<(), NoMemory>
    requires plain { is_list view.now.kind ≡ false }
    requires lengths { length ids.now ≡ length rows.now }
    requires inside { All (λ n. n < length bests.old) ids.now }
    requires within { All (λ r. r < length view.now.items) rows.now }
    ensures { (groups : List (List Item)) → AreTallies show_item (agg_at end 0) bests.old groups
        → OnOk result (AreTallies show_item (agg_at end 0) bests.new (spread ids.now (items_at view.now.items rows.now) groups)) }
{
    for i in 0..rows.len() {
        let id = ids[i];
        let value = ScalarRef::at(view, rows[i]);
        put_better(alloc, &mut bests[id], end, value)?;
    }
    Ok(())
}

/// Adds the bests of other groups, beside which the ids of their groups stand.
pub(crate) fn merge_items(
    alloc: Global,
    bests: &mut [Option<Scalar>],
    end: End,
    others: &[Option<Scalar>],
    ids: &[usize],
) -> Result<(), NoMemory>
    requires lengths { length ids.now ≡ length others.now }
    requires inside { All (λ n. n < length bests.old) ids.now }
    ensures { OnOk result (map show_item bests.new
        ≡ merge_all (agg_at end 0) ids.now (map show_item others.now) (map show_item bests.old)) }
{
    for i in 0..others.len() {
        let id = ids[i];
        put_better(alloc, &mut bests[id], end, ScalarRef::of(&others[i]))?;
    }
    Ok(())
}

/// Adds cells of no items until there are so many.
pub(crate) fn push_empty(items: &mut Vec<Option<Scalar>>, groups: usize) -> Result<(), NoMemory>
    requires { length items.old.items ≤ groups }
    ensures { OnOk result (items.new.items ≡ padded groups None items.old.items) }
{
    while items.len() < groups {
        items.push(None)?;
    }
    Ok(())
}

/// The numbers as values.
pub(crate) fn scalars_of(
    alloc: Global,
    numbers: &[BestNumber],
) -> Result<Vec<Option<Scalar>>, NoMemory>
    ensures { IfOk result (λ v. map show_item v.items ≡ map show_number numbers.now) }
{
    let mut items = Vec::with_capacity(alloc, numbers.len())?;
    for number in numbers {
        items.push(number.get().map(Scalar::Int))?;
    }
    Ok(items)
}
