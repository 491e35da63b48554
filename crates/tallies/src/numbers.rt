//! Sums and ends of columns of numbers, whose type is looked at once.

ghost use Rattle.std.specs.Prelude.{◌≡◌, ◌<◌, All, List, length, true};
ghost use Rattle.arrays.specs.Prelude.{Item, is_int};
ghost use Rattle.arrays.specs.Kind as kind;
ghost use Rattle.evaluate.specs.Prelude.{Sum};
ghost use Rattle.tallies.specs.Columns.{show_number, show_total};
ghost use Rattle.tallies.specs.Ends.{agg_at};
ghost use Rattle.tallies.specs.Picked.{items_at};
ghost use Rattle.tallies.specs.Spread.{spread};
ghost use Rattle.tallies.specs.Tallies.{AreTallies, HasRoomFor};

use crate::adding::add_each;
use crate::best_number::BestNumber;
use crate::end::End;
use crate::source::Candidates;
use crate::total::Total;
use arrays::{IntType, Integer, View, ViewType, with_integer};

/// Adds the numbers of a column at these rows to the sums of their groups.
pub(crate) fn add_sums(totals: &mut [Total], view: &View<'_>, rows: &[usize], ids: &[usize])
    requires int { is_int view.now.kind ≡ true }
    requires lengths { length ids.now ≡ length rows.now }
    requires inside { All (λ n. n < length totals.old) ids.now }
    requires within { All (λ r. r < length view.now.items) rows.now }
    requires few { HasRoomFor show_total (Sum 0) totals.old (length rows.now) }
    ensures { (groups : List (List Item)) → AreTallies show_total (Sum 0) totals.old groups
        → AreTallies show_total (Sum 0) totals.new (spread ids.now (items_at view.now.items rows.now) groups) }
{
    let ViewType::Int(ty) = view.ty() else {
        unreachable!()
    };
    with_integer!(ty, sums_as::<_>(totals, view, rows, ids))
}

/// The same, for a column of type `T`.
fn sums_as<T: Integer>(totals: &mut [Total], view: &View<'_>, rows: &[usize], ids: &[usize])
    requires kind { view.now.kind ≡ kind.int T.ty }
    requires lengths { length ids.now ≡ length rows.now }
    requires inside { All (λ n. n < length totals.old) ids.now }
    requires within { All (λ r. r < length view.now.items) rows.now }
    requires few { HasRoomFor show_total (Sum 0) totals.old (length rows.now) }
    ensures { (groups : List (List Item)) → AreTallies show_total (Sum 0) totals.old groups
        → AreTallies show_total (Sum 0) totals.new (spread ids.now (items_at view.now.items rows.now) groups) }
{
    add_each(totals, &view.ints::<T>(), rows, ids)
}

/// Adds the numbers of a column of this type at these rows to what is sought in their groups.
pub(crate) fn add_best(
    bests: &mut [BestNumber],
    ty: IntType,
    end: End,
    view: &View<'_>,
    rows: &[usize],
    ids: &[usize],
)
    requires kind { view.now.kind ≡ kind.int ty }
    requires lengths { length ids.now ≡ length rows.now }
    requires inside { All (λ n. n < length bests.old) ids.now }
    requires within { All (λ r. r < length view.now.items) rows.now }
    requires few { HasRoomFor show_number (agg_at end 0) bests.old (length rows.now) }
    ensures { (groups : List (List Item)) → AreTallies show_number (agg_at end 0) bests.old groups
        → AreTallies show_number (agg_at end 0) bests.new (spread ids.now (items_at view.now.items rows.now) groups) }
{
    with_integer!(ty, best_as::<_>(bests, end, view, rows, ids))
}

/// The same, for a column of type `T`.
fn best_as<T: Integer>(
    bests: &mut [BestNumber],
    end: End,
    view: &View<'_>,
    rows: &[usize],
    ids: &[usize],
)
    requires kind { view.now.kind ≡ kind.int T.ty }
    requires lengths { length ids.now ≡ length rows.now }
    requires inside { All (λ n. n < length bests.old) ids.now }
    requires within { All (λ r. r < length view.now.items) rows.now }
    requires few { HasRoomFor show_number (agg_at end 0) bests.old (length rows.now) }
    ensures { (groups : List (List Item)) → AreTallies show_number (agg_at end 0) bests.old groups
        → AreTallies show_number (agg_at end 0) bests.new (spread ids.now (items_at view.now.items rows.now) groups) }
{
    let column = &view.ints::<T>();
    add_each(bests, &Candidates { end, column }, rows, ids)
}
