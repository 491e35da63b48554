//! The cells of groups, to which rows are added.

ghost use Rattle.std.specs.Prelude.{◌≡◌, ◌<◌, ◌≤◌, ◌+◌, ◌^◌, ◌++◌, All, List, length};
ghost use Rattle.arrays.specs.Prelude.{Item};
ghost use Rattle.tallies.specs.Picked.{items_at};
ghost use Rattle.tallies.specs.Spread.{spread};
ghost use Rattle.tallies.specs.Tallies.{AreTallies, HasRoomFor, tally_of};

use crate::source::Source;

/// Adds rows of a batch to the cells of their groups, whose ids stand beside.
pub(crate) fn add_each<C: Copy, S: Source<C>>(
    cells: &mut [C],
    source: &S,
    rows: &[usize],
    ids: &[usize],
)
    requires lengths { length ids.now ≡ length rows.now }
    requires inside { All (λ n. n < length cells.old) ids.now }
    requires within { All (λ r. r < length (S.items source.now)) rows.now }
    requires few { HasRoomFor S.show (S.agg source.now) cells.old (length rows.now) }
    ensures { (groups : List (List Item)) → AreTallies S.show (S.agg source.now) cells.old groups
        → AreTallies S.show (S.agg source.now) cells.new (spread ids.now (items_at (S.items source.now) rows.now) groups) }
{
    if cells.len() == 1 {
        cells[0] = with_rows(cells[0], source, rows);
        return;
    }
    for i in 0..rows.len() {
        let id = ids[i];
        cells[id] = source.with_row(cells[id], rows[i]);
    }
}

/// The cell of the only group with rows of a batch more. It isn't written to memory for each.
fn with_rows<C: Copy, S: Source<C>>(cell: C, source: &S, rows: &[usize]) -> C
    requires within { All (λ r. r < length (S.items source.now)) rows.now }
    requires few { (xs : List Item) × (S.show cell ≡ tally_of (S.agg source.now) xs) × (length xs + length rows.now ≤ 2 ^ 40) }
    ensures { (xs : List Item) → S.show cell ≡ tally_of (S.agg source.now) xs
        → S.show result ≡ tally_of (S.agg source.now) (xs ++ items_at (S.items source.now) rows.now) }
{
    let mut whole = cell;
    for row in rows {
        whole = source.with_row(whole, *row);
    }
    whole
}
