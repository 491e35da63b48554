//! What rows add to the tallies of their groups.

ghost use Rattle.std.specs.Prelude.{◌≡◌, ◌^◌, ◌<◌, ◌++◌, ◌∷◌, ℕ, [], List, length, replicate, slice_index_or};
ghost use Rattle.arrays.specs.Prelude.{Item, null, number_items};
ghost use Rattle.evaluate.specs.Prelude.{Agg, Count, Rows, Sum};
ghost use Rattle.tallies.specs.Columns.{show_number, show_total};
ghost use Rattle.tallies.specs.Ends.{agg_at};
ghost use Rattle.tallies.specs.Tallies.{TallyShape, counted, tally_of};

use crate::best_number::BestNumber;
use crate::end::End;
use crate::total::Total;
use arrays::{Integer, Ints, View};

/// What each row of a batch adds to the cell of its group.
pub(crate) trait Source<C> {
    ghost use Rattle.std.specs.Prelude.{ℕ, List};
    ghost use Rattle.arrays.specs.Prelude.{Item};
    ghost use Rattle.evaluate.specs.Prelude.{Agg};
    ghost use Rattle.tallies.specs.Tallies.{TallyShape};

    // Whose tally a cell is, and which.
    ghost agg: { Self → Agg ℕ };

    ghost show: { C → TallyShape };

    // What it looks at in each row.
    ghost items: { Self → List Item };

    /// The cell with a row more.
    fn with_row(&self, cell: C, row: usize) -> C
        requires within { row < length (items self.now) }
        requires few { (show cell).count < 2 ^ 40 }
        ensures { (xs : List Item) → show cell ≡ tally_of (agg self.now) xs
            → show result ≡ tally_of (agg self.now) (xs ++ slice_index_or (items self.now) row null ∷ []) };
}

/// The rows themselves.
#[derive(Drop)]
pub(crate) struct EachRow {
    pub(crate) rows: u32,
}

impl Source<u64> for EachRow {
    ghost agg = { λ _. Rows };

    ghost show = { counted };

    ghost items = { λ s. replicate s.rows null };

    #[inline(always)]
    fn with_row(&self, cell: u64, _row: usize) -> u64 {
        cell + 1
    }
}

/// The items of a column that aren't null.
#[derive(Drop)]
pub(crate) struct EachItem<'a, 'b> {
    pub(crate) view: &'a View<'b>,
}

impl<'a, 'b> Source<u64> for EachItem<'a, 'b> {
    ghost agg = { λ _. Count 0 };

    ghost show = { counted };

    ghost items = { λ s. s.view.now.items };

    #[inline(always)]
    fn with_row(&self, cell: u64, row: usize) -> u64 {
        if self.view.holds(row) { cell + 1 } else { cell }
    }
}

impl<'a, T: Integer> Source<Total> for Ints<'a, T> {
    ghost agg = { λ _. Sum 0 };

    ghost show = { show_total };

    ghost items = { λ s. number_items T.ty s.values.now s.validity s.slots };

    #[inline(always)]
    fn with_row(&self, cell: Total, row: usize) -> Total {
        match self.get(row) {
            Some(number) => cell.with_number(number),
            None => cell,
        }
    }
}

/// The numbers of a column, of which the one at the end is sought.
#[derive(Drop)]
pub(crate) struct Candidates<'a, 'c, T: Integer> {
    pub(crate) end: End,
    pub(crate) column: &'c Ints<'a, T>,
}

impl<'a, 'c, T: Integer> Source<BestNumber> for Candidates<'a, 'c, T> {
    ghost agg = { λ s. agg_at s.end 0 };

    ghost show = { show_number };

    ghost items = { λ s. number_items T.ty s.column.now.values.now s.column.now.validity s.column.now.slots };

    #[inline(always)]
    fn with_row(&self, cell: BestNumber, row: usize) -> BestNumber {
        match self.column.get(row) {
            Some(number) => cell.with_number(self.end, number),
            None => cell,
        }
    }
}
