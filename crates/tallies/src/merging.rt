//! The cells of groups, to which those of the rows behind theirs are added.

ghost use Rattle.std.specs.Prelude.{◌≡◌, ◌<◌, ◌≤◌, ◌^◌, All, length, map};
ghost use Rattle.evaluate.specs.Prelude.{Rows, Sum};
ghost use Rattle.tallies.specs.Columns.{show_number, show_total};
ghost use Rattle.tallies.specs.Ends.{agg_at};
ghost use Rattle.tallies.specs.Merging.{AreFew, merge_all};
ghost use Rattle.tallies.specs.Tallies.{counted};

use crate::best_number::BestNumber;
use crate::end::End;
use crate::total::Total;

/// How the cells of items, and of items behind them, become one.
pub(crate) trait Merge<C> {
    ghost use Rattle.std.specs.Prelude.{ℕ};
    ghost use Rattle.evaluate.specs.Prelude.{Agg};
    ghost use Rattle.tallies.specs.Merging.{merged};
    ghost use Rattle.tallies.specs.Tallies.{TallyShape};

    // Whose tally a cell is, and which.
    ghost agg: { Self → Agg ℕ };

    ghost show: { C → TallyShape };

    /// The cell of both.
    fn both(&self, cell: C, other: C) -> C
        requires few { (merged (agg self.now) (show cell) (show other)).count ≤ 2 ^ 40 }
        ensures { show result ≡ merged (agg self.now) (show cell) (show other) };
}

/// Counts.
#[derive(Drop)]
pub(crate) struct Counts;

impl Merge<u64> for Counts {
    ghost agg = { λ _. Rows };

    ghost show = { counted };

    #[inline(always)]
    fn both(&self, cell: u64, other: u64) -> u64 {
        cell + other
    }
}

/// Sums.
#[derive(Drop)]
pub(crate) struct Sums;

impl Merge<Total> for Sums {
    ghost agg = { λ _. Sum 0 };

    ghost show = { show_total };

    #[inline(always)]
    fn both(&self, cell: Total, other: Total) -> Total {
        cell.with_total(other)
    }
}

/// Numbers, of which the one at the end is sought.
#[derive(Drop)]
pub(crate) struct Bests {
    pub(crate) end: End,
}

impl Merge<BestNumber> for Bests {
    ghost agg = { λ s. agg_at s.end 0 };

    ghost show = { show_number };

    #[inline(always)]
    fn both(&self, cell: BestNumber, other: BestNumber) -> BestNumber {
        cell.or_better(self.end, other)
    }
}

/// Adds to the cells of groups the others, beside which the ids of their groups stand.
pub(crate) fn merge_each<C: Copy, M: Merge<C>>(
    cells: &mut [C],
    how: &M,
    others: &[C],
    ids: &[usize],
)
    requires lengths { length ids.now ≡ length others.now }
    requires inside { All (λ n. n < length cells.old) ids.now }
    requires few { AreFew (merge_all (M.agg how.now) ids.now (map M.show others.now) (map M.show cells.old)) }
    ensures { map M.show cells.new ≡ merge_all (M.agg how.now) ids.now (map M.show others.now) (map M.show cells.old) }
{
    for i in 0..others.len() {
        let id = ids[i];
        cells[id] = how.both(cells[id], others[i]);
    }
}
