//! The tallies of one aggregate, to which those of the rows behind are added.

ghost use Rattle.std.specs.Prelude.{◌≡◌, ◌<◌, ◌≤◌, ◌^◌, ℕ, [], All, List, OnOk, length, map};
ghost use Rattle.arrays.specs.Prelude.{Kind, Table};
ghost use Rattle.tallies.specs.Columns.{column_of, show_column, show_item, show_number, show_total, IsColumnOf};
ghost use Rattle.tallies.specs.Merging.{AreAlike, AreFew, IsBest, IsCount, IsSum, column_merged, spread_all};
ghost use Rattle.tallies.specs.Spread.{padded};
ghost use Rattle.tallies.specs.Tallies.{counted};

use crate::best_number::BestNumber;
use crate::column::TallyColumn;
use crate::items::{merge_items, scalars_of};
use crate::merging::{Bests, Counts, Sums, merge_each};
use crate::total::Total;
use arrays::NoMemory;
use group::Scalar;
use std::alloc::Global;

impl TallyColumn {
    /// Adds the tallies of the rows behind, beside which the ids of their groups stand. There are so many groups then.
    pub fn join(
        &mut self,
        alloc: Global,
        groups: usize,
        other: &TallyColumn,
        ids: &[usize],
    ) -> Result<(), NoMemory>
        requires same { (show_column other.now).agg ≡ (show_column self.old).agg }
        requires lengths { length ids.now ≡ length (show_column other.now).tallies }
        requires inside { All (λ n. n < groups) ids.now }
        requires few { let column = show_column self.old in
            (kinds : ℕ → Kind) × (tables : List Table) × (more : List Table) × IsColumnOf tables self.old × IsColumnOf more other.now
            × AreAlike kinds tables column.agg × AreAlike kinds more column.agg × (length tables ≤ groups)
            × All (λ t. length t ≤ 2 ^ 40) (spread_all ids.now more (padded groups [] tables)) }
        ensures { let column = show_column self.old in
            (kinds : ℕ → Kind) (tables more : List Table) → IsColumnOf tables self.old → IsColumnOf more other.now
            → AreAlike kinds tables column.agg → AreAlike kinds more column.agg
            → OnOk result (show_column self.new ≡ column_of (spread_all ids.now more (padded groups [] tables)) column.agg) }
    {
        self.grow(groups)?;
        self.merge(alloc, other, ids)
    }

    /// Adds the tallies of the rows behind to those of their groups, whose ids stand beside.
    fn merge(&mut self, alloc: Global, other: &TallyColumn, ids: &[usize]) -> Result<(), NoMemory>
        requires same { (show_column other.now).agg ≡ (show_column self.old).agg }
        requires lengths { length ids.now ≡ length (show_column other.now).tallies }
        requires inside { All (λ n. n < length (show_column self.old).tallies) ids.now }
        requires few { AreFew (column_merged ids.now (show_column other.now).tallies (show_column self.old)).tallies }
        ensures { OnOk result (show_column self.new ≡ column_merged ids.now (show_column other.now).tallies (show_column self.old)) }
    {
        match other {
            TallyColumn::Rows(others) => self.merge_counts(others, ids),
            TallyColumn::Count(_place, others) => self.merge_counts(others, ids),
            TallyColumn::Sum(_place, others) => self.merge_sums(others, ids),
            TallyColumn::Numbers(_end, _place, others) => {
                return self.merge_numbers(alloc, others, ids);
            }
            TallyColumn::Items(_end, _place, others) => {
                return self.merge_items(alloc, others, ids);
            }
        }
        Ok(())
    }

    /// The same of counts.
    fn merge_counts(&mut self, others: &[u64], ids: &[usize])
        requires counts { IsCount (show_column self.old).agg }
        requires lengths { length ids.now ≡ length others.now }
        requires inside { All (λ n. n < length (show_column self.old).tallies) ids.now }
        requires few { AreFew (column_merged ids.now (map counted others.now) (show_column self.old)).tallies }
        ensures { show_column self.new ≡ column_merged ids.now (map counted others.now) (show_column self.old) }
    {
        match self {
            TallyColumn::Rows(counts) => merge_each(counts, &Counts, others, ids),
            TallyColumn::Count(_place, counts) => merge_each(counts, &Counts, others, ids),
            _ => unreachable!(),
        }
    }

    /// The same of sums.
    fn merge_sums(&mut self, others: &[Total], ids: &[usize])
        requires sums { IsSum (show_column self.old).agg }
        requires lengths { length ids.now ≡ length others.now }
        requires inside { All (λ n. n < length (show_column self.old).tallies) ids.now }
        requires few { AreFew (column_merged ids.now (map show_total others.now) (show_column self.old)).tallies }
        ensures { show_column self.new ≡ column_merged ids.now (map show_total others.now) (show_column self.old) }
    {
        match self {
            TallyColumn::Sum(_place, totals) => merge_each(totals, &Sums, others, ids),
            _ => unreachable!(),
        }
    }

    /// The same of the least or the greatest, where those behind are numbers alone.
    fn merge_numbers(
        &mut self,
        alloc: Global,
        others: &[BestNumber],
        ids: &[usize],
    ) -> Result<(), NoMemory>
        requires bests { IsBest (show_column self.old).agg }
        requires lengths { length ids.now ≡ length others.now }
        requires inside { All (λ n. n < length (show_column self.old).tallies) ids.now }
        requires few { AreFew (column_merged ids.now (map show_number others.now) (show_column self.old)).tallies }
        ensures { OnOk result (show_column self.new ≡ column_merged ids.now (map show_number others.now) (show_column self.old)) }
    {
        match self {
            TallyColumn::Numbers(end, _place, bests) => {
                merge_each(bests, &Bests { end: *end }, others, ids);
                Ok(())
            }
            TallyColumn::Items(end, _place, items) => {
                let others = scalars_of(alloc, others)?;
                merge_items(alloc, items, *end, &others, ids)
            }
            _ => unreachable!(),
        }
    }

    /// The same, where those behind are of any items.
    fn merge_items(
        &mut self,
        alloc: Global,
        others: &[Option<Scalar>],
        ids: &[usize],
    ) -> Result<(), NoMemory>
        requires bests { IsBest (show_column self.old).agg }
        requires lengths { length ids.now ≡ length others.now }
        requires inside { All (λ n. n < length (show_column self.old).tallies) ids.now }
        ensures { OnOk result (show_column self.new ≡ column_merged ids.now (map show_item others.now) (show_column self.old)) }
    {
        match self {
            TallyColumn::Numbers(end, place, bests) => {
                let (end, place) = (*end, *place);
                let mut items = scalars_of(alloc, bests)?;
                merge_items(alloc, &mut items, end, others, ids)?;
                *self = TallyColumn::Items(end, place, items);
                Ok(())
            }
            TallyColumn::Items(end, _place, items) => {
                merge_items(alloc, items, *end, others, ids)
            }
            _ => unreachable!(),
        }
    }
}
