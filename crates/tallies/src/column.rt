//! The tallies of one aggregate, a cell for each group.

ghost use Rattle.std.specs.Prelude.{ℕ, ◌≡◌, ◌+◌, ◌≤◌, ◌<◌, ◌^◌, [], All, IfOk, List, None, OnOk, length, map};
ghost use Rattle.arrays.specs.Batch.{Table, row_of};
ghost use Rattle.evaluate.specs.Prelude.{agg_fault, sort_at};
ghost use Rattle.group.specs.Scalars.{item_of_scalar};
ghost use Rattle.tallies.specs.Columns.{column_of, rows_column, show_column, cell_of_group};
ghost use Rattle.tallies.specs.Spread.{padded, spread};
ghost use Rattle.tallies.specs.Tallies.{tally_of};

use crate::adding::add_each;
use crate::ahead::make_room;
use crate::best_number::BestNumber;
use crate::end::End;
use crate::items::{add_items, push_empty, scalars_of};
use crate::numbers::{add_best, add_sums};
use crate::source::{EachItem, EachRow};
use crate::total::{Total, no_total};
use arrays::{NoMemory, RecordBatch, ViewType};
use evaluate::Agg;
use evaluate::column::column_at;
use group::{Scalar, copied};
use std::alloc::Global;

/// What an aggregate knows of the rows so far, a cell for each group.
#[derive(Drop)]
pub enum TallyColumn {
    Rows(Vec<u64>),
    Count(u32, Vec<u64>),
    Sum(u32, Vec<Total>),
    /// The least or the greatest, of numbers alone so far.
    Numbers(End, u32, Vec<BestNumber>),
    /// The least or the greatest of any items.
    Items(End, u32, Vec<Option<Scalar>>),
}

impl TallyColumn {
    /// That of no groups.
    pub fn new(alloc: Global, agg: Agg<u32>) -> TallyColumn
        ensures { show_column result ≡ record { agg = agg; tallies = [] } }
    {
        match agg {
            Agg::Rows => TallyColumn::Rows(Vec::new(alloc)),
            Agg::Count(place) => TallyColumn::Count(place, Vec::new(alloc)),
            Agg::Sum(place) => TallyColumn::Sum(place, Vec::new(alloc)),
            Agg::Least(place) => TallyColumn::Numbers(End::Least, place, Vec::new(alloc)),
            Agg::Greatest(place) => TallyColumn::Numbers(End::Greatest, place, Vec::new(alloc)),
        }
    }

    /// Adds groups of no rows until there are so many.
    pub fn grow(&mut self, groups: usize) -> Result<(), NoMemory>
        requires { length (show_column self.old).tallies ≤ groups }
        ensures { let column = show_column self.old in
            OnOk result (show_column self.new
            ≡ record { agg = column.agg; tallies = padded groups (tally_of column.agg []) column.tallies }) }
    {
        match self {
            TallyColumn::Rows(counts) => pad(counts, groups, 0)?,
            TallyColumn::Count(_place, counts) => pad(counts, groups, 0)?,
            TallyColumn::Sum(_place, totals) => pad(totals, groups, no_total())?,
            TallyColumn::Numbers(_end, _place, numbers) => pad(
                numbers,
                groups,
                BestNumber::none(),
            )?,
            TallyColumn::Items(_end, _place, items) => push_empty(items, groups)?,
        }
        Ok(())
    }

    /// Adds rows of a batch to their groups, whose ids stand beside.
    fn add(
        &mut self,
        alloc: Global,
        batch: &RecordBatch,
        rows: &[usize],
        ids: &[usize],
    ) -> Result<(), NoMemory>
        requires fits { agg_fault (sort_at batch.now.fields) (show_column self.old).agg ≡ None }
        requires lengths { length ids.now ≡ length rows.now }
        requires inside { All (λ n. n < length (show_column self.old).tallies) ids.now }
        requires within { All (λ r. r < batch.now.rows) rows.now }
        requires few { let column = show_column self.old in
            (tables : List Table) × (column ≡ column_of tables column.agg) × All (λ t. length t + length rows.now ≤ 2 ^ 40) tables }
        ensures { let column = show_column self.old in
            (tables : List Table) → column ≡ column_of tables column.agg
            → OnOk result (show_column self.new
            ≡ column_of (spread ids.now (map (row_of batch.now.columns) rows.now) tables) column.agg) }
    {
        match self {
            TallyColumn::Rows(counts) => {
                let source = EachRow { rows: batch.rows() };
                add_each(counts, &source, rows, ids);
                Ok(())
            }
            TallyColumn::Count(place, counts) => {
                let view = column_at(batch, *place);
                add_each(counts, &EachItem { view: &view }, rows, ids);
                Ok(())
            }
            TallyColumn::Sum(place, totals) => {
                let view = column_at(batch, *place);
                add_sums(totals, &view, rows, ids);
                Ok(())
            }
            TallyColumn::Numbers(end, place, bests) => {
                let (end, place) = (*end, *place);
                let view = column_at(batch, place);
                if let ViewType::Int(ty) = view.ty() {
                    add_best(bests, ty, end, &view, rows, ids);
                    return Ok(());
                }
                let mut items = scalars_of(alloc, bests)?;
                add_items(alloc, &mut items, end, &view, rows, ids)?;
                *self = TallyColumn::Items(end, place, items);
                Ok(())
            }
            TallyColumn::Items(end, place, items) => {
                let view = column_at(batch, *place);
                add_items(alloc, items, *end, &view, rows, ids)
            }
        }
    }

    /// Counts so many rows of the one group, of which nothing else is requested.
    pub fn add_count(&mut self, rows: u64)
        requires { (n : ℕ) × (show_column self.old ≡ rows_column n) × (n + rows ≤ 2 ^ 40) }
        ensures { (n : ℕ) → show_column self.old ≡ rows_column n → show_column self.new ≡ rows_column (n + rows) }
    {
        if let TallyColumn::Rows(counts) = self {
            counts[0] += rows;
        }
    }

    /// Adds rows of a batch to their groups, of which there are so many then.
    pub fn extend(
        &mut self,
        alloc: Global,
        groups: usize,
        batch: &RecordBatch,
        rows: &[usize],
        ids: &[usize],
    ) -> Result<(), NoMemory>
        requires fits { agg_fault (sort_at batch.now.fields) (show_column self.old).agg ≡ None }
        requires lengths { length ids.now ≡ length rows.now }
        requires inside { All (λ n. n < groups) ids.now }
        requires short { length rows.now ≤ 2 ^ 40 }
        requires within { All (λ r. r < batch.now.rows) rows.now }
        requires few { let column = show_column self.old in
            (tables : List Table) × (column ≡ column_of tables column.agg) × (length tables ≤ groups)
            × All (λ t. length t + length rows.now ≤ 2 ^ 40) tables }
        ensures { let column = show_column self.old in
            (tables : List Table) → column ≡ column_of tables column.agg
            → OnOk result (show_column self.new
            ≡ column_of (spread ids.now (map (row_of batch.now.columns) rows.now) (padded groups [] tables)) column.agg) }
    {
        self.grow(groups)?;
        self.add(alloc, batch, rows, ids)
    }

    /// What it tells of a group; none is null.
    pub fn tell(&self, alloc: Global, group: usize) -> Result<Option<Scalar>, NoMemory>
        requires { group < length (show_column self.now).tallies }
        ensures { IfOk result (λ s. item_of_scalar s ≡ cell_of_group group (show_column self.now)) }
    {
        match self {
            TallyColumn::Rows(counts) => Ok(Some(Scalar::Int(i128::from(counts[group])))),
            TallyColumn::Count(_place, counts) => Ok(Some(Scalar::Int(i128::from(counts[group])))),
            TallyColumn::Sum(_place, totals) => Ok(totals[group].sum_if_any().map(Scalar::Int)),
            TallyColumn::Numbers(_end, _place, numbers) => {
                Ok(numbers[group].get().map(Scalar::Int))
            }
            TallyColumn::Items(_end, _place, items) => copied(alloc, &items[group]),
        }
    }
}

/// Adds cells of no rows until there are so many.
fn pad<C: Copy>(cells: &mut Vec<C>, groups: usize, empty: C) -> Result<(), NoMemory>
    requires { length cells.old.items ≤ groups }
    ensures { OnOk result (cells.new.items ≡ padded groups empty cells.old.items) }
{
    make_room(cells, groups);
    cells.resize(groups, empty)?;
    Ok(())
}
