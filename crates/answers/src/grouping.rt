//! The groups of rows, while they come.

ghost use Rattle.std.specs.Prelude.{◌≡◌, ◌<◌, ◌≤◌, ◌+◌, ◌^◌, ◌++◌, [], All, IfOk, List, None, OnOk, ℕ, length, map, true};
ghost use Rattle.arrays.specs.Prelude.{Batch, Kind, Table, row_of};
ghost use Rattle.query.specs.Prelude.{agg_fault, fits, query_shape, sort_at};
ghost use Rattle.tallies.specs.Prelude.{AreAlike, AreComparable, IsColumnOf, column_of, padded, show_column, spread, spread_all, tally_of};
ghost use Rattle.answers.specs.Grouping.{CountsRows, HasGroups, HasGroupRoom, IsReadyFor};

use arrays::{NoMemory, RecordBatch};
use keys::{KeyColumns, KeySet, Memo, TextSet, intern_keys, intern_rows};
use query::{Agg, Query};
use std::alloc::Global;
use tallies::TallyColumn;

/// The groups of the rows so far.
#[derive(Drop)]
pub(crate) struct Grouping<'a> {
    pub(crate) keys: KeySet<'a>,
    pub(crate) memo: Memo,
    /// What each aggregate knows of the rows of each key.
    pub(crate) columns: Vec<TallyColumn>,
    /// The ids of the groups of the rows that are added, kept for the next ones.
    ids: Vec<usize>,
}

impl<'a> Grouping<'a> {
    /// Those of no rows: without columns for keys there is one group.
    pub(crate) fn new(
        alloc: Global,
        query: &Query,
        common: &'a TextSet,
    ) -> Result<Grouping<'a>, NoMemory>
        ensures { IfOk result (HasGroups query.now []) }
    {
        let mut keys = KeySet::new(alloc, common);
        if query.by.is_empty() {
            keys.add_empty()?;
        }
        let columns = new_columns(alloc, query.aggs.as_slice(), keys.len())?;
        Ok(Grouping {
            keys,
            memo: Memo::new(alloc),
            columns,
            ids: Vec::new(alloc),
        })
    }

    /// Has the rows of another batch come next.
    pub(crate) fn begin(&mut self, query: &Query, batch: &RecordBatch) -> Result<(), NoMemory>
        requires { fits batch.now.fields (query_shape query.now) ≡ true }
        ensures kept { (rows : Table) → HasGroups query.now rows self.old → OnOk result (HasGroups query.now rows self.new) }
        ensures ready { (rows : Table) → HasGroups query.now rows self.old → OnOk result (IsReadyFor batch.now query.now self.new) }
    {
        let by = query.by.as_slice();
        self.memo.begin(&KeyColumns { batch, by })
    }

    /// Adds rows of the batch that came last.
    pub(crate) fn add(
        &mut self,
        alloc: Global,
        query: &Query,
        batch: &RecordBatch,
        rows: &[usize],
    ) -> Result<(), NoMemory>
        requires fits { fits batch.now.fields (query_shape query.now) ≡ true }
        requires within { All (λ r. r < batch.now.rows) rows.now }
        requires room { HasGroupRoom query.now (length rows.now) self.old }
        requires ready { IsReadyFor batch.now query.now self.old }
        ensures ready { OnOk result (IsReadyFor batch.now query.now self.new) }
        ensures groups { (rows_before : Table) → HasGroups query.now rows_before self.old
            → OnOk result (HasGroups query.now (rows_before ++ map (row_of batch.now.columns) rows.now) self.new) }
    {
        let by = query.by.as_slice();
        let columns = KeyColumns { batch, by };
        intern_rows(
            &mut self.keys,
            &mut self.memo,
            &mut self.ids,
            &columns,
            rows,
        )?;
        let groups = self.keys.len();
        add_to_columns(alloc, &mut self.columns, groups, batch, rows, &self.ids)
    }

    /// Adds so many rows, where they are only counted, all together.
    pub(crate) fn add_count(&mut self, query: &Query, rows: u64)
        requires alone { CountsRows query.now }
        requires room { HasGroupRoom query.now rows self.old }
        ensures groups { (before more : Table) → length more ≡ rows → HasGroups query.now before self.old
            → HasGroups query.now (before ++ more) self.new }
        ensures ready { (b : Batch) → IsReadyFor b query.now self.old → IsReadyFor b query.now self.new }
    {
        self.columns[0].add_count(rows)
    }

    /// Adds the groups of rows that come behind.
    pub(crate) fn merge(&mut self, alloc: Global, other: Grouping<'a>) -> Result<(), NoMemory>
        requires room { (q : Query) × (kinds : ℕ → Kind) × (rows : Table) × (more : Table) × (length rows + length more ≤ 2 ^ 40)
            × HasGroups q rows self.old × HasGroups q more other
            × All (AreComparable kinds q.aggs.items) rows × All (AreComparable kinds q.aggs.items) more }
        ensures { (q : Query) (kinds : ℕ → Kind) (rows more : Table) → HasGroups q rows self.old → HasGroups q more other.entry
            → All (AreComparable kinds q.aggs.items) rows → All (AreComparable kinds q.aggs.items) more
            → OnOk result (HasGroups q (rows ++ more) self.new) }
    {
        if self.keys.len() == 0 {
            *self = other;
            return Ok(());
        }
        intern_keys(&mut self.keys, &mut self.ids, &other.keys)?;
        let groups = self.keys.len();
        join_columns(alloc, &mut self.columns, groups, &other.columns, &self.ids)
    }
}

/// The columns of the aggregates, of so many groups of no rows.
fn new_columns(
    alloc: Global,
    aggs: &[Agg<u32>],
    groups: usize,
) -> Result<Vec<TallyColumn>, NoMemory>
    ensures { IfOk result (λ v. map show_column v.items
        ≡ map (λ a. record { agg = a; tallies = padded groups (tally_of a []) [] }) aggs.now) }
{
    let mut columns = Vec::with_capacity(alloc, aggs.len())?;
    for agg in aggs {
        let mut column = TallyColumn::new(alloc, *agg);
        column.grow(groups)?;
        columns.push(column)?;
    }
    Ok(columns)
}

/// Adds rows of a batch to each column, which grows to so many groups first.
fn add_to_columns(
    alloc: Global,
    columns: &mut [TallyColumn],
    groups: usize,
    batch: &RecordBatch,
    rows: &[usize],
    ids: &[usize],
) -> Result<(), NoMemory>
    requires fits { All (λ c. agg_fault (sort_at batch.now.fields) (show_column c).agg ≡ None) columns.old }
    requires lengths { length ids.now ≡ length rows.now }
    requires inside { All (λ n. n < groups) ids.now }
    requires short { length rows.now ≤ 2 ^ 40 }
    requires within { All (λ r. r < batch.now.rows) rows.now }
    requires few { (tables : List Table) × All (IsColumnOf tables) columns.old × (length tables ≤ groups)
        × All (λ t. length t + length rows.now ≤ 2 ^ 40) tables }
    ensures { (tables : List Table) → All (IsColumnOf tables) columns.old → OnOk result (map show_column columns.new
        ≡ map (λ c. column_of (spread ids.now (map (row_of batch.now.columns) rows.now) (padded groups [] tables)) (show_column c).agg)
        columns.old) }
{
    for i in 0..columns.len() {
        columns[i].extend(alloc, groups, batch, rows, ids)?;
    }
    Ok(())
}

/// Adds the columns of the rows behind, beside which the ids of their groups stand. There are so many groups then.
fn join_columns(
    alloc: Global,
    columns: &mut [TallyColumn],
    groups: usize,
    others: &[TallyColumn],
    ids: &[usize],
) -> Result<(), NoMemory>
    requires same { map (λ c. (show_column c).agg) others.now ≡ map (λ c. (show_column c).agg) columns.old }
    requires inside { All (λ n. n < groups) ids.now }
    requires few { (kinds : ℕ → Kind) × (tables : List Table) × (more : List Table)
        × All (IsColumnOf tables) columns.old × All (IsColumnOf more) others.now
        × All (λ c. AreAlike kinds tables (show_column c).agg) columns.old × All (λ c. AreAlike kinds more (show_column c).agg) columns.old
        × (length tables ≤ groups) × (length more ≡ length ids.now)
        × All (λ t. length t ≤ 2 ^ 40) (spread_all ids.now more (padded groups [] tables)) }
    ensures { (kinds : ℕ → Kind) (tables more : List Table)
        → All (IsColumnOf tables) columns.old → All (IsColumnOf more) others.now
        → All (λ c. AreAlike kinds tables (show_column c).agg) columns.old → All (λ c. AreAlike kinds more (show_column c).agg) columns.old
        → OnOk result (map show_column columns.new
        ≡ map (λ c. column_of (spread_all ids.now more (padded groups [] tables)) (show_column c).agg) columns.old) }
{
    for i in 0..columns.len() {
        columns[i].join(alloc, groups, &others[i], ids)?;
    }
    Ok(())
}
