//! The rows of a batch, one slice after the other.

ghost use Rattle.std.specs.Prelude.{◌≡◌, ◌+◌, ◌<◌, ◌≤◌, ◌^◌, ◌++◌, IfErr, IfOk, None, OnOk, true};
ghost use Rattle.arrays.specs.Batch.{Table};
ghost use Rattle.query.specs.Prelude.{fits, query_shape};
ghost use Rattle.answers.specs.Grouping.{CountsRows, IsReadyFor};
ghost use Rattle.answers.specs.Runs.{AreSound, HasKept, HasRowRoom, StopsAt, rows_in};

use crate::filter::{count_rows, filter_values, keep_rows};
use crate::grouping::Grouping;
use crate::scan::Scan;
use arrays::RecordBatch;
use crews::Gate;
use evaluate::slice::Slice;
use evaluate::stop::Stop;
use query::{Agg, Query};
use std::alloc::Global;

/// After how many rows a thread lets others go first. No more are looked at together.
const TURN: usize = 16384;

/// Of so many groups what is known stays in the processor's caches while others have their turn.
const FEW_GROUPS: usize = 4096;

/// How many rows are looked at together where there is no filter.
const SLICE: usize = 2048;

/// Adds those of so many rows of a batch from the start on that the query's filter keeps, or tells the least of them where the
/// filter is bad, counted from the start.
pub(crate) fn add_part<G: Gate>(
    scan: &Scan<'_, '_, G>,
    grouping: &mut Grouping<'_>,
    batch: &RecordBatch,
    start: usize,
    rows: usize,
    kept: &mut Vec<usize>,
) -> Result<(), Stop>
    requires fits { fits batch.now.fields (query_shape scan.now.query.now) ≡ true }
    requires within { start + rows ≤ batch.now.rows }
    requires short { start + rows < 2 ^ 32 }
    requires room { HasRowRoom batch.now.fields scan.now.query.now rows grouping.old }
    ensures ok { (before : Table) → HasKept batch.now.fields scan.now.query.now before grouping.old
        → OnOk result (HasKept batch.now.fields scan.now.query.now (before ++ rows_in batch.now start rows) grouping.new) }
    ensures sound { IfOk result (λ done. AreSound batch.now start rows (query_shape scan.now.query.now).filter) }
    ensures err { IfErr result (StopsAt batch.now start rows (query_shape scan.now.query.now).filter) }
{
    let query = scan.query;
    if rows == 0 {
        return Ok(());
    }
    if counts_all(query) {
        grouping.add_count(query, rows as u64);
        return Ok(());
    }
    grouping.begin(query, batch)?;
    let most = most_rows(query);
    let mut at: usize = 0;
    while at < rows {
        let len = most.min(rows - at);
        let slice = Slice {
            batch,
            start: start + at,
            len,
        };
        match add_slice(scan.alloc, grouping, query, slice, kept) {
            Ok(()) => at += len,
            Err(Stop::Bad(row)) => return Err(Stop::Bad(at + row)),
            Err(Stop::NoMemory) => return Err(Stop::NoMemory),
        }
        let more = at < rows && at.is_multiple_of(TURN) && grouping.keys.len() <= FEW_GROUPS;
        take_turns(scan.gate, more);
    }
    Ok(())
}

/// Lets others go first where there is more to do, so that of more threads than processors all end at about the same time.
fn take_turns<G: Gate>(gate: &G, more: bool) {
    if more {
        gate.turn();
    }
}

/// The most rows that are looked at together, so that what is known of them stays in the processor's caches, for batches of any size. A
/// filter makes columns of them, which take longer to begin.
fn most_rows(query: &Query) -> usize
    ensures some { 0 < result }
    ensures few { result ≤ 2 ^ 14 }
{
    if query.filter.is_some() { TURN } else { SLICE }
}

/// Adds the rows of a slice that the query's filter keeps; their places are kept in between, unless they are only counted.
fn add_slice(
    alloc: Global,
    grouping: &mut Grouping<'_>,
    query: &Query,
    slice: Slice<'_>,
    kept: &mut Vec<usize>,
) -> Result<(), Stop>
    requires fits { fits slice.batch.now.fields (query_shape query.now) ≡ true }
    requires short { slice.start + slice.len < 2 ^ 40 }
    requires room { HasRowRoom slice.batch.now.fields query.now slice.len grouping.old }
    requires ready { IsReadyFor slice.batch.now query.now grouping.old }
    ensures ready { OnOk result (IsReadyFor slice.entry.batch.now query.now grouping.new) }
    ensures ok { let b = slice.entry.batch.now in
        (rows : Table) → HasKept b.fields query.now rows grouping.old
        → OnOk result (HasKept b.fields query.now (rows ++ rows_in b slice.entry.start slice.entry.len) grouping.new) }
    ensures sound { IfOk result (λ done. AreSound slice.entry.batch.now slice.entry.start slice.entry.len (query_shape query.now).filter) }
    ensures err { IfErr result (StopsAt slice.entry.batch.now slice.entry.start slice.entry.len (query_shape query.now).filter) }
{
    let values = filter_values(alloc, query, slice)?;
    if counts_rows(query) {
        grouping.add_count(query, count_rows(&values, slice.len) as u64);
        return Ok(());
    }
    keep_rows(kept, &values, slice.start, slice.len)?;
    grouping.add(alloc, query, slice.batch, kept)?;
    Ok(())
}

/// Whether the query only asks how many rows there are, whatever stands in them.
fn counts_all(query: &Query) -> bool
    ensures { result ≡ true → CountsRows query.now × ((query_shape query.now).filter ≡ None) }
{
    query.filter.is_none() && counts_rows(query)
}

/// Whether the query only asks how many rows are kept.
fn counts_rows(query: &Query) -> bool
    ensures { result ≡ true → CountsRows query.now }
{
    query.by.is_empty() && query.aggs.len() == 1 && query.aggs[0] == Agg::Rows
}
