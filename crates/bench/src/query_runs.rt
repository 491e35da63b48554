//! `bench query QUERY BATCHES ROWS TIMES PIECES` fills a table with so many batches of so many rows, each with texts `k` of which
//! 1,000 differ, numbers `g` of which 100,000 differ, and numbers `v`. It answers the query, whose JSON text QUERY is, so many
//! times in so many pieces, and prints of each answer how many groups it has, and the numbers of their cells added up.

ghost use Rattle.std.specs.Prelude.{◌≡◌, ◌≤◌, true};
ghost use Rattle.table.specs.Prelude.{fits, query_shape};

use crate::fault::Fault;
use crate::making::{Nulls, Rule, batch, digits, longs, shorts};
use crate::{number, word};
use arrays::{DataType, INT32, RecordBatch};
use arrow_json::read_query;
use std::alloc::Global;
use std::sync::Arc;
use std::thread::Threads;
use table::{Answer, OpenGate, Query, Scalar, TableState, Version, resolve};

/// A query of the table.
pub(crate) const SUM_BY_TEXT: &str =
    "{\"by\":[\"k\"],\"aggs\":[{\"agg\":\"sum\",\"column\":\"v\"}]}";

/// Runs what the words ask for.
pub(crate) fn run<T: Threads + Sync>(
    threads: &T,
    rt: &HostRuntime,
    words: &[String],
) -> Result<(), Fault> {
    let shape = (number(words, 1)?, number(words, 2)?);
    let often = (number(words, 3)?, number(words, 4)?);
    tell(threads, rt, word(words, 0)?, shape, often)
}

/// Fills a table with so many batches of so many rows, and prints what the query answers, so many times in so many pieces.
pub(crate) fn tell<T: Threads + Sync>(
    threads: &T,
    rt: &HostRuntime,
    query: &str,
    (batches, rows): (u32, u32),
    (times, pieces): (u32, u32),
) -> Result<(), Fault> {
    let Some(filled) = filled(rt.alloc(), batches, rows) else {
        return Err(Fault::Memory);
    };
    let version = &*filled;
    let Ok(text) = read_query(rt.alloc(), query.as_bytes()) else {
        return Err(Fault::NoQuery);
    };
    let Ok(query) = resolve(rt.alloc(), &text, version.schema()) else {
        return Err(Fault::NoQuery);
    };
    if !(1..=64).contains(&pieces) {
        return Err(Fault::Arguments);
    }
    if !query.fits(version.schema()) {
        return Err(Fault::NoQuery);
    }
    tell_each(threads, rt, version, &query, times, pieces)
}

// Prints what the query answers each time, as soon as it does.
fn tell_each<T: Threads + Sync>(
    threads: &T,
    rt: &HostRuntime,
    version: &Version,
    query: &Query,
    times: u32,
    pieces: u32,
) -> Result<(), Fault>
    requires fits { fits version.now.fields (query_shape query.now) ≡ true }
    requires one { 1 ≤ pieces }
    requires most { pieces ≤ 64 }
{
    for _ in 0..times {
        let Ok(answer) = version.answer(threads, rt.alloc(), query, pieces, &OpenGate) else {
            return Err(Fault::NoAnswer);
        };
        let (groups, sum) = (answer.groups.len(), sum_of(&answer));
        if println!(rt; "{groups} {sum}").is_err() {
            return Err(Fault::Output);
        }
    }
    Ok(())
}

// The numbers of all cells, added up.
fn sum_of(answer: &Answer) -> i128 {
    let mut sum: i128 = 0;
    for group in &answer.groups {
        for cell in &group.cells {
            if let Some(Scalar::Int(number)) = cell {
                sum = sum.wrapping_add(*number);
            }
        }
    }
    sum
}

// A table of so many batches of so many rows; none where memory ran out.
fn filled(alloc: Global, batches: u32, rows: u32) -> Option<Arc<Version>> {
    let fields = batch_from(alloc, 0, 0)?.schema().copy(alloc).ok()?;
    let mut table = TableState::new(alloc, fields).ok()?;
    for place in 0..batches {
        let batch = batch_from(alloc, place.wrapping_mul(rows), rows)?;
        table.admit(0, &batch).ok()?;
    }
    table.version().ok()
}

// The batch whose first row has this number.
fn batch_from(alloc: Global, first: u32, rows: u32) -> Option<RecordBatch> {
    let (k, g) = (
        Rule::Spread(first.wrapping_add(1), 1000),
        Rule::Spread(first.wrapping_add(2), 100_000),
    );
    let v = Rule::Spread(first.wrapping_add(3), 1 << 31);
    let columns = vec![in alloc;
        digits(alloc, rows, Nulls::Sparse(1), k)?,
        shorts(alloc, DataType::Int(INT32), rows, Nulls::Sparse(2), g)?,
        longs(alloc, rows, Nulls::Sparse(3), v)?,
    ]
    .ok()?;
    batch(alloc, &["k", "g", "v"], rows, columns)
}
