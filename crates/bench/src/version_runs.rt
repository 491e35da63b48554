//! `bench versions BATCHES JOINED TIMES` admits so many batches of one row to a table, joins neighbours of up to so many rows
//! together, and takes a version so many times, as each append beside a reader does once. It prints how many batches the last
//! version has, and how many entries its book.
//!
//! `bench arcs COUNT TIMES` copies a list of so many batches, each in an `Arc`, so many times: the least that a version of as many
//! batches takes. It prints how many the last one has.

use crate::fault::Fault;
use crate::number;
use crate::table_runs::batch_at;
use arrays::RecordBatch;
use std::alloc::Global;
use std::sync::Arc;
use table::{TableState, Version};

/// Runs what the words ask for: versions.
pub(crate) fn run(rt: &HostRuntime, words: &[String]) -> Result<(), Fault> {
    tell(rt, number(words, 0)?, number(words, 1)?, number(words, 2)?)
}

/// Takes versions, and prints what the last one has.
pub(crate) fn tell(rt: &HostRuntime, batches: u32, joined: u32, times: u32) -> Result<(), Fault> {
    let Some(version) = last_version(rt.alloc(), batches, joined, times) else {
        return Err(Fault::Memory);
    };
    println!(rt; "{} {}", version.batches().len(), version.book_len()).or(Err(Fault::Output))
}

// The last of so many versions.
fn last_version(alloc: Global, batches: u32, joined: u32, times: u32) -> Option<Arc<Version>> {
    let next = batch_at(alloc, 0, 1, 0, 0)?;
    let mut table = TableState::new(alloc, next.schema().copy(alloc).ok()?).ok()?;
    admit(&mut table, &next, batches)?;
    table.compact(joined).ok()?;
    let mut version = table.version().ok()?;
    for _time in 1..times {
        version = table.version().ok()?;
    }
    Some(version)
}

// Admits a batch so many times.
fn admit(table: &mut TableState, batch: &RecordBatch, times: u32) -> Option<()> {
    for _time in 0..times {
        table.admit(0, batch).ok()?;
    }
    Some(())
}

/// Runs what the words ask for: copies of lists.
pub(crate) fn copy_arcs(rt: &HostRuntime, words: &[String]) -> Result<(), Fault> {
    let Some(count) = copied(rt.alloc(), number(words, 0)?, number(words, 1)?) else {
        return Err(Fault::Memory);
    };
    println!(rt; "{count}").or(Err(Fault::Output))
}

// How many `Arc`s the last of so many copies of a list has.
fn copied(alloc: Global, count: u32, times: u32) -> Option<usize> {
    let list = arcs(alloc, count)?;
    let mut last = Vec::new(alloc);
    for _time in 0..times {
        last = list.clone().ok()?;
    }
    Some(last.len())
}

// So many batches of one row.
fn arcs(alloc: Global, count: u32) -> Option<Vec<Arc<RecordBatch>>> {
    let mut list = Vec::with_capacity(alloc, count as usize).ok()?;
    for place in 0..count {
        let batch = batch_at(alloc, place, 1, 0, 0)?;
        list.push(Arc::new(alloc, batch).ok()?).ok()?;
    }
    Some(list)
}
