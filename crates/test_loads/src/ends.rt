//! What was answered, and what is there in the end.

use crate::scenes::{Answer, End, Soak};
use arrays::View;
use loads::LoadFault;
use shared::{Naming, Receipt, Version};
use std::alloc::Global;
use std::test::Fail;
use test_samples::shows_numbers;

/// Whether this was answered.
pub(crate) fn is_answer<N: Naming>(
    alloc: Global,
    loaded: &Result<Vec<Receipt<N>>, LoadFault>,
    answer: Answer,
) -> Result<bool, Fail> {
    match (loaded, answer) {
        (Ok(receipts), Answer::Loaded(count, last)) => {
            Ok(receipts.len() == count && last_entry(receipts) == last)
        }
        (Err(fault), Answer::Fault(wanted, text)) => {
            Ok(*fault == wanted && format!(in alloc; "{fault}")?.as_str() == text)
        }
        _ => Ok(false),
    }
}

/// The greatest entry of the receipts.
fn last_entry<N: Naming>(receipts: &[Receipt<N>]) -> u32 {
    let mut last = 0;
    for receipt in receipts {
        last = receipt.entry().max(last);
    }
    last
}

/// Whether a version has the rows of all workers, and the columns that were added.
pub(crate) fn has_all(version: &Version, soak: Soak) -> bool {
    let columns = version.schema().len();
    let rows = u64::from(soak.count).wrapping_mul(u64::from(soak.turns));
    if version.rows() != rows || columns != 1 + soak.columns as usize {
        return false;
    }
    for column in 1..columns {
        if version.stats(column).nulls != rows {
            return false;
        }
    }
    true
}

/// Whether each worker's batches are those, in their order, and nobody appended any other.
pub(crate) fn has_come(alloc: Global, version: &Version, end: &End) -> Result<bool, Fail> {
    let file = version.export(alloc)?;
    let mut entries = 0u32;
    for worker in 0..workers_of(end) {
        let mut turn = 0;
        for (place, batch) in file.batches().iter().enumerate() {
            if !is_of(version, place, worker) {
                continue;
            }
            match batch.columns().first() {
                Some(column) if is_wanted(&column.view(), end, worker, turn) => {}
                _ => return Ok(false),
            }
            turn = turn.wrapping_add(1);
        }
        if turn != batches_of(end, worker) {
            return Ok(false);
        }
        entries = entries.wrapping_add(turn);
    }
    Ok(version.book_len() == entries)
}

/// Whether the entry at the place is the worker's.
fn is_of(version: &Version, place: usize, worker: u32) -> bool {
    match u32::try_from(place) {
        Ok(entry) => entry < version.book_len() && version.book_at(entry).worker == worker,
        Err(_) => false,
    }
}

/// How many workers there are.
fn workers_of(end: &End) -> u32 {
    match end {
        End::Numbers(all) => u32::try_from(all.len()).unwrap_or(0),
        End::Counted(count, _) => *count,
    }
}

/// How many batches a worker appended.
fn batches_of(end: &End, worker: u32) -> u32 {
    match end {
        End::Numbers(all) => match all.get(worker as usize) {
            Some(own) => u32::try_from(own.len()).unwrap_or(0),
            None => 0,
        },
        End::Counted(_, turns) => *turns,
    }
}

/// Whether a view shows what a worker appended at this turn.
fn is_wanted(view: &View<'_>, end: &End, worker: u32, turn: u32) -> bool {
    match end {
        End::Numbers(all) => match all.get(worker as usize) {
            Some(own) => match own.get(turn as usize) {
                Some(numbers) => shows_numbers(view, *numbers),
                None => false,
            },
            None => false,
        },
        End::Counted(_, _) => {
            let number = worker.wrapping_mul(1000).wrapping_add(turn);
            shows_numbers(view, &[Some(i128::from(number))])
        }
    }
}
