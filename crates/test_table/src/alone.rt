//! Scenes on a table of one thread. What readers and workers see is its version there.

use crate::facts::{Facts, shows_all};
use crate::scenes::{Place, Step, field_of};
use shared::TableState;
use std::alloc::Global;
use std::test::Fail;
use test_samples::{Batch, batch_of, fields_of};

/// The first step of a scene that doesn't come out as it must.
pub(crate) fn play_alone(alloc: Global, place: Place) -> Result<Option<usize>, Fail> {
    let Some(scene) = place.scene() else {
        return Ok(Some(0));
    };
    let mut table = TableState::new(alloc, fields_of(alloc, scene.fields)?)?;
    for (place, step) in scene.steps.iter().enumerate() {
        if !comes_out(alloc, &mut table, scene.workers, step)? {
            return Ok(Some(place));
        }
    }
    Ok(None)
}

/// Whether a step comes out as it must.
fn comes_out(
    alloc: Global,
    table: &mut TableState,
    workers: u32,
    step: &Step,
) -> Result<bool, Fail> {
    match step {
        Step::Append(worker, batch, answer) => {
            Ok(table.admit(*worker, &batch_of(alloc, *batch)?) == *answer)
        }
        Step::Turns(batches) => admits_all(alloc, table, workers, *batches),
        Step::Join(_, max_rows, facts) => {
            Ok(table.compact(*max_rows).is_ok() && is_seen(alloc, table, *facts))
        }
        Step::Add(_, column, answer) => {
            Ok(table.add_column(field_of(alloc, *column)?) == *answer)
        }
        Step::Look(_, facts) | Step::Latest(_, facts) => Ok(is_seen(alloc, table, *facts)),
        Step::Each(_, _) | Step::Learn(_, _) | Step::Owns(_, _, _) => Ok(true),
    }
}

/// Whether the workers' batches are admitted, by turns.
fn admits_all(
    alloc: Global,
    table: &mut TableState,
    workers: u32,
    batches: &[Batch],
) -> Result<bool, Fail> {
    for (place, batch) in batches.iter().enumerate() {
        let turn = u32::try_from(place).unwrap_or(0);
        let worker = turn.checked_rem(workers).unwrap_or(0);
        if table.admit(worker, &batch_of(alloc, *batch)?).is_err() {
            return Ok(false);
        }
    }
    Ok(true)
}

/// Whether the table's version shows this, and a copy of it too.
fn is_seen(alloc: Global, table: &TableState, facts: Facts) -> bool {
    let Ok(version) = table.version() else {
        return false;
    };
    match version.share() {
        Ok(copy) => shows_all(alloc, &*version, facts) && shows_all(alloc, &copy, facts),
        Err(_) => false,
    }
}
