//! What one worker does.

ghost use Rattle.std.specs.Prelude.{◌≡◌, ◌<◌, ◌≤◌, IfErr, OnErr, OnOk, Some, map, slice_get, take};
ghost use Rattle.std.specs.Arc.{arc_value};
ghost use Rattle.arrays.specs.Batch.{Batch};
ghost use Rattle.loads.specs.Loaded.{HasAppended, HasLast, IsRun, Loaded, StandsFor, batches_of_files, outcome_of, seen_since};
ghost use Rattle.shared.specs.Hand.{calls_of_hand};

use crate::appending::Append;
use arrays::{File, RecordBatch};
use shared::{Naming, Outcome, Receipt, Refusal, Worker};
use std::sync::Arc;

/// Appends the files of a place of so many, and leaves with the worker how far it came.
pub(crate) fn work<N: Naming, A: Append<N>>(
    table: &A,
    files: &[File],
    count: usize,
    place: usize,
    worker: &mut Worker<N>,
)
    requires { place < count }
    ensures { IsRun (batches_of_files files.now) count place worker.old worker.new (outcome_of worker.new) }
{
    let outcome = add_files(table, files, count, place, worker);
    worker.leave(outcome);
}

/// Appends the files of a place of so many, in order, up to the first refusal, and answers how far it came.
fn add_files<N: Naming, A: Append<N>>(
    table: &A,
    files: &[File],
    count: usize,
    place: usize,
    worker: &mut Worker<N>,
) -> Outcome<N>
    requires { place < count }
    ensures { IsRun (batches_of_files files.now) count place worker.old worker.new result }
{
    let first = worker.calls();
    let mut last = None;
    for (number, file) in files.iter().enumerate() {
        if number % count != place {
            continue;
        }
        let added = add_batches(table, file.batches(), place, first, worker, &mut last);
        if let Err((batch, refusal)) = added {
            return Outcome::new(last, Some((number, batch, refusal)));
        }
    }
    worker.tell();
    Outcome::new(last, None)
}

/// Appends batches, in order, up to the first refusal, and answers at which of them that was. The worker had `first` calls when
/// it began with its files.
fn add_batches<N: Naming, A: Append<N>>(
    table: &A,
    batches: &[Arc<RecordBatch>],
    place: usize,
    first: u32,
    worker: &mut Worker<N>,
    last: &mut Option<Receipt<N>>,
) -> Result<(), (usize, Refusal)>
    requires first { first ≤ calls_of_hand worker.old }
    requires last { last.old ≡ seen_since first worker.old }
    ensures appended { OnOk result (HasAppended (map arc_value batches.now) worker.old worker.new) }
    ensures loaded { IfErr result (λ s. Loaded (take s.0 (map arc_value batches.now)) worker.old worker.new) }
    ensures stopped { IfErr result (λ s. (b : Batch) × (slice_get (map arc_value batches.now) s.0 ≡ Some b) × StandsFor worker.new.seen b s.1) }
    ensures first { first ≤ calls_of_hand worker.new }
    ensures newest { OnOk result (last.new ≡ seen_since first worker.new) }
    ensures last { OnErr result (HasLast first worker.new last.new) }
{
    for (number, batch) in batches.iter().enumerate() {
        match table.append(place, worker.calls() - first, worker, batch) {
            Ok(receipt) => *last = Some(receipt),
            Err(refusal) => return Err((number, refusal)),
        }
    }
    Ok(())
}
