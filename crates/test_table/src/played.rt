//! Scenes on a table with workers and readers.

use crate::facts::{Facts, shows_all};
use crate::scenes::{End, Place, Step, field_of};
use arrays::{NoMemory, RecordBatch};
use shared::{
    GatherCause, GatherFault, Naming, OpenFault, Publish, Reader, Receipt, Refusal, Session,
    SharedTable, Shown, Version, Worker, with_table,
};
use std::alloc::Global;
use std::sync::{Arc, Wait};
use std::test::Fail;
use test_samples::{Batch, batch_of, fields_of};

/// The first step of a scene that doesn't come out as it must: that behind the last is its end.
pub(crate) fn play<R: Wait>(rt: &R, alloc: Global, place: Place) -> Result<Option<usize>, Fail> {
    let Some(scene) = place.scene() else {
        return Ok(Some(0));
    };
    let schema = fields_of(alloc, scene.fields)?;
    let playing = Playing { rt, alloc, place };
    match with_table(rt, alloc, schema, scene.workers, scene.readers, playing) {
        Ok(first) => first,
        Err(fault) => Ok(unless_unopened(fault, place)),
    }
}

/// A scene that is played on its table.
#[derive(Drop)]
struct Playing<'a, R: Wait> {
    rt: &'a R,
    alloc: Global,
    place: Place,
}

impl<'a, R: Wait> Session for Playing<'a, R> {
    type Output = Result<Option<usize>, Fail>;

    fn run<N: Naming, P: Publish<Item = Shown<N>>>(
        self,
        table: SharedTable<N, P>,
        workers: Vec<Worker<N>>,
        readers: Vec<Reader<N>>,
    ) -> Result<Option<usize>, Fail> {
        play_on(self.rt, self.alloc, table, workers, readers, self.place)
    }
}

/// The end as the first step, unless it is that no table is opened for this reason.
fn unless_unopened(fault: OpenFault, place: Place) -> Option<usize> {
    let is_wanted = match place.scene() {
        Some(scene) => matches!(scene.end, End::Unopened(wanted) if wanted == fault),
        None => false,
    };
    if is_wanted { None } else { Some(0) }
}

/// Plays a scene on its table.
fn play_on<N: Naming, P: Publish<Item = Shown<N>>, R: Wait>(
    rt: &R,
    alloc: Global,
    table: SharedTable<N, P>,
    workers: Vec<Worker<N>>,
    readers: Vec<Reader<N>>,
    place: Place,
) -> Result<Option<usize>, Fail> {
    let Some(scene) = place.scene() else {
        return Ok(Some(0));
    };
    let (mut workers, mut readers) = (workers, readers);
    let on = On {
        rt,
        alloc,
        table: &table,
    };
    if let Some(place) = on.play(&mut workers, &mut readers, scene.steps)? {
        return Ok(Some(place));
    }
    if ends(rt, alloc, table, workers, &scene.end) && have_ended(&mut readers) {
        Ok(None)
    } else {
        Ok(Some(scene.steps.len()))
    }
}

/// Whether a scene ends as it must.
fn ends<N: Naming, P: Publish<Item = Shown<N>>, R: Wait>(
    rt: &R,
    alloc: Global,
    table: SharedTable<N, P>,
    workers: Vec<Worker<N>>,
    end: &End,
) -> bool {
    match end {
        End::Unopened(_) => false,
        End::Closed => {
            table.close(rt);
            true
        }
        End::Gathered(facts) => match gathered(rt, table, workers) {
            Some(version) => shows_all(alloc, &*version, *facts),
            None => false,
        },
    }
}

/// What is gathered with all workers. Without those behind the first nothing is.
fn gathered<N: Naming, P: Publish<Item = Shown<N>>, R: Wait>(
    rt: &R,
    table: SharedTable<N, P>,
    workers: Vec<Worker<N>>,
) -> Option<Arc<Version>> {
    let mut workers = workers;
    if workers.len() < 2 {
        return Some(table.gather(rt, workers).ok()?.version);
    }
    let mut others = workers.split_off(1).ok()?;
    let GatherFault {
        cause,
        table,
        mut workers,
    } = table.gather(rt, workers).err()?;
    if cause != (GatherCause::WorkerMissing { number: 1 }) {
        return None;
    }
    workers.append(&mut others).ok()?;
    Some(table.gather(rt, workers).ok()?.version)
}

/// Whether readers are told that the table has ended.
fn have_ended<N: Naming>(readers: &mut [Reader<N>]) -> bool {
    for reader in readers {
        if reader.latest().err() != Some(NoMemory) {
            return false;
        }
    }
    true
}

/// A table that steps are played on.
#[derive(Drop)]
struct On<'a, N: Naming, P: Publish<Item = Shown<N>>, R: Wait> {
    rt: &'a R,
    alloc: Global,
    table: &'a SharedTable<N, P>,
}

/// What was given out: receipts, and versions with what they show.
#[derive(Drop)]
struct Given<N: Naming> {
    receipts: Vec<Receipt<N>>,
    versions: Vec<(Arc<Version>, Facts)>,
}

impl<'a, N: Naming, P: Publish<Item = Shown<N>>, R: Wait> On<'a, N, P, R> {
    /// The first step that doesn't come out as it must: that behind the last, where a version that was given out has changed.
    fn play(
        &self,
        workers: &mut [Worker<N>],
        readers: &mut [Reader<N>],
        steps: &[Step],
    ) -> Result<Option<usize>, Fail> {
        let mut given = Given {
            receipts: Vec::new(self.alloc),
            versions: Vec::new(self.alloc),
        };
        for (place, step) in steps.iter().enumerate() {
            if !self.comes_out(workers, readers, &mut given, step)? {
                return Ok(Some(place));
            }
        }
        for (version, facts) in given.versions.iter() {
            if !shows_all(self.alloc, version, *facts) {
                return Ok(Some(steps.len()));
            }
        }
        Ok(None)
    }

    /// Whether a step comes out as it must.
    fn comes_out(
        &self,
        workers: &mut [Worker<N>],
        readers: &mut [Reader<N>],
        given: &mut Given<N>,
        step: &Step,
    ) -> Result<bool, Fail> {
        match step {
            Step::Turns(batches) => self.by_turns(workers, *batches, given),
            Step::Each(batch, rows) => self.each(workers, readers, *batch, *rows),
            Step::Append(number, _, _) | Step::Add(number, _, _) | Step::Owns(number, _, _) => {
                match workers.get_mut(*number as usize) {
                    Some(worker) => self.works(worker, given, step),
                    None => Ok(false),
                }
            }
            Step::Learn(number, receipt) => Ok(learns(readers, *number, given, *receipt)),
            Step::Join(_, _, facts) | Step::Look(_, facts) | Step::Latest(_, facts) => {
                let Some(version) = self.seen(workers, readers, step) else {
                    return Ok(false);
                };
                let is_right = shows_all(self.alloc, &*version, *facts);
                given.versions.push((version, *facts))?;
                Ok(is_right)
            }
        }
    }

    /// Whether what a worker does comes out so.
    fn works(
        &self,
        worker: &mut Worker<N>,
        given: &mut Given<N>,
        step: &Step,
    ) -> Result<bool, Fail> {
        match step {
            Step::Append(_, batch, answer) => {
                Ok(self.append(worker, &batch_of(self.alloc, *batch)?, given)? == *answer)
            }
            Step::Add(_, column, answer) => {
                let field = field_of(self.alloc, *column)?;
                Ok(self.table.add_column(self.rt, worker, field) == *answer)
            }
            Step::Owns(number, calls, rows) => Ok(
                worker.number() == *number && worker.calls() == *calls && worker.rows() == *rows,
            ),
            _ => Ok(false),
        }
    }

    /// The version that is seen by a step.
    fn seen(
        &self,
        workers: &mut [Worker<N>],
        readers: &mut [Reader<N>],
        step: &Step,
    ) -> Option<Arc<Version>> {
        match step {
            Step::Join(number, max_rows, _) => {
                let worker = workers.get_mut(*number as usize)?;
                self.table.compact(self.rt, worker, *max_rows).ok()
            }
            Step::Look(number, _) => {
                let worker = workers.get_mut(*number as usize)?;
                self.table.snapshot(self.rt, worker).ok()
            }
            Step::Latest(number, _) => readers.get_mut(*number as usize)?.latest().ok(),
            _ => None,
        }
    }

    /// What a worker is answered that appends a batch. A receipt is kept.
    fn append(
        &self,
        worker: &mut Worker<N>,
        batch: &RecordBatch,
        given: &mut Given<N>,
    ) -> Result<Result<u32, Refusal>, Fail> {
        match self.table.append(self.rt, worker, batch) {
            Ok(receipt) => {
                let entry = receipt.entry();
                given.receipts.push(receipt)?;
                Ok(Ok(entry))
            }
            Err(refusal) => Ok(Err(refusal)),
        }
    }

    /// Whether the workers append these batches, by turns.
    fn by_turns(
        &self,
        workers: &mut [Worker<N>],
        batches: &[Batch],
        given: &mut Given<N>,
    ) -> Result<bool, Fail> {
        let count = workers.len();
        for (place, batch) in batches.iter().enumerate() {
            let turn = place.checked_rem(count).unwrap_or(0);
            let Some(worker) = workers.get_mut(turn) else {
                return Ok(false);
            };
            let batch = batch_of(self.alloc, *batch)?;
            if self.append(worker, &batch, given)?.is_err() {
                return Ok(false);
            }
        }
        Ok(true)
    }

    /// Whether each worker appends a batch, and each reader then sees so many rows.
    fn each(
        &self,
        workers: &mut [Worker<N>],
        readers: &mut [Reader<N>],
        batch: Batch,
        rows: u64,
    ) -> Result<bool, Fail> {
        let batch = batch_of(self.alloc, batch)?;
        for (worker, reader) in workers.iter_mut().zip(readers.iter_mut()) {
            reader.learn(&self.table.append(self.rt, worker, &batch)?);
        }
        for reader in readers {
            if reader.latest()?.rows() != rows {
                return Ok(false);
            }
        }
        Ok(true)
    }
}

/// Whether there are such a reader and such a receipt, of which it then knows.
fn learns<N: Naming>(
    readers: &mut [Reader<N>],
    number: u32,
    given: &Given<N>,
    receipt: usize,
) -> bool {
    let Some(reader) = readers.get_mut(number as usize) else {
        return false;
    };
    match given.receipts.get(receipt) {
        Some(receipt) => {
            reader.learn(receipt);
            true
        }
        None => false,
    }
}
