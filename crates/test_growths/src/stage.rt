//! A table with its workers and readers.

use crate::run::{Scene, Stop, given, told};
use crate::tell::Tell;
use arrays::{Field, RecordBatch};
use shared::{Naming, Publish, Reader, Receipt, SharedTable, Shown, Worker};
use std::alloc::{AllocError, Global};
use std::sync::{Arc, Wait};
use std::test::Fail;

/// How many calls there are before the reader looks.
const TURNS: u32 = 4;

/// A call of a table, a worker or a reader.
#[derive(Clone, Copy, PartialEq, Eq)]
pub(crate) enum Call {
    Append,
    Snapshot,
    Compact,
    AddColumn,
    Latest,
    /// Each worker appends, the batches are joined, a column is added, and the reader looks.
    InTurn,
    /// The table is gathered, see [`Gathering`](crate::gathering::Gathering).
    Gather,
}

/// A call with a table, its workers and its readers, a batch that is to be appended, and the field of a column that is to be
/// added.
#[derive(Drop)]
pub(crate) struct Stage<N: Naming, P: Publish<Item = Shown<N>>> {
    pub(crate) call: Call,
    pub(crate) batch: Arc<RecordBatch>,
    pub(crate) field: Field,
    pub(crate) table: SharedTable<N, P>,
    pub(crate) workers: Vec<Worker<N>>,
    pub(crate) readers: Vec<Reader<N>>,
    /// How many of several calls are behind.
    pub(crate) turns: u32,
}

impl<N: Naming, P: Publish<Item = Shown<N>>> Stage<N, P> {
    /// Has the worker at a place append the batch.
    fn append<R: Wait>(&mut self, rt: &R, report: &mut String, place: usize) -> Result<(), Stop> {
        let Some(worker) = self.workers.get_mut(place) else {
            return Err(Stop::Refused);
        };
        given(report, self.table.append(rt, worker, &self.batch))
    }

    /// Has the first worker join the batches, or only look.
    fn compact<R: Wait>(&mut self, rt: &R, report: &mut String, joins: bool) -> Result<(), Stop> {
        let Some(worker) = self.workers.first_mut() else {
            return Err(Stop::Refused);
        };
        if joins {
            given(report, self.table.compact(rt, worker, 100))
        } else {
            given(report, self.table.snapshot(rt, worker))
        }
    }

    /// Has the first worker add a column.
    fn add_column<R: Wait>(
        &mut self,
        rt: &R,
        alloc: Global,
        report: &mut String,
    ) -> Result<(), Stop> {
        let field = self.field.copy(alloc)?;
        match self.workers.first_mut() {
            Some(worker) => told(report, self.table.add_column(rt, worker, field)),
            None => Err(Stop::Refused),
        }
    }

    /// Has the reader look.
    fn latest(&mut self, report: &mut String) -> Result<(), Stop> {
        let Some(reader) = self.readers.first_mut() else {
            return Err(Stop::Refused);
        };
        given(report, reader.latest())
    }

    /// Makes those of several calls that aren't behind yet, and tells what the last gives.
    fn go_on<R: Wait>(&mut self, rt: &R, alloc: Global, report: &mut String) -> Result<(), Stop> {
        for turn in self.turns..TURNS {
            self.take_turn(rt, alloc, report, turn)?;
            self.turns = turn + 1;
        }
        report.clear();
        self.latest(report)
    }

    /// Makes one of those calls.
    fn take_turn<R: Wait>(
        &mut self,
        rt: &R,
        alloc: Global,
        report: &mut String,
        turn: u32,
    ) -> Result<(), Stop> {
        match turn {
            0 => self.append(rt, report, 0),
            1 => self.append(rt, report, 1),
            2 => self.compact(rt, report, true),
            _ => self.add_column(rt, alloc, report),
        }
    }
}

impl<N: Naming> Tell for Receipt<N> {
    fn tell(&self, report: &mut String) -> Result<(), AllocError> {
        let entry = self.entry();
        write!(report, "{entry} ")
    }
}

impl<N: Naming, P: Publish<Item = Shown<N>>, R: Wait> Scene<R> for Stage<N, P> {
    fn call(&mut self, rt: &R, alloc: Global, report: &mut String) -> Result<(), Stop> {
        match self.call {
            Call::Append => self.append(rt, report, 0),
            Call::Snapshot => self.compact(rt, report, false),
            Call::Compact => self.compact(rt, report, true),
            Call::AddColumn => self.add_column(rt, alloc, report),
            Call::Latest => self.latest(report),
            Call::InTurn => self.go_on(rt, alloc, report),
            Call::Gather => Err(Stop::Refused),
        }
    }

    /// Of several calls some may be behind. A version that was taken is kept until there is a newer one, and isn't taken before a
    /// call that takes one.
    fn tell(&mut self, rt: &R, report: &mut String) -> Result<(), Fail> {
        if self.call == Call::InTurn && self.turns < TURNS {
            return Ok(());
        }
        tell_workers(report, &self.workers)?;
        if self.call == Call::Snapshot {
            return Ok(());
        }
        if let Some(worker) = self.workers.last_mut() {
            self.table.snapshot(rt, worker)?.tell(report)?;
        }
        Ok(())
    }
}

/// Tells how much each worker appended.
pub(crate) fn tell_workers<N: Naming>(
    report: &mut String,
    workers: &[Worker<N>],
) -> Result<(), Fail> {
    for worker in workers {
        let (number, calls, rows) = (worker.number(), worker.calls(), worker.rows());
        write!(report, "{number} {calls} {rows} ")?;
    }
    Ok(())
}
