//! Tables of many workers and readers, on one thread.

use crate::gathering::Gathering;
use crate::refusals::Refused;
use crate::run::{Due, Ran, run};
use crate::samples::SampleFile;
use crate::stage::{Call, Stage};
use crate::sweep::Trial;
use arrays::{DataType, Field, RecordBatch, Schema};
use shared::{Naming, Publish, Reader, Session, SharedTable, Shown, Worker, with_table};
use std::alloc::Global;
use std::sync::{Arc, Wait};
use std::test::Fail;

/// What is tried, and how many readers there are.
#[derive(Clone, Copy)]
pub(crate) struct Case(Call, u32);

#[rattlefmt::skip]
pub(crate) static CASES: [(&str, Case); 11] = [
    ("SharedTable::append", Case(Call::Append, 1)),
    ("SharedTable::append, no readers", Case(Call::Append, 0)),
    ("SharedTable::snapshot", Case(Call::Snapshot, 1)),
    ("SharedTable::compact", Case(Call::Compact, 1)),
    ("SharedTable::compact, no readers", Case(Call::Compact, 0)),
    ("SharedTable::add_column", Case(Call::AddColumn, 1)),
    ("SharedTable::add_column, no readers", Case(Call::AddColumn, 0)),
    ("Reader::latest", Case(Call::Latest, 1)),
    ("append, compact, add_column and latest in turn", Case(Call::InTurn, 1)),
    ("SharedTable::gather", Case(Call::Gather, 1)),
    ("SharedTable::gather, no readers", Case(Call::Gather, 0)),
];

impl<R: Wait> Trial<R> for Case {
    fn run(&self, rt: &R, alloc: Global, refused: Option<Refused>) -> Result<Ran, Fail> {
        let Case(call, readers) = *self;
        let playing = Playing {
            rt,
            alloc,
            call,
            refused,
            batch: SampleFile::OneMore.first_batch(alloc)?,
            field: Field::nullable(alloc, "added", DataType::Utf8)?,
        };
        with_table(rt, alloc, schema(alloc)?, 2, readers, playing)?
    }
}

/// The schema of a table.
fn schema(alloc: Global) -> Result<Schema, Fail> {
    let file = SampleFile::TwoBatches.read(alloc)?;
    Ok(file.schema().copy(alloc)?)
}

/// A play on a table, with a batch and a field for it.
#[derive(Drop)]
struct Playing<'a, R: Wait> {
    rt: &'a R,
    alloc: Global,
    call: Call,
    refused: Option<Refused>,
    batch: Arc<RecordBatch>,
    field: Field,
}

impl<'a, R: Wait> Session for Playing<'a, R> {
    type Output = Result<Ran, Fail>;

    fn run<N: Naming, P: Publish<Item = Shown<N>>>(
        self,
        table: SharedTable<N, P>,
        workers: Vec<Worker<N>>,
        readers: Vec<Reader<N>>,
    ) -> Result<Ran, Fail> {
        let Playing {
            rt,
            alloc,
            call,
            refused,
            batch,
            field,
        } = self;
        let (mut workers, mut readers) = (workers, readers);
        append_two(rt, alloc, &table, &mut workers, &mut readers)?;
        if call == Call::Gather {
            let mut scene = Gathering {
                table: Some(table),
                workers: Some(workers),
            };
            return run(rt, alloc, &mut scene, Due::Answer, refused);
        }
        let mut scene = Stage {
            call,
            batch,
            field,
            table,
            workers,
            readers,
            turns: 0,
        };
        run(rt, alloc, &mut scene, Due::Answer, refused)
    }
}

/// Has each worker append two batches, and each reader learn of them.
fn append_two<N: Naming, P: Publish<Item = Shown<N>>, R: Wait>(
    rt: &R,
    alloc: Global,
    table: &SharedTable<N, P>,
    workers: &mut [Worker<N>],
    readers: &mut [Reader<N>],
) -> Result<(), Fail> {
    let file = SampleFile::TwoBatches.read(alloc)?;
    for worker in workers.iter_mut() {
        for batch in file.batches() {
            let receipt = table.append(rt, worker, batch)?;
            for reader in readers.iter_mut() {
                reader.learn(&receipt);
            }
        }
    }
    Ok(())
}
