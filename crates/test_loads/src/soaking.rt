//! Workers that append for long while one joins what they append or adds columns, and readers who look on.

use crate::hands::{Hand, work_at_once};
use crate::scenes::Soak;
use arrays::{Array, DataType, Field, IntBuilder, RecordBatch, Schema};
use loads::Task;
use shared::{Naming, Publish, Reader, Receipt, Refusal, SharedTable, Shown, Version, Worker};
use std::alloc::Global;
use std::sync::atomic::{AtomicBool, Ordering};
use std::sync::{Arc, Mutex, Wait};
use std::thread::{Threads, yield_now};
use test_samples::INT64;

/// How many batches of the first worker lie between a column and the next.
const APART: u32 = 20;

/// How many rows the batches have at most that are joined.
const MOST_ROWS: u32 = 64;

/// Each worker appends so many batches, or joins them as often, and each reader looks as often.
#[derive(Drop)]
pub(crate) struct Soaking<'a, N: Naming, P: Publish<Item = Shown<N>>, W: Wait> {
    wait: &'a W,
    alloc: Global,
    table: &'a SharedTable<N, P>,
    count: usize,
    turns: u32,
    columns: u32,
    /// The receipt that a worker published last.
    reported: Mutex<Option<Receipt<N>>>,
    /// A batch was refused, batches couldn't be joined, or somebody missed what was there before.
    is_wrong: AtomicBool,
}

impl<'a, N: Naming, P: Publish<Item = Shown<N>>, W: Wait> Task<Hand<N>> for Soaking<'a, N, P, W> {
    ghost count = { λ s. s.count };

    ghost does = { λ _ _ _ _. Unit };

    fn work(&self, _place: usize, hand: &mut Hand<N>) {
        let is_right = match hand {
            Hand::Appends(worker) => self.append(worker).is_some(),
            Hand::Joins(worker) => self.join(worker).is_some(),
            Hand::Reads(reader) => self.read(reader).is_some(),
        };
        if !is_right {
            self.is_wrong.store(true, Ordering::SeqCst);
        }
    }
}

impl<'a, N: Naming, P: Publish<Item = Shown<N>>, W: Wait> Soaking<'a, N, P, W> {
    /// Appends numbers from a thousand times the worker's own on, where nothing stands against it. The first adds columns.
    fn append(&self, worker: &mut Worker<N>) -> Option<()> {
        let mut schema = self.fields_of(worker)?;
        for turn in 0..self.turns {
            if worker.number() == 0 && turn % APART == 0 && turn / APART < self.columns {
                let added = field_of(self.alloc, "m")?;
                self.table.add_column(self.wait, worker, added).ok()?;
            }
            let number = worker.number().wrapping_mul(1000).wrapping_add(turn);
            self.append_one(worker, &mut schema, number)?;
            yield_now();
        }
        Some(())
    }

    /// Appends a batch of the fields that the worker knows. Where columns were added behind them, it gets to know these first.
    fn append_one(&self, worker: &mut Worker<N>, schema: &mut Schema, number: u32) -> Option<()> {
        for _time in 0..=self.columns {
            let batch = batch_of(self.alloc, schema, number)?;
            match self.table.append(self.wait, worker, &batch) {
                Ok(receipt) => {
                    *self.reported.lock(self.wait) = Some(receipt);
                    return Some(());
                }
                Err(Refusal::SchemaDiffers { column }) if column == schema.len() => {
                    *schema = self.fields_of(worker)?;
                }
                Err(_) => return None,
            }
        }
        None
    }

    /// The fields of the table as the worker sees it.
    fn fields_of(&self, worker: &mut Worker<N>) -> Option<Schema> {
        let version = self.table.snapshot(self.wait, worker).ok()?;
        version.schema().copy(self.alloc).ok()
    }

    /// Joins batches, where no row is lost by that.
    fn join(&self, worker: &mut Worker<N>) -> Option<()> {
        let mut rows = 0;
        for _turn in 0..self.turns {
            let version = self.table.compact(self.wait, worker, MOST_ROWS).ok()?;
            if version.rows() < rows {
                return None;
            }
            rows = version.rows();
            yield_now();
        }
        Some(())
    }

    /// Looks, where no version lacks what the one before has, nor what a worker published last.
    fn read(&self, reader: &mut Reader<N>) -> Option<()> {
        let mut before = reader.latest().ok()?;
        for _turn in 0..self.turns {
            let version = self.look(reader)?;
            if !follows(&*before, &*version) {
                return None;
            }
            before = version;
            yield_now();
        }
        Some(())
    }

    /// A version that shows what a worker published last.
    fn look(&self, reader: &mut Reader<N>) -> Option<Arc<Version>> {
        let reported = self
            .reported
            .lock(self.wait)
            .as_ref()
            .map(|receipt| receipt.again());
        let Some(receipt) = reported else {
            return reader.latest().ok();
        };
        reader.learn(&receipt);
        let version = reader.latest().ok()?;
        (receipt.entry() < version.book_len()).then_some(version)
    }
}

/// Whether a version has at least the rows and the columns of the one before, and each column in its last batch.
fn follows(before: &Version, version: &Version) -> bool {
    let columns = version.schema().len();
    let is_whole = match version.batches().last() {
        Some(batch) => batch.columns().len() == columns,
        None => true,
    };
    is_whole && version.rows() >= before.rows() && columns >= before.schema().len()
}

/// A field of numbers.
fn field_of(alloc: Global, name: &str) -> Option<Field> {
    Some(Field {
        name: String::from_str(alloc, name).ok()?,
        nullable: true,
        ty: DataType::Int(INT64),
    })
}

/// A batch of one row: the number, and nulls in the columns behind it.
fn batch_of(alloc: Global, schema: &Schema, number: u32) -> Option<RecordBatch> {
    let mut numbers = IntBuilder::with_capacity(alloc, INT64, 1).ok()?;
    numbers.push(Some(i128::from(number))).ok()?;
    let mut columns = vec![in alloc; numbers.finish().ok()?].ok()?;
    for _column in 1..schema.len() {
        let nulls = Array::nulls(alloc, &DataType::Int(INT64), 1).ok()?;
        columns.push(nulls).ok()?;
    }
    RecordBatch::new(schema.copy(alloc).ok()?, 1, columns).ok()
}

/// Whether all went right while they worked together.
pub(crate) fn work_together<
    N: Naming + Send + Sync,
    P: Publish<Item = Shown<N>> + Send,
    W: Wait + Sync,
    T: Threads + Sync,
>(
    wait: &W,
    threads: &T,
    alloc: Global,
    table: &SharedTable<N, P>,
    hands: &mut [Hand<N>],
    soak: Soak,
) -> bool {
    let soaking = Soaking {
        wait,
        alloc,
        table,
        count: hands.len(),
        turns: soak.turns,
        columns: soak.columns,
        reported: Mutex::new(None),
        is_wrong: AtomicBool::new(false),
    };
    work_at_once(threads, hands, &soaking);
    !soaking.is_wrong.load(Ordering::SeqCst)
}
