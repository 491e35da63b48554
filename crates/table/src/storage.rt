//! What a table holds: the same under its lock and in a version.

ghost use Rattle.std.specs.Prelude.{◌≡◌, ◌+◌, ◌^◌, ◌≤◌, IfOk, OnOk, length, map, option_map, vec_capacity, vec_len};
ghost use Rattle.std.specs.Arc.{arc_value};
ghost use Rattle.table.specs.Moved.{with_last};
ghost use Rattle.table.specs.Storage.{HasRoom, IsPut, IsSame, IsWith};

pub(crate) mod empty;

use crate::book::Book;
use crate::change::Addition;
use crate::chunks::Chunks;
use answers::ColumnStats;
use arrays::{NoMemory, RecordBatch, Schema, Words};
use std::alloc::Global;
use std::sync::Arc;

/// The parts of a table. All but the numbers is shared by those who hold it.
#[derive(Drop)]
pub(crate) struct Storage {
    /// The fields as they are stored: each top-level text is dictionary-encoded.
    pub(crate) schema: Arc<Schema>,
    pub(crate) rows: u64,
    pub(crate) batches: Vec<Arc<RecordBatch>>,
    /// The statistics of each batch, one for each column.
    pub(crate) batch_stats: Chunks<Arc<Vec<ColumnStats>>>,
    /// The statistics of each column.
    pub(crate) stats: Arc<Vec<ColumnStats>>,
    /// The newest dictionary of each column of texts.
    pub(crate) dictionaries: Vec<Option<Arc<Words>>>,
    pub(crate) book: Book,
}

impl Storage {
    /// Makes room for one batch more, so that putting it in can't fail.
    pub(crate) fn reserve(&mut self) -> Result<(), NoMemory>
        ensures room { OnOk result (HasRoom self.new) }
        ensures same { IsSame self.old self.new }
    {
        self.batches.reserve(1)?;
        Ok(())
    }

    /// Puts a batch in, and what moved in the place of the last ones before it. No memory is taken.
    pub(crate) fn put_in(&mut self, addition: Addition)
        requires room { HasRoom self.old }
        requires few { self.old.rows + (arc_value addition.batch).rows ≤ 2 ^ 40 }
        requires moved { length addition.moved.items ≤ length self.old.batches.items }
        ensures { IsPut addition self.old self.new }
    {
        let Addition {
            batch,
            batch_stats,
            stats,
            dictionaries,
            moved,
            book,
        } = addition;
        let rows = batch.rows();
        put_last(&mut self.batches, moved);
        self.batches.push_reserved(batch);
        self.batch_stats = batch_stats;
        self.stats = stats;
        self.dictionaries = dictionaries;
        self.book = book;
        self.rows += u64::from(rows);
    }

    /// The same parts, shared: no column, no statistic and no text is copied. Beside them lies room for so many batches more.
    pub(crate) fn share(&self, alloc: Global, room: usize) -> Result<Storage, NoMemory>
        ensures { IfOk result (λ h. IsSame self.now h) }
    {
        let batches = all_shared(alloc, &self.batches, room)?;
        let batch_stats = self.batch_stats.share()?;
        self.with_batches(alloc, batches, batch_stats)
    }

    /// The same parts, shared, but for the batches and their statistics.
    pub(crate) fn with_batches(
        &self,
        alloc: Global,
        batches: Vec<Arc<RecordBatch>>,
        batch_stats: Chunks<Arc<Vec<ColumnStats>>>,
    ) -> Result<Storage, NoMemory>
        ensures { IfOk result (λ h. IsWith batches.items batch_stats self.now h) }
    {
        Ok(Storage {
            schema: self.schema.clone()?,
            rows: self.rows,
            batches,
            batch_stats,
            stats: self.stats.clone()?,
            dictionaries: dictionaries_shared(alloc, &self.dictionaries)?,
            book: self.book.share()?,
        })
    }

    /// The same parts, shared, with a batch put in.
    pub(crate) fn with_batch(&self, alloc: Global, addition: &Addition) -> Result<Storage, NoMemory>
        requires few { self.now.rows + (arc_value addition.now.batch).rows ≤ 2 ^ 40 }
        requires moved { length addition.now.moved.items ≤ length self.now.batches.items }
        ensures { IfOk result (λ h. IsPut addition.now self.now h) }
    {
        let mut storage = self.share(alloc, 1)?;
        storage.reserve()?;
        storage.put_in(addition.share(alloc)?);
        Ok(storage)
    }
}

/// Puts these in the place of the last ones. No memory is taken.
fn put_last<T: Drop>(values: &mut Vec<T>, last: Vec<T>)
    requires { length last.items ≤ length values.old.items }
    ensures values { values.new.items ≡ with_last values.old.items last.items }
    ensures len { vec_len values.new ≡ vec_len values.old }
    ensures capacity { vec_capacity values.old ≤ vec_capacity values.new }
{
    let mut last = last;
    values.truncate(values.len() - last.len());
    match values.append(&mut last) {
        Ok(()) => {}
        // There was room for those that were there.
        Err(_) => unreachable!(),
    }
}

/// The same values, shared, with room for so many more.
pub(crate) fn all_shared<T: Drop>(
    alloc: Global,
    values: &[Arc<T>],
    room: usize,
) -> Result<Vec<Arc<T>>, NoMemory>
    ensures { IfOk result (λ v. map arc_value v.items ≡ map arc_value values.now) }
{
    let mut all = Vec::with_capacity(alloc, values.len().saturating_add(room))?;
    for value in values {
        all.push(value.clone()?)?;
    }
    Ok(all)
}

/// The same dictionaries, shared.
pub(crate) fn dictionaries_shared(
    alloc: Global,
    dictionaries: &[Option<Arc<Words>>],
) -> Result<Vec<Option<Arc<Words>>>, NoMemory>
    ensures { IfOk result (λ v. map (option_map arc_value) v.items ≡ map (option_map arc_value) dictionaries.now) }
{
    let mut all = Vec::with_capacity(alloc, dictionaries.len())?;
    for dictionary in dictionaries {
        all.push(match dictionary {
            Some(words) => Some(words.clone()?),
            None => None,
        })?;
    }
    Ok(all)
}
