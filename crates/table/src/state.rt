//! A table that grows, batch by batch.

ghost use Rattle.std.specs.Prelude.{◌≡◌, ◌⊎◌, [], IfErr, IfOk, None, OnErr, OnOk, Some, length, replicate};
ghost use Rattle.std.specs.Arc.{arc_value};
ghost use Rattle.table.specs.Cause.{IsLegal, batch_cause, early_cause};
ghost use Rattle.table.specs.Contents.{Contents, admitted};
ghost use Rattle.arrays.specs.Prelude.{field_of};
ghost use Rattle.answers.specs.Prelude.{AreTheirs};
ghost use Rattle.table.specs.Compacted.{IsCompacted};
ghost use Rattle.table.specs.Stored.{stored_field, stored_fields};
ghost use Rattle.table.specs.Widened.{add_fault, with_last_field};

use crate::add_fault::AddFault;
use crate::cause::early_refusal;
use crate::change::{Change, commit};
use crate::look::Look;
use crate::ready::{Ready, shared_stats};
use crate::refusal::Refusal;
use crate::storage::Storage;
use crate::version::Version;
use crate::widening::fault_of;
use crate::{admission, joining, widening};
use answers::ColumnStats;
use arrays::{Field, NoMemory, RecordBatch, Schema};
use pool::TextPool;
use std::alloc::Global;
use std::marker::Model;
use std::sync::Arc;

/// A table that batches are admitted to, one after the other.
///
/// Clauses see its fields as they are stored, what was added and by whom, and the rows of each batch.
#[derive(Drop)]
pub struct TableState {
    alloc: Global,
    storage: Storage,
    /// The texts of each column, for columns of texts.
    pools: Vec<TextPool>,
}

impl Model for TableState {
    ghost use Rattle.table.specs.Contents.{Contents, contents_code};

    ghost Value = { Contents };

    ghost coded = { contents_code };

    ghost use Rattle.table.specs.Storage.{IsConsistent, batches_of, show};
    ghost use Rattle.table.specs.Lawful.{rows_of_batches};
    ghost use Rattle.table.specs.Ready.{ArePools};

    ghost view = { λ s. show s.storage };

    ghost invariant = { λ s. record {
      storage : IsConsistent s.storage;
      texts : ArePools s.storage (rows_of_batches (batches_of s.storage)) s.pools.items;
    } };
}

impl TableState {
    /// An empty table for batches of the schema. Its stored schema has each top-level text dictionary-encoded.
    pub fn new(alloc: Global, schema: Schema) -> Result<TableState, NoMemory>
        ensures { IfOk result (λ t. t ≡ record { fields = stored_fields schema; history = []; batches = [] }) }
    {
        let count = schema.len();
        let storage = Storage::empty(alloc, schema)?;
        let pools = no_texts(alloc, count)?;
        Ok(TableState {
            alloc,
            storage,
            pools,
        })
    }

    /// Adds a batch of a worker at the end, and gives the number of its entry in the book, from 0. A batch without rows
    /// is admitted too. After a refusal the table is as it was. Want of memory is reported only where nothing else stands that
    /// is known without any: the fields, a null, a full table or a full book. What was added is always a legal history.
    pub fn admit(&mut self, worker: u32, batch: &RecordBatch) -> Result<u32, Refusal>
        ensures number { IfOk result (λ n. n ≡ length self.old.history) }
        ensures allowed { OnOk result (batch_cause self.old.fields self.old.history batch.now ≡ None) }
        ensures added { OnOk result (self.new ≡ admitted self.old worker batch.now) }
        ensures err { IfErr result (λ e. ((e ≡ Refusal.NoMemory) × (early_cause self.old.fields self.old.history batch.now ≡ None))
            ⊎ (batch_cause self.old.fields self.old.history batch.now ≡ Some e)) }
        ensures kept { OnErr result (self.new ≡ self.old) }
        ensures legal { IsLegal self.new.fields self.new.history }
    {
        if let Some(refusal) = early_refusal(&self.storage, batch) {
            return Err(refusal);
        }
        let batch_stats = shared_stats(self.alloc, batch)?;
        let (number, ()) = self.add(worker, batch, batch_stats)?;
        Ok(number)
    }

    /// Does what `admit` does with a batch that was made ready before, so that a lock over the table is held no longer than it
    /// must.
    pub fn admit_ready(&mut self, worker: u32, ready: Ready) -> Result<u32, Refusal>
        ensures number { IfOk result (λ n. n ≡ length self.old.history) }
        ensures allowed { OnOk result (batch_cause self.old.fields self.old.history ready ≡ None) }
        ensures added { OnOk result (self.new ≡ admitted self.old worker ready) }
        ensures err { IfErr result (λ e. ((e ≡ Refusal.NoMemory) × (early_cause self.old.fields self.old.history ready ≡ None))
            ⊎ (batch_cause self.old.fields self.old.history ready ≡ Some e)) }
        ensures kept { OnErr result (self.new ≡ self.old) }
        ensures legal { IsLegal self.new.fields self.new.history }
    {
        let (batch, batch_stats) = ready.parts();
        match early_refusal(&self.storage, &batch) {
            Some(refusal) => Err(refusal),
            None => {
                let (number, ()) = self.add(worker, &batch, batch_stats)?;
                Ok(number)
            }
        }
    }

    /// Does what `admit_ready` does, and gives the version of the table with the batch. It is made before the batch is put in,
    /// so that who shows it to others has no step behind the admission that could still fail.
    pub fn admit_shown(&mut self, worker: u32, ready: Ready) -> Result<(u32, Arc<Version>), Refusal>
        ensures number { IfOk result (λ r. r.0 ≡ length self.old.history) }
        ensures shown { IfOk result (λ r. arc_value r.1 ≡ self.new) }
        ensures allowed { OnOk result (batch_cause self.old.fields self.old.history ready ≡ None) }
        ensures added { OnOk result (self.new ≡ admitted self.old worker ready) }
        ensures err { IfErr result (λ e. ((e ≡ Refusal.NoMemory) × (early_cause self.old.fields self.old.history ready ≡ None))
            ⊎ (batch_cause self.old.fields self.old.history ready ≡ Some e)) }
        ensures kept { OnErr result (self.new ≡ self.old) }
        ensures legal { IsLegal self.new.fields self.new.history }
    {
        let (batch, batch_stats) = ready.parts();
        match early_refusal(&self.storage, &batch) {
            Some(refusal) => Err(refusal),
            None => self.add(worker, &batch, batch_stats),
        }
    }

    /// Adds a batch whose statistics were made before. Nothing but its texts and the memory can stand against it.
    fn add<L: Look>(
        &mut self,
        worker: u32,
        batch: &RecordBatch,
        batch_stats: Arc<Vec<ColumnStats>>,
    ) -> Result<(u32, L), Refusal>
        requires stats { AreTheirs batch.now.columns (arc_value batch_stats).items }
        requires allowed { early_cause self.old.fields self.old.history batch.now ≡ None }
        ensures number { IfOk result (λ r. r.0 ≡ length self.old.history) }
        ensures seen { IfOk result (λ r. L.sees r.1 self.new) }
        ensures allowed { OnOk result (batch_cause self.old.fields self.old.history batch.now ≡ None) }
        ensures added { OnOk result (self.new ≡ admitted self.old worker batch.now) }
        ensures err { IfErr result (λ e. (e ≡ Refusal.NoMemory)
            ⊎ (batch_cause self.old.fields self.old.history batch.now ≡ Some e)) }
        ensures kept { OnErr result (self.new ≡ self.old) }
        ensures legal { IsLegal self.new.fields self.new.history }
    {
        let number = self.storage.book.len() as u32;
        self.storage.reserve()?;
        let addition = admission::stage(
            self.alloc,
            &self.storage,
            &mut self.pools,
            worker,
            batch,
            batch_stats,
        )?;
        let change = Change::Batch(addition);
        let seen = commit(self.alloc, &mut self.storage, &mut self.pools, change)?;
        Ok((number, seen))
    }

    /// Joins neighbouring batches. From the first on, a batch is joined to those before it where all of them together have at
    /// most `max_rows` rows, no more than an array holds, and no offset is past 2^31 - 1. Rows, book, dictionaries and the
    /// statistics of columns stay; a batch that stays alone is shared. After a refusal the table is as it was.
    ///
    /// With `max_rows` 100, batches of 60, 30, 20 and 200 rows become batches of 90, 20 and 200 rows.
    pub fn compact(&mut self, max_rows: u32) -> Result<(), NoMemory>
        ensures compacted { OnOk result (IsCompacted max_rows self.old self.new) }
        ensures kept { OnErr result (self.new ≡ self.old) }
        ensures legal { IsLegal self.new.fields self.new.history }
    {
        self.join(max_rows)
    }

    /// Does what `compact` does, and gives the version of the table with the batches joined, for two who look at it. It is made
    /// before they are joined.
    pub fn compact_shown(&mut self, max_rows: u32) -> Result<(Arc<Version>, Arc<Version>), NoMemory>
        ensures shown { IfOk result (λ v. (arc_value v.0 ≡ self.new) × (arc_value v.1 ≡ self.new)) }
        ensures compacted { OnOk result (IsCompacted max_rows self.old self.new) }
        ensures kept { OnErr result (self.new ≡ self.old) }
        ensures legal { IsLegal self.new.fields self.new.history }
    {
        self.join(max_rows)
    }

    /// Joins neighbouring batches, and gives what is made of the table as it is then.
    fn join<L: Look>(&mut self, max_rows: u32) -> Result<L, NoMemory>
        ensures seen { IfOk result (λ l. L.sees l self.new) }
        ensures compacted { OnOk result (IsCompacted max_rows self.old self.new) }
        ensures kept { OnErr result (self.new ≡ self.old) }
        ensures legal { IsLegal self.new.fields self.new.history }
    {
        let next = joining::stage(self.alloc, &self.storage, max_rows)?;
        commit(
            self.alloc,
            &mut self.storage,
            &mut self.pools,
            Change::Whole(next),
        )
    }

    /// Adds a column of the field behind the others: the rows that are there show null in it. A text gets a dictionary, as in
    /// `new`. Book, the rows of the batches and the statistics of the other columns stay, and what stands is shared. After a
    /// refusal the table is as it was.
    pub fn add_column(&mut self, field: Field) -> Result<(), AddFault>
        ensures allowed { OnOk result (add_fault (field_of field) ≡ None) }
        ensures added { OnOk result (self.new ≡ with_last_field self.old (stored_field (field_of field))) }
        ensures err { IfErr result (λ e. ((e ≡ AddFault.NoMemory) × (add_fault (field_of field) ≡ None))
            ⊎ (add_fault (field_of field) ≡ Some e)) }
        ensures kept { OnErr result (self.new ≡ self.old) }
        ensures legal { IsLegal self.new.fields self.new.history }
    {
        self.widen(&field)
    }

    /// Does what `add_column` does, and gives the version of the table with the column, for two who look at it. It is made
    /// before the column is added.
    pub fn add_column_shown(
        &mut self,
        field: &Field,
    ) -> Result<(Arc<Version>, Arc<Version>), AddFault>
        ensures shown { IfOk result (λ v. (arc_value v.0 ≡ self.new) × (arc_value v.1 ≡ self.new)) }
        ensures allowed { OnOk result (add_fault (field_of field.now) ≡ None) }
        ensures added { OnOk result (self.new ≡ with_last_field self.old (stored_field (field_of field.now))) }
        ensures err { IfErr result (λ e. ((e ≡ AddFault.NoMemory) × (add_fault (field_of field.now) ≡ None))
            ⊎ (add_fault (field_of field.now) ≡ Some e)) }
        ensures kept { OnErr result (self.new ≡ self.old) }
        ensures legal { IsLegal self.new.fields self.new.history }
    {
        self.widen(field)
    }

    /// Adds a column of the field behind the others, and gives what is made of the table as it is then.
    fn widen<L: Look>(&mut self, field: &Field) -> Result<L, AddFault>
        ensures seen { IfOk result (λ l. L.sees l self.new) }
        ensures allowed { OnOk result (add_fault (field_of field.now) ≡ None) }
        ensures added { OnOk result (self.new ≡ with_last_field self.old (stored_field (field_of field.now))) }
        ensures err { IfErr result (λ e. ((e ≡ AddFault.NoMemory) × (add_fault (field_of field.now) ≡ None))
            ⊎ (add_fault (field_of field.now) ≡ Some e)) }
        ensures kept { OnErr result (self.new ≡ self.old) }
        ensures legal { IsLegal self.new.fields self.new.history }
    {
        let alloc = self.alloc;
        if let Some(fault) = fault_of(field) {
            return Err(fault);
        }
        self.pools.reserve(1)?;
        let next = Change::Whole(widening::stage(alloc, &self.storage, field)?);
        let seen = commit(alloc, &mut self.storage, &mut self.pools, next)?;
        self.pools.push_reserved(TextPool::new(alloc));
        Ok(seen)
    }

    /// The table as it is, to be shared and read. No column is copied.
    pub fn version(&self) -> Result<Arc<Version>, NoMemory>
        ensures { IfOk result (λ v. arc_value v ≡ self.now) }
    {
        let storage = self.storage.share(self.alloc, 0)?;
        Version::of(self.alloc, storage)
    }
}

/// So many pools without texts.
fn no_texts(alloc: Global, count: usize) -> Result<Vec<TextPool>, NoMemory>
    ensures { IfOk result (λ v. v.items ≡ replicate count []) }
{
    let mut pools = Vec::with_capacity(alloc, count)?;
    for _column in 0..count {
        pools.push(TextPool::new(alloc))?;
    }
    Ok(pools)
}
