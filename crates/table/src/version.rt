//! What a table holds at a moment.

ghost use Rattle.std.specs.Prelude.{ℕ, ◌≡◌, ◌⊎◌, ◌<◌, ◌≤◌, ◌^◌, All, IfErr, IfOk, None, OnOk, Some, length, map, option_map, slice_get, slice_index_or, [], true};
ghost use Rattle.std.specs.Arc.{arc_value};
ghost use Rattle.std.specs.List.{AllByRecursion};
ghost use Rattle.answers.specs.Prelude.{AreStats, IsAnswer, IsRefusal, fits, query_shape};
ghost use Rattle.arrays.specs.Prelude.{FieldShape, column, field_of, kind_of_field, rows_of};
ghost use Rattle.table.specs.Export.{IsLawful};
ghost use Rattle.table.specs.Cause.{IsLegal};
ghost use Rattle.table.specs.Book.{pair_of};
ghost use Rattle.table.specs.Storage.{IsConsistent, show};
ghost use Rattle.table.specs.History.{book, rows};
ghost use Rattle.table.specs.Lawful.{EndsWithEntry, IsStored, NamesFronts, dictionaries_of, rows_of_batches};
ghost use Rattle.table.specs.Stored.{stored_field};
ghost use Rattle.table.specs.Widened.{add_fault, with_last_field};

use crate::add_fault::AddFault;
use crate::entry::Entry;
use crate::export::file_of;
use crate::storage::Storage;
use crate::widening::{fault_of, stage};
use answers::{Answer, ColumnStats, Gate, Query, QueryFault};
use arrays::{Field, File, NoMemory, RecordBatch, Schema, Words};
use std::alloc::Global;
use std::marker::Model;
use std::sync::Arc;
use std::thread::Threads;

/// A table at a moment, to be read.
///
/// What it holds is shared by its copies (`share`), which are as good as it.
///
/// Clauses see its fields as they are stored, what was added and by whom, and the rows of each batch.
#[derive(Drop)]
pub struct Version {
    storage: Arc<Storage>,
}

impl Model for Version {
    ghost use Rattle.table.specs.Contents.{Contents, contents_code};

    ghost Value = { Contents };

    ghost coded = { contents_code };

    ghost use Rattle.std.specs.Arc.{arc_value};
    ghost use Rattle.table.specs.Storage.{IsConsistent, show};

    ghost view = { λ v. show (arc_value v.storage) };

    ghost invariant = { λ v. IsConsistent (arc_value v.storage) };
}

impl Version {
    /// The version of what a table holds.
    pub(crate) fn of(alloc: Global, storage: Storage) -> Result<Arc<Version>, NoMemory>
        requires { IsConsistent storage }
        ensures { IfOk result (λ v. arc_value v ≡ show storage) }
    {
        let storage = Arc::new(alloc, storage)?;
        Ok(Arc::new(alloc, Version { storage })?)
    }

    /// A copy, which shares what the version holds: nothing else is copied.
    pub fn share(&self) -> Result<Version, NoMemory>
        ensures { IfOk result (λ v. v ≡ self.now) }
    {
        Ok(Version {
            storage: self.storage.clone()?,
        })
    }

    /// The version with a column of the field behind the others, in which its rows show null, as `TableState::add_column` gives
    /// it to a table. What stands is shared, and this version stays as it is.
    ///
    /// # Errors
    /// Those of `TableState::add_column`, by the field alone, and in its order.
    pub fn with_column(&self, alloc: Global, field: &Field) -> Result<Arc<Version>, AddFault>
        ensures allowed { OnOk result (add_fault (field_of field.now) ≡ None) }
        ensures added { IfOk result (λ v. arc_value v ≡ with_last_field self.now (stored_field (field_of field.now))) }
        ensures err { IfErr result (λ e. ((e ≡ AddFault.NoMemory) × (add_fault (field_of field.now) ≡ None))
            ⊎ (add_fault (field_of field.now) ≡ Some e)) }
    {
        if let Some(fault) = fault_of(field) {
            return Err(fault);
        }
        let storage = stage(alloc, self.storage(), field)?;
        Ok(Version::of(alloc, storage)?)
    }

    /// What it shows.
    fn storage(&self) -> &Storage
        ensures shown { show result.now ≡ self.now }
        ensures lawful { IsConsistent result.now }
    {
        &self.storage
    }

    /// The fields as they are stored.
    pub fn schema(&self) -> &Schema
        ensures { result.now ≡ self.now.fields }
    {
        &self.storage().schema
    }

    /// How many rows there are.
    pub fn rows(&self) -> u64
        ensures count { result ≡ length (rows self.now.history) }
        ensures few { result ≤ 2 ^ 40 }
        ensures legal { IsLegal self.now.fields self.now.history }
    {
        self.storage().rows
    }

    /// The batches, in the order in which they came: their rows, one batch after the other, are those of the table. Each ends where an entry of the book ends, and a dictionary that one
    /// of its columns names begins that of the table's column, so that codes mean the same text in both.
    pub fn batches(&self) -> &[Arc<RecordBatch>]
        ensures value { map (λ b. rows_of (arc_value b)) result.now ≡ self.now.batches }
        ensures lawful { All (λ b. IsStored self.now.fields (arc_value b)) result.now }
        ensures rows { rows_of_batches (map arc_value result.now) ≡ rows self.now.history }
        ensures few { length (rows self.now.history) ≤ 2 ^ 40 }
        ensures ends { (i : ℕ) → i ≤ length result.now → EndsWithEntry (map arc_value result.now) (book self.now.history) i }
        ensures fronts { All (λ b. NamesFronts self.now.fields (rows self.now.history) (arc_value b)) result.now }
    {
        &self.storage().batches
    }

    /// The statistics of column `k` of batch `b`.
    pub fn batch_stats(&self, b: usize, k: usize) -> &ColumnStats
        requires batch { b < length self.now.batches }
        requires column { k < length self.now.fields }
        ensures { (f : FieldShape) → slice_get self.now.fields k ≡ Some f
            → AreStats result.now (kind_of_field f) (column (slice_index_or self.now.batches b []) k) }
    {
        &self.storage().batch_stats.get(b)[k]
    }

    /// The statistics of column `k`.
    pub fn stats(&self, k: usize) -> &ColumnStats
        requires { k < length self.now.fields }
        ensures { (f : FieldShape) → slice_get self.now.fields k ≡ Some f
            → AreStats result.now (kind_of_field f) (column (rows self.now.history) k) }
    {
        &self.storage().stats[k]
    }

    /// The dictionary of column `k`, none where it isn't one of texts: its distinct texts in order of first appearance.
    pub fn dictionary(&self, k: usize) -> Option<&Words>
        requires { k < length self.now.fields }
        ensures { slice_get (dictionaries_of self.now.fields (rows self.now.history)) k ≡ Some (option_map (λ w. w.now) result) }
    {
        match &self.storage().dictionaries[k] {
            Some(words) => Some(words),
            None => None,
        }
    }

    /// What the query answers over all rows, batch after batch. The number of pieces, from 1 to 64, says on how many threads
    /// they may be looked at, and changes nothing of the answer.
    ///
    /// # Errors
    /// `Overflow` with the least of the rows where a part of the filter is outside its type; `NoMemory` where a growth was refused.
    pub fn answer<T: Threads + Sync, G: Gate>(
        &self,
        threads: &T,
        alloc: Global,
        query: &Query,
        pieces: u32,
        gate: &G,
    ) -> Result<Answer, QueryFault>
        requires fits { fits self.now.fields (query_shape query.now) ≡ true }
        requires some { 1 ≤ pieces }
        requires most { pieces ≤ 64 }
        ensures ok { IfOk result (IsAnswer self.now.fields (query_shape query.now) (rows self.now.history)) }
        ensures err { IfErr result (IsRefusal self.now.fields (query_shape query.now) (rows self.now.history)) }
    {
        answers::answer(threads, alloc, self.batches(), query, pieces, gate)
    }

    /// The same in one piece, for whoever may start no thread.
    ///
    /// # Errors
    /// As `answer`.
    pub fn answer_alone(&self, alloc: Global, query: &Query) -> Result<Answer, QueryFault>
        requires fits { fits self.now.fields (query_shape query.now) ≡ true }
        ensures ok { IfOk result (IsAnswer self.now.fields (query_shape query.now) (rows self.now.history)) }
        ensures err { IfErr result (IsRefusal self.now.fields (query_shape query.now) (rows self.now.history)) }
    {
        answers::answer_alone(alloc, self.batches(), query)
    }

    /// The stored schema, and one batch for each entry of the book: what each call added, in its order. A batch that one
    /// call added whole is shared; the rows of an entry that are a part of one are copied, save that dictionaries are shared.
    /// `NoMemory` where a growth was refused.
    pub fn export(&self, alloc: Global) -> Result<File, NoMemory>
        ensures fields { IfOk result (λ f. f.fields ≡ self.now.fields) }
        ensures tables { IfOk result (λ f. map rows_of f.batches ≡ map (λ e. e.1) self.now.history) }
        ensures under { IfOk result (λ f. AllByRecursion (λ b. b.fields ≡ f.fields) f.batches) }
        ensures lawful { IfOk result (λ f. AllByRecursion IsLawful f.batches) }
        ensures legal { IsLegal self.now.fields self.now.history }
    {
        file_of(alloc, self.storage())
    }

    /// How many entries the book has: one for each accepted call.
    pub fn book_len(&self) -> u32
        ensures { result ≡ length self.now.history }
    {
        self.storage().book.len() as u32
    }

    /// Entry `i` of the book.
    pub fn book_at(&self, i: u32) -> Entry
        requires { i < length self.now.history }
        ensures { slice_get (book self.now.history) i ≡ Some (pair_of result) }
    {
        self.storage().book.get(i as usize)
    }
}
