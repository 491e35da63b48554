//! What a table holds next, made before the table changes.

ghost use Rattle.std.specs.Prelude.{◌≡◌, IfOk, OnErr, OnOk, map, option_map};
ghost use Rattle.std.specs.Arc.{arc_value};
ghost use Rattle.table.specs.Change.{CanCommit, IsNext};
ghost use Rattle.table.specs.Storage.{IsConsistent, batches_of, show};
ghost use Rattle.table.specs.Lawful.{rows_of_batches};
ghost use Rattle.table.specs.Ready.{ArePools, BeginWithTexts};

use crate::book::Book;
use crate::chunks::Chunks;
use crate::columns::cut_back;
use crate::look::Look;
use crate::storage::{Storage, all_shared, dictionaries_shared};
use answers::ColumnStats;
use arrays::{NoMemory, RecordBatch, Words};
use pool::TextPool;
use std::alloc::Global;
use std::sync::Arc;

/// A batch as it is stored, and what the table holds with it: all that is new.
#[derive(Drop)]
pub(crate) struct Addition {
    pub(crate) batch: Arc<RecordBatch>,
    /// The statistics of each batch, with this one.
    pub(crate) batch_stats: Chunks<Arc<Vec<ColumnStats>>>,
    pub(crate) stats: Arc<Vec<ColumnStats>>,
    pub(crate) dictionaries: Vec<Option<Arc<Words>>>,
    /// The last of the batches that are stored, over these dictionaries.
    pub(crate) moved: Vec<Arc<RecordBatch>>,
    /// The book with the batch's entry.
    pub(crate) book: Book,
}

/// A change that is staged: all of it is made, and nothing of it is stored yet.
#[derive(Drop)]
pub(crate) enum Change {
    /// A batch comes behind the others.
    Batch(Addition),
    /// All parts are others.
    Whole(Storage),
}

impl Addition {
    /// The same parts, shared.
    pub(crate) fn share(&self, alloc: Global) -> Result<Addition, NoMemory>
        ensures batch { IfOk result (λ p. arc_value p.batch ≡ arc_value self.now.batch) }
        ensures pieces { IfOk result (λ p. p.batch_stats ≡ self.now.batch_stats) }
        ensures stats { IfOk result (λ p. arc_value p.stats ≡ arc_value self.now.stats) }
        ensures dictionaries { IfOk result (λ p. map (option_map arc_value) p.dictionaries.items
            ≡ map (option_map arc_value) self.now.dictionaries.items) }
        ensures moved { IfOk result (λ p. map arc_value p.moved.items ≡ map arc_value self.now.moved.items) }
        ensures book { IfOk result (λ p. p.book ≡ self.now.book) }
    {
        Ok(Addition {
            batch: self.batch.clone()?,
            batch_stats: self.batch_stats.share()?,
            stats: self.stats.clone()?,
            dictionaries: dictionaries_shared(alloc, &self.dictionaries)?,
            moved: all_shared(alloc, &self.moved, 0)?,
            book: self.book.share()?,
        })
    }
}

impl Storage {
    /// What is stored after a change, shared.
    pub(crate) fn after(&self, alloc: Global, change: &Change) -> Result<Storage, NoMemory>
        requires { CanCommit change.now self.now }
        ensures { IfOk result (λ h. IsNext change.now self.now h) }
    {
        match change {
            Change::Batch(addition) => self.with_batch(alloc, addition),
            Change::Whole(storage) => storage.share(alloc, 0),
        }
    }

    /// Makes a change. No memory is taken.
    fn apply(&mut self, change: Change)
        requires { CanCommit change self.old }
        ensures { IsNext change self.old self.new }
    {
        match change {
            Change::Batch(addition) => self.put_in(addition),
            Change::Whole(storage) => *self = storage,
        }
    }
}

/// Commits a change, behind which nothing can fail, and gives what who looks at the table makes of it. Where there is no memory
/// for that, nothing is changed, and texts that pools have beside those of what is stored are taken back.
pub(crate) fn commit<L: Look>(
    alloc: Global,
    storage: &mut Storage,
    pools: &mut Vec<TextPool>,
    change: Change,
) -> Result<L, NoMemory>
    requires storage { IsConsistent storage.old }
    requires can { CanCommit change storage.old }
    requires lawful { (h : Storage) → IsNext change storage.old h → IsConsistent h }
    requires begun { BeginWithTexts storage.old (rows_of_batches (batches_of storage.old)) pools.old.items }
    ensures next { OnOk result (IsNext change storage.old storage.new) }
    ensures seen { IfOk result (λ l. L.sees l (show storage.new)) }
    ensures pools { OnOk result (pools.new ≡ pools.old) }
    ensures kept { OnErr result (storage.new ≡ storage.old) }
    ensures back { OnErr result (ArePools storage.old (rows_of_batches (batches_of storage.old)) pools.new.items) }
{
    match L::look(alloc, storage, &change) {
        Ok(seen) => {
            storage.apply(change);
            Ok(seen)
        }
        Err(NoMemory) => {
            take_back(storage, pools);
            Err(NoMemory)
        }
    }
}

/// Takes back the texts that pools have beside those of what is stored.
pub(crate) fn take_back(storage: &Storage, pools: &mut Vec<TextPool>)
    requires storage { IsConsistent storage.now }
    requires begun { BeginWithTexts storage.now (rows_of_batches (batches_of storage.now)) pools.old.items }
    ensures { ArePools storage.now (rows_of_batches (batches_of storage.now)) pools.new.items }
{
    cut_back(pools, &storage.dictionaries);
}
