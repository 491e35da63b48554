//! A batch staged: all that comes in with it made, before anything of the table changes.

ghost use Rattle.std.specs.Prelude.{◌≡◌, ◌⊎◌, ◌++◌, All, IfErr, IfOk, None, OnErr, OnOk, Some};
ghost use Rattle.std.specs.Arc.{arc_value};
ghost use Rattle.std.specs.List.{AllZip};
ghost use mathlib.Core.List.{IsPrefix};
ghost use Rattle.arrays.specs.Prelude.{IsItemOf, rows_of};
ghost use Rattle.table.specs.Cause.{batch_cause, early_cause};
ghost use Rattle.answers.specs.Prelude.{AreTheirs};
ghost use Rattle.table.specs.Storage.{IsConsistent, batches_of, show};
ghost use Rattle.table.specs.Lawful.{rows_of_batches};
ghost use Rattle.table.specs.Ready.{ArePools, BeginWithTexts, IsAdditionOf};

use crate::change::{Addition, take_back};
use crate::columns::{Columns, stored_columns};
use crate::entry::Entry;
use crate::moving::moved;
use crate::refusal::Refusal;
use crate::storage::Storage;
use answers::{ColumnStats, joined_all};
use arrays::{Array, RecordBatch};
use pool::TextPool;
use std::alloc::Global;
use std::sync::Arc;

/// Stages a batch of a worker whose statistics were made before. Nothing that the table shows changes: its pools have the new texts, and have them no more where
/// the batch is refused. Nothing but its texts and the memory can stand against it here.
pub(crate) fn stage(
    alloc: Global,
    storage: &Storage,
    pools: &mut Vec<TextPool>,
    worker: u32,
    batch: &RecordBatch,
    batch_stats: Arc<Vec<ColumnStats>>,
) -> Result<Addition, Refusal>
    requires storage { IsConsistent storage.now }
    requires stats { AreTheirs batch.now.columns (arc_value batch_stats).items }
    requires pools { ArePools storage.now (rows_of_batches (batches_of storage.now)) pools.old.items }
    requires allowed { early_cause (arc_value storage.now.schema) (show storage.now).history batch.now ≡ None }
    ensures ok { IfOk result (λ p. IsAdditionOf storage.now worker batch.now p) }
    ensures pools { OnOk result (ArePools storage.now (rows_of_batches (batches_of storage.now) ++ rows_of batch.now) pools.new.items) }
    ensures begun { OnOk result (BeginWithTexts storage.now (rows_of_batches (batches_of storage.now)) pools.new.items) }
    ensures err { IfErr result (λ e. (e ≡ Refusal.NoMemory)
        ⊎ (batch_cause (arc_value storage.now.schema) (show storage.now).history batch.now ≡ Some e)) }
    ensures kept { OnErr result (pools.new.items ≡ pools.old.items) }
{
    match recoded(alloc, storage, pools, worker, batch, batch_stats) {
        Ok(addition) => Ok(addition),
        Err(refusal) => {
            take_back(storage, pools);
            Err(refusal)
        }
    }
}

/// The same, but the pools keep what was added where it fails.
fn recoded(
    alloc: Global,
    storage: &Storage,
    pools: &mut Vec<TextPool>,
    worker: u32,
    batch: &RecordBatch,
    batch_stats: Arc<Vec<ColumnStats>>,
) -> Result<Addition, Refusal>
    requires storage { IsConsistent storage.now }
    requires stats { AreTheirs batch.now.columns (arc_value batch_stats).items }
    requires pools { ArePools storage.now (rows_of_batches (batches_of storage.now)) pools.old.items }
    requires allowed { early_cause (arc_value storage.now.schema) (show storage.now).history batch.now ≡ None }
    ensures ok { IfOk result (λ p. IsAdditionOf storage.now worker batch.now p) }
    ensures pools { OnOk result (ArePools storage.now (rows_of_batches (batches_of storage.now) ++ rows_of batch.now) pools.new.items) }
    ensures err { IfErr result (λ e. (e ≡ Refusal.NoMemory)
        ⊎ (batch_cause (arc_value storage.now.schema) (show storage.now).history batch.now ≡ Some e)) }
    ensures begun { AllZip IsPrefix pools.old.items pools.new.items }
{
    tell_all(batch.columns());
    let Columns {
        columns,
        dictionaries,
    } = stored_columns(alloc, &storage.dictionaries, pools, batch.columns())?;
    let stats = joined_all(alloc, &storage.stats, &batch_stats)?;
    let batch_stats = storage.batch_stats.with(alloc, batch_stats)?;
    let moved = moved(alloc, storage, &dictionaries)?;
    let rows = batch.rows();
    let book = storage.book.with_entry(alloc, Entry { worker, rows })?;
    // The columns are as long as those of the batch, and of the stored types.
    let batch = RecordBatch::under(storage.schema.clone()?, rows, columns);
    Ok(Addition {
        batch: Arc::new(alloc, batch)?,
        stats: Arc::new(alloc, stats)?,
        batch_stats,
        dictionaries,
        moved,
        book,
    })
}

/// Says that each item of each column is null or of the column's kind.
fn tell_all(columns: &[Array])
    ensures { All (λ c. All (IsItemOf c.kind) c.items) columns.now }
{
    for column in columns {
        column.view().tell_items();
    }
}
