//! Neighbouring batches joined, before anything of the table changes.

ghost use Rattle.std.specs.Prelude.{IfOk};
ghost use Rattle.table.specs.Compacted.{IsCompacted};
ghost use Rattle.table.specs.Storage.{IsConsistent, show};

use crate::chunks::Chunks;
use crate::storage::Storage;
use arrays::NoMemory;
use compaction::compact;
use std::alloc::Global;

/// Stages the joining of batches, so many rows at most in one: what is stored then.
pub(crate) fn stage(alloc: Global, storage: &Storage, max_rows: u32) -> Result<Storage, NoMemory>
    requires { IsConsistent storage.now }
    ensures lawful { IfOk result (λ h. IsConsistent h) }
    ensures compacted { IfOk result (λ h. IsCompacted max_rows (show storage.now) (show h)) }
{
    let pieces = storage.batch_stats.to_vec(alloc)?;
    let compacted = compact(
        alloc,
        &storage.schema,
        &storage.dictionaries,
        &storage.batches,
        &pieces,
        max_rows,
    )?;
    let batch_stats = Chunks::of(alloc, compacted.batch_stats)?;
    storage.with_batches(alloc, compacted.batches, batch_stats)
}
