//! Older batches over the newest dictionaries, so that the table keeps few of each column.

ghost use Rattle.std.specs.Prelude.{◌≤◌, All, IfOk, map, option_map};
ghost use Rattle.std.specs.Arc.{arc_value};
ghost use Rattle.std.specs.List.{AllZip};
ghost use Rattle.compaction.specs.Under.{IsDictionary, IsUnder};
ghost use Rattle.table.specs.Moved.{AreMoved, IsMoved};
ghost use Rattle.table.specs.Storage.{batches_of};

use crate::storage::Storage;
use arrays::{NoMemory, RecordBatch, Schema, Words};
use compaction::{names_whole, with_dictionaries};
use std::alloc::Global;
use std::sync::Arc;

/// The last batches over the dictionaries that there are with one batch more, to be put in their place.
pub(crate) fn moved(
    alloc: Global,
    storage: &Storage,
    dictionaries: &[Option<Arc<Words>>],
) -> Result<Vec<Arc<RecordBatch>>, NoMemory>
    requires dictionaries { AllZip IsDictionary (arc_value storage.now.schema) (map (option_map arc_value) dictionaries.now) }
    requires under { All (IsUnder (arc_value storage.now.schema) (map (option_map arc_value) dictionaries.now)) (batches_of storage.now) }
    ensures { IfOk result (λ m. AreMoved (arc_value storage.now.schema) (map (option_map arc_value) dictionaries.now) (batches_of storage.now) (map arc_value m.items)) }
{
    let first = first_moved(storage.batches.len());
    let last = &storage.batches[first..];
    match last {
        // Those behind a batch name what it names, or newer ones.
        [batch, ..] if !names_whole(dictionaries, batch) => {
            Ok(all_over(alloc, &storage.schema, dictionaries, last)?)
        }
        _ => Ok(Vec::new(alloc)),
    }
}

/// The first of so many batches that goes over to the newest dictionaries when one more comes: as many of the last go as the lowest
/// bit of their number with it counts. So the batches stand in blocks of one dictionary each, every block at least twice as
/// long as the next, and of `n` appends with new texts some `log2 n` dictionaries stay. A batch goes over as often at most.
fn first_moved(count: usize) -> usize
    ensures { result ≤ count }
{
    count & count.wrapping_add(1)
}

/// All batches over the dictionaries.
fn all_over(
    alloc: Global,
    schema: &Arc<Schema>,
    dictionaries: &[Option<Arc<Words>>],
    batches: &[Arc<RecordBatch>],
) -> Result<Vec<Arc<RecordBatch>>, NoMemory>
    requires dictionaries { AllZip IsDictionary (arc_value schema.now) (map (option_map arc_value) dictionaries.now) }
    requires under { All (IsUnder (arc_value schema.now) (map (option_map arc_value) dictionaries.now)) (map arc_value batches.now) }
    ensures { IfOk result (λ v. AllZip (IsMoved (arc_value schema.now) (map (option_map arc_value) dictionaries.now)) (map arc_value batches.now) (map arc_value v.items)) }
{
    let mut all = Vec::with_capacity(alloc, batches.len())?;
    for batch in batches {
        all.push(with_dictionaries(alloc, schema, dictionaries, batch)?)?;
    }
    Ok(all)
}
