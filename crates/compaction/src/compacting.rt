//! All batches, group by group.

ghost use Rattle.std.specs.Prelude.{All, IfOk, map, option_map};
ghost use Rattle.std.specs.Arc.{arc_value};
ghost use Rattle.std.specs.List.{AllZip};
ghost use Rattle.arrays.specs.Batch.{rows_of};
ghost use Rattle.compaction.specs.Neighbours.{AreGroups};
ghost use Rattle.compaction.specs.Under.{HaveStats, IsDictionary, IsUnder, pieces_of};

use crate::groups::group_len;
use crate::joining::batch_of;
use crate::statistics::stats_of;
use arrays::{NoMemory, RecordBatch, Schema, Words};
use group::ColumnStats;
use std::alloc::Global;
use std::sync::Arc;

/// Batches, and the statistics of the columns of each.
#[derive(Drop)]
pub struct Compacted {
    pub batches: Vec<Arc<RecordBatch>>,
    pub batch_stats: Vec<Arc<Vec<ColumnStats>>>,
}

/// The batches with neighbours joined: from the first on, a batch is joined to those before it where all of them together have
/// at most `max_rows` rows, no more than an array holds, and where no offset would be past 2^31 - 1. Which they are is counted
/// without memory. All batches are over the dictionaries that are given, so that no older one is kept alive. The columns of a
/// batch that stays alone are shared, and so are its statistics.
pub fn compact(
    alloc: Global,
    schema: &Arc<Schema>,
    dictionaries: &[Option<Arc<Words>>],
    batches: &[Arc<RecordBatch>],
    batch_stats: &[Arc<Vec<ColumnStats>>],
    max_rows: u32,
) -> Result<Compacted, NoMemory>
    requires dictionaries { AllZip IsDictionary (arc_value schema.now) (map (option_map arc_value) dictionaries.now) }
    requires under { All (IsUnder (arc_value schema.now) (map (option_map arc_value) dictionaries.now)) (map arc_value batches.now) }
    requires stats { HaveStats (map arc_value batches.now) (pieces_of batch_stats.now) }
    ensures groups { IfOk result (λ r. AreGroups (arc_value schema.now) max_rows
        (map rows_of (map arc_value batches.now)) (map rows_of (map arc_value r.batches.items))) }
    ensures under { IfOk result (λ r. All (IsUnder (arc_value schema.now) (map (option_map arc_value) dictionaries.now)) (map arc_value r.batches.items)) }
    ensures stats { IfOk result (λ r. HaveStats (map arc_value r.batches.items) (pieces_of r.batch_stats.items)) }
{
    let mut compacted = Compacted {
        batches: Vec::new(alloc),
        batch_stats: Vec::new(alloc),
    };
    let mut start = 0;
    while start < batches.len() {
        let end = start + group_len(schema, &batches[start..], max_rows);
        let batch = batch_of(alloc, schema, dictionaries, &batches[start..end])?;
        compacted.batches.push(batch)?;
        compacted
            .batch_stats
            .push(stats_of(alloc, &batch_stats[start..end])?)?;
        start = end;
    }
    Ok(compacted)
}
