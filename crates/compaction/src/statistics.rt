//! The statistics of several batches as those of one.

ghost use Rattle.std.specs.Prelude.{◌≤◌, IfOk, List, length};
ghost use Rattle.std.specs.Arc.{arc_value};
ghost use Rattle.std.specs.List.{AllZip};
ghost use Rattle.arrays.specs.Prelude.{FieldShape, Table};
ghost use Rattle.compaction.specs.Neighbours.{together};
ghost use Rattle.compaction.specs.Statistics.{AreOfFew, AreStatsOf};
ghost use Rattle.compaction.specs.Under.{pieces_of};

use arrays::NoMemory;
use group::{ColumnStats, joined_all};
use std::alloc::Global;
use std::sync::Arc;

/// The statistics of the rows of all batches. Those of a batch that is alone are shared.
pub(crate) fn stats_of(
    alloc: Global,
    batch_stats: &[Arc<Vec<ColumnStats>>],
) -> Result<Arc<Vec<ColumnStats>>, NoMemory>
    requires some { 1 ≤ length batch_stats.now }
    requires few { AreOfFew (pieces_of batch_stats.now) }
    ensures { IfOk result (λ s. (fields : List FieldShape) (tables : List Table)
        → AllZip (AreStatsOf fields) tables (pieces_of batch_stats.now) → AreStatsOf fields (together tables) (arc_value s).items) }
{
    match batch_stats {
        [only] => Ok(only.clone()?),
        _ => Ok(Arc::new(alloc, joined(alloc, batch_stats)?)?),
    }
}

/// The statistics of several batches, one behind the other.
fn joined(
    alloc: Global,
    batch_stats: &[Arc<Vec<ColumnStats>>],
) -> Result<Vec<ColumnStats>, NoMemory>
    requires several { 2 ≤ length batch_stats.now }
    requires few { AreOfFew (pieces_of batch_stats.now) }
    ensures { IfOk result (λ v. (fields : List FieldShape) (tables : List Table)
        → AllZip (AreStatsOf fields) tables (pieces_of batch_stats.now) → AreStatsOf fields (together tables) v.items) }
{
    let mut all = joined_all(alloc, &batch_stats[0], &batch_stats[1])?;
    for stats in &batch_stats[2..] {
        all = joined_all(alloc, &all, stats)?;
    }
    Ok(all)
}
