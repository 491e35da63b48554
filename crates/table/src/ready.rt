//! A batch that is made ready for a table before the table is looked at.

ghost use Rattle.std.specs.Prelude.{◌≡◌, IfOk};
ghost use Rattle.std.specs.Arc.{arc_value};
ghost use Rattle.answers.specs.Prelude.{AreTheirs};

use answers::{ColumnStats, stats_of_all};
use arrays::{NoMemory, RecordBatch};
use std::alloc::Global;
use std::marker::Model;
use std::sync::Arc;

/// A batch, whose columns are shared, with its statistics: all that needs no table. A table that lies under a lock is handed
/// one, so that the lock is held no longer than it must.
///
/// Clauses see the batch.
#[derive(Drop)]
pub struct Ready {
    batch: RecordBatch,
    /// The statistics of each column.
    batch_stats: Arc<Vec<ColumnStats>>,
}

impl Model for Ready {
    ghost use Rattle.arrays.specs.Batch.{Batch, batch_code};

    ghost Value = { Batch };

    ghost coded = { batch_code };

    ghost use Rattle.std.specs.Arc.{arc_value};
    ghost use Rattle.answers.specs.Prelude.{AreTheirs};

    ghost view = { λ r. r.batch };

    ghost invariant = { λ r. AreTheirs r.batch.columns (arc_value r.batch_stats).items };
}

impl Ready {
    /// The batch, made ready.
    pub fn new(alloc: Global, batch: &RecordBatch) -> Result<Ready, NoMemory>
        ensures { IfOk result (λ r. r ≡ batch.now) }
    {
        let batch = batch.copy(alloc)?;
        let batch_stats = shared_stats(alloc, &batch)?;
        Ok(Ready { batch, batch_stats })
    }

    /// The batch.
    pub fn batch(&self) -> &RecordBatch
        ensures { result.now ≡ self.now }
    {
        &self.batch
    }

    /// How many rows the batch has.
    pub fn rows(&self) -> u32
        ensures { result ≡ self.now.rows }
    {
        self.batch.rows()
    }

    /// The batch, and the statistics of its columns.
    pub(crate) fn parts(self) -> (RecordBatch, Arc<Vec<ColumnStats>>)
        ensures batch { result.0 ≡ self }
        ensures stats { AreTheirs self.columns (arc_value result.1).items }
    {
        let Ready { batch, batch_stats } = self;
        (batch, batch_stats)
    }
}

/// The statistics of each column of a batch, to be shared.
pub(crate) fn shared_stats(
    alloc: Global,
    batch: &RecordBatch,
) -> Result<Arc<Vec<ColumnStats>>, NoMemory>
    ensures { IfOk result (λ s. AreTheirs batch.now.columns (arc_value s).items) }
{
    let stats = stats_of_all(alloc, batch.columns())?;
    Ok(Arc::new(alloc, stats)?)
}
