//! Copies of statistics.

ghost use Rattle.std.specs.Prelude.{◌≡◌, IfOk, option_map};
ghost use Rattle.group.specs.Summary.{AreSame, scalar_item};

use crate::scalar_ref::ScalarRef;
use crate::stats::{ColumnStats, Scalar};
use arrays::NoMemory;
use std::alloc::Global;

impl ColumnStats {
    /// A copy of the statistics, its texts too.
    pub fn copy(&self, alloc: Global) -> Result<ColumnStats, NoMemory>
        ensures { IfOk result (λ s. AreSame s self.now) }
    {
        Ok(ColumnStats {
            rows: self.rows,
            nulls: self.nulls,
            sum: self.sum,
            least: copied(alloc, &self.least)?,
            greatest: copied(alloc, &self.greatest)?,
        })
    }
}

/// A copy of a scalar, if there is one.
pub fn copied(alloc: Global, value: &Option<Scalar>) -> Result<Option<Scalar>, NoMemory>
    ensures { IfOk result (λ s. option_map scalar_item s ≡ option_map scalar_item value.now) }
{
    ScalarRef::of(value).to_scalar(alloc)
}
