//! The record batch that nodes are.

ghost use Rattle.std.specs.Prelude.{◌≡◌, ◌⊎◌, IfErr, IfOk};
ghost use Rattle.flat.specs.Batch.{IsBatchOf, StopsColumns, StopsTogether};

use crate::columns::{Columns, all_columns};
use crate::fault::FlatFault;
use crate::node::Node;
use arrays::{RecordBatch, Schema};
use std::alloc::Global;

/// The record batch of the columns that nodes are, one after the other, of so many rows each. What is lent is copied.
///
/// # Errors
/// The first column at fault; of it the first node at fault, as of [`schema_of`](crate::schema_of), then `Layout`: the first
/// fault of its buffers, its child's behind its own. Behind all columns `Schema`, then `Batch`. `NoMemory` where a growth was
/// refused.
pub fn batch_of(alloc: Global, rows: u32, nodes: &[Node<'_>]) -> Result<RecordBatch, FlatFault>
    ensures ok { IfOk result (IsBatchOf rows nodes.now) }
    ensures err { IfErr result (λ e. StopsColumns nodes.now e ⊎ (StopsTogether rows nodes.now e ⊎ (e ≡ FlatFault.NoMemory))) }
{
    let Columns { fields, arrays } = all_columns(alloc, nodes)?;
    match Schema::new(fields) {
        Ok(schema) => match RecordBatch::new(schema, rows, arrays) {
            Ok(batch) => Ok(batch),
            Err(fault) => Err(FlatFault::Batch { fault }),
        },
        Err(fault) => Err(FlatFault::Schema { fault }),
    }
}
