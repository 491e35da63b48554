//! The schema that nodes name.

ghost use Rattle.std.specs.Prelude.{◌≡◌, ◌⊎◌, [], IfErr, IfOk};
ghost use Rattle.arrays.specs.Prelude.{fields_of};
ghost use Rattle.flat.specs.Schema.{Names, StopsFields, StopsSchema};

use crate::fault::FlatFault;
use crate::fields::first_field;
use crate::node::Node;
use arrays::{Field, Schema};
use std::alloc::Global;

/// How many nodes may lie in one another: 8 lists, and what they are of.
pub(crate) const MOST_LEVELS: u32 = 9;

/// The schema of the columns that nodes are, one after the other. Lengths, null counts and buffers aren't looked at.
///
/// # Errors
/// The first column at fault; of it the first node at fault, and of that its name, its format, its children, the nodes
/// behind it. `Schema` where the fields are none. `NoMemory` where a growth was refused.
pub fn schema_of(alloc: Global, nodes: &[Node<'_>]) -> Result<Schema, FlatFault>
    ensures ok { IfOk result (λ s. Names nodes.now s []) }
    ensures err { IfErr result (λ e. StopsFields nodes.now e ⊎ (StopsSchema nodes.now e ⊎ (e ≡ FlatFault.NoMemory))) }
{
    match Schema::new(all_fields(alloc, nodes)?) {
        Ok(schema) => Ok(schema),
        Err(fault) => Err(FlatFault::Schema { fault }),
    }
}

/// The fields of the columns that nodes are.
fn all_fields(alloc: Global, nodes: &[Node<'_>]) -> Result<Vec<Field>, FlatFault>
    ensures ok { IfOk result (λ v. Names nodes.now (fields_of v.items) []) }
    ensures err { IfErr result (λ e. StopsFields nodes.now e ⊎ (e ≡ FlatFault.NoMemory)) }
{
    let mut fields = Vec::new(alloc);
    let mut at = 0;
    while at < nodes.len() {
        let (field, taken) = first_field(alloc, fields.len(), &nodes[at..], MOST_LEVELS)?;
        fields.push(field)?;
        at += taken;
    }
    Ok(fields)
}
