//! The columns that nodes are.

ghost use Rattle.std.specs.Prelude.{◌≡◌, ◌≢◌, ◌⊎◌, ◌≤◌, ◌++◌, ◌∷◌, [], IfErr, IfOk, OnOk, drop, length};
ghost use Rattle.arrays.specs.Prelude.{field_of, fields_of};
ghost use Rattle.flat.specs.Batch.{IsColumn, StopsArray, StopsColumn, StopsColumns, Takes};
ghost use Rattle.flat.specs.Fields.{Begins};
ghost use Rattle.flat.specs.Schema.{most_levels};

use crate::fault::FlatFault;
use crate::fields::first_field;
use crate::node::Node;
use crate::parts::raw_column;
use crate::schema::MOST_LEVELS;
use arrays::{Array, Field, LayoutFault, validate};
use std::alloc::Global;

/// Fields and their arrays, side by side.
#[derive(Drop)]
pub(crate) struct Columns {
    pub(crate) fields: Vec<Field>,
    pub(crate) arrays: Vec<Array>,
}

impl Columns {
    fn push(&mut self, field: Field, array: Array) -> Result<(), FlatFault>
        ensures fields { OnOk result (fields_of self.new.fields.items ≡ fields_of self.old.fields.items ++ field_of field ∷ []) }
        ensures arrays { OnOk result (self.new.arrays.items ≡ self.old.arrays.items ++ array ∷ []) }
        ensures err { IfErr result (λ e. e ≡ FlatFault.NoMemory) }
    {
        self.fields.push(field)?;
        self.arrays.push(array)?;
        Ok(())
    }
}

/// The columns that nodes are, one after the other.
pub(crate) fn all_columns(alloc: Global, nodes: &[Node<'_>]) -> Result<Columns, FlatFault>
    ensures ok { IfOk result (λ c. Takes nodes.now (fields_of c.fields.items) c.arrays.items []) }
    ensures err { IfErr result (λ e. StopsColumns nodes.now e ⊎ (e ≡ FlatFault.NoMemory)) }
{
    let mut columns = Columns {
        fields: Vec::new(alloc),
        arrays: Vec::new(alloc),
    };
    let mut at = 0;
    while at < nodes.len() {
        let (field, array, taken) = first_column(alloc, columns.fields.len(), &nodes[at..])?;
        columns.push(field, array)?;
        at += taken;
    }
    Ok(columns)
}

/// The field and the array of the column that nodes begin with, and how many of them it is.
fn first_column(
    alloc: Global,
    column: usize,
    nodes: &[Node<'_>],
) -> Result<(Field, Array, usize), FlatFault>
    ensures begins { IfOk result (λ c. Begins most_levels nodes.now (field_of c.0) (drop c.2 nodes.now)) }
    ensures shows { IfOk result (λ c. IsColumn nodes.now (field_of c.0) c.1) }
    ensures some { IfOk result (λ c. 1 ≤ c.2) }
    ensures within { IfOk result (λ c. c.2 ≤ length nodes.now) }
    ensures err { IfErr result (λ e. StopsColumn column nodes.now e ⊎ (e ≡ FlatFault.NoMemory)) }
{
    let Some((node, behind)) = nodes.split_first() else {
        return Err(FlatFault::MissingNode { column });
    };
    let (field, taken) = first_field(alloc, column, nodes, MOST_LEVELS)?;
    let array = array_of(alloc, column, &field, node, behind)?;
    Ok((field, array, taken))
}

/// The array of the field's type that a node begins.
fn array_of(
    alloc: Global,
    column: usize,
    field: &Field,
    node: &Node<'_>,
    behind: &[Node<'_>],
) -> Result<Array, FlatFault>
    ensures ok { IfOk result (IsColumn (node.now ∷ behind.now) (field_of field.now)) }
    ensures err { IfErr result (λ e. StopsArray column (node.now ∷ behind.now) (field_of field.now) e ⊎ (e ≡ FlatFault.NoMemory)) }
{
    let raw = raw_column(alloc, &field.ty, node, behind)?;
    match validate(alloc, raw) {
        Ok(array) => Ok(array),
        Err(fault) => Err(layout_fault(column, fault)),
    }
}

/// A fault of a column's buffers, or of the memory for them.
fn layout_fault(column: usize, fault: LayoutFault) -> FlatFault
    ensures { ((fault ≡ LayoutFault.NoMemory) × (result ≡ FlatFault.NoMemory))
        ⊎ ((fault ≢ LayoutFault.NoMemory) × (result ≡ FlatFault.Layout column fault)) }
{
    match fault {
        LayoutFault::NoMemory => FlatFault::NoMemory,
        _ => FlatFault::Layout { column, fault },
    }
}
