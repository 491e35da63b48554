//! The nodes of a schema, without rows.

ghost use Rattle.std.specs.Prelude.{IfOk, OnOk, []};
ghost use Rattle.flat.specs.Lent.{LendsFields};
ghost use Rattle.flat.specs.Named.{AreNamed, AreTextsNamed};
ghost use Rattle.arrays.specs.Prelude.{field_of};

use crate::lent::{node_of, words_over};
use crate::node::Node;
use arrays::{DataType, Field, NoMemory, Schema};
use std::alloc::Global;

/// The columns of a schema as nodes, one after the other, as those of its batches are lent ([`nodes_of`](crate::nodes_of)), but without
/// rows. What they name is the schema ([`schema_of`](crate::schema_of)).
pub fn fields_of(alloc: Global, schema: &Schema) -> Result<Vec<Node<'_>>, NoMemory>
    ensures { IfOk result (λ v. LendsFields v.items schema.now []) }
{
    let mut nodes = Vec::new(alloc);
    let fields = schema.fields();
    for k in 0..fields.len() {
        push_field(&mut nodes, &fields[k])?;
    }
    Ok(nodes)
}

/// Adds the nodes of a field.
fn push_field<'a>(nodes: &mut Vec<Node<'a>>, field: &'a Field) -> Result<(), NoMemory>
    ensures { OnOk result (AreNamed (field_of field.now) nodes.old.items nodes.new.items) }
{
    nodes.push(node_of(field, 0, 0, &[]))?;
    match &field.ty {
        DataType::List(item) | DataType::LargeList(item) => push_field(nodes, item),
        DataType::Dict => push_texts(nodes),
        DataType::Int(_) | DataType::Bool | DataType::Utf8 | DataType::LargeUtf8 => Ok(()),
    }
}

/// Adds the node of the texts of a dictionary.
fn push_texts(nodes: &mut Vec<Node<'_>>) -> Result<(), NoMemory>
    ensures { OnOk result (AreTextsNamed nodes.old.items nodes.new.items) }
{
    nodes.push(words_over(0, 0, &[]))?;
    Ok(())
}
