//! The fields that nodes name.

ghost use Rattle.std.specs.Prelude.{◌≡◌, ◌⊎◌, ◌==◌, ◌≤◌, IfErr, IfOk, None, Some, drop, length, not, string_bytes};
ghost use Rattle.arrays.specs.Prelude.{field_of, first, shape_of};
ghost use Rattle.arrays.specs.Shape as shape;
ghost use Rattle.flat.specs.Content.{content_faults, content_of, node_fault};
ghost use Rattle.flat.specs.Fields.{Begins, Stops, dictionary_fault, field_named, is_dictionary};

use crate::content::Content;
use crate::fault::FlatFault;
use crate::node::Node;
use arrays::{DataType, Field, OffsetWidth};
use std::alloc::Global;

/// The name and the content of a node.
#[derive(Drop)]
struct Head {
    name: String,
    content: Content,
}

/// The field of the column that nodes begin with, of at most so many levels, and how many of the nodes it is.
pub(crate) fn first_field(
    alloc: Global,
    column: usize,
    nodes: &[Node<'_>],
    levels: u32,
) -> Result<(Field, usize), FlatFault>
    ensures begins { IfOk result (λ c. Begins levels nodes.now (field_of c.0) (drop c.1 nodes.now)) }
    ensures some { IfOk result (λ c. 1 ≤ c.1) }
    ensures within { IfOk result (λ c. c.1 ≤ length nodes.now) }
    ensures err { IfErr result (λ e. Stops column levels nodes.now e ⊎ (e ≡ FlatFault.NoMemory)) }
{
    if levels == 0 {
        return Err(FlatFault::TooDeep { column });
    }
    let Some((node, behind)) = nodes.split_first() else {
        return Err(FlatFault::MissingNode { column });
    };
    let Head { name, content } = head_of(alloc, column, node)?;
    match content {
        Content::Int(ty) => Ok((field(node, name, DataType::Int(ty)), 1)),
        Content::Bool => Ok((field(node, name, DataType::Bool), 1)),
        Content::Texts(width) => Ok((field(node, name, DataType::of_texts(width)), 1)),
        Content::Codes(_) => {
            check_dictionary(column, behind)?;
            Ok((field(node, name, DataType::Dict), 2))
        }
        Content::Lists(width) => {
            let (item, taken) = first_field(alloc, column, behind, levels - 1)?;
            let item = Box::new(alloc, item)?;
            let ty = DataType::of_lists(width, item);
            Ok((field(node, name, ty), taken + 1))
        }
    }
}

/// The name and the content of a node.
fn head_of(alloc: Global, column: usize, node: &Node<'_>) -> Result<Head, FlatFault>
    ensures name { IfOk result (λ h. string_bytes h.name ≡ node.now.name.now) }
    ensures content { IfOk result (λ h. content_of node.now ≡ Some h.content) }
    ensures lawful { IfOk result (λ _. node_fault column node.now ≡ None) }
    ensures err { IfErr result (λ e. (node_fault column node.now ≡ Some e) ⊎ (e ≡ FlatFault.NoMemory)) }
{
    let Ok(text) = simdutf8::basic::from_utf8(node.name) else {
        return Err(FlatFault::NameNotUtf8 { column });
    };
    let content = content_of(column, node)?;
    let name = String::from_str(alloc, text)?;
    Ok(Head { name, content })
}

/// What a node holds.
fn content_of(column: usize, node: &Node<'_>) -> Result<Content, FlatFault>
    ensures ok { IfOk result (λ c. content_of node.now ≡ Some c) }
    ensures lawful { IfOk result (λ c. first (content_faults column node.now) ≡ None) }
    ensures err { IfErr result (λ e. first (content_faults column node.now) ≡ Some e) }
{
    let Some(content) = Content::of_format(node.format) else {
        return Err(FlatFault::UnknownFormat { column });
    };
    match content.with(node.children, node.dictionary) {
        Some(content) => Ok(content),
        None => Err(FlatFault::ChildrenDiffer { column }),
    }
}

/// Whether the nodes behind one of indices begin with a dictionary.
fn check_dictionary(column: usize, behind: &[Node<'_>]) -> Result<(), FlatFault>
    ensures ok { IfOk result (λ _. dictionary_fault column behind.now ≡ None) }
    ensures err { IfErr result (λ e. dictionary_fault column behind.now ≡ Some e) }
{
    let Some(node) = behind.first() else {
        return Err(FlatFault::MissingNode { column });
    };
    if is_dictionary(node) {
        Ok(())
    } else {
        Err(FlatFault::ChildrenDiffer { column })
    }
}

/// Whether a node has texts with offsets of 32 bits.
fn is_dictionary(node: &Node<'_>) -> bool
    ensures { result ≡ is_dictionary (content_of node.now) }
{
    match node.content() {
        Some(Content::Texts(width)) => match width {
            OffsetWidth::Narrow => true,
            OffsetWidth::Wide => false,
        },
        _ => false,
    }
}

/// The field of a node's name that is of this type.
fn field(node: &Node<'_>, name: String, ty: DataType) -> Field
    requires { string_bytes name ≡ node.now.name.now }
    ensures { field_of result ≡ field_named node.now (shape_of ty) }
{
    Field {
        name,
        nullable: node.nullable != 0,
        ty,
    }
}
