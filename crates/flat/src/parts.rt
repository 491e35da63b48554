//! The parts of nodes as arrays, copied.

ghost use Rattle.std.specs.Prelude.{◌≡◌, IfOk, map, option_map};
ghost use Rattle.arrays.specs.Prelude.{kind_of, read_parts, reading};
ghost use Rattle.flat.specs.Content.{content_of};
ghost use Rattle.flat.specs.Parts.{buffers_given, codes_of, read_codes, read_column, read_dictionary, read_node, stated, validity_given};

use crate::codes::codes;
use crate::content::Content;
use crate::node::Node;
use arrays::{Buffer, DataType, NoMemory, RawArray};
use std::alloc::Global;

/// The parts of a node as a column of the type, with those of the nodes behind it that lie in the column.
pub(crate) fn raw_column(
    alloc: Global,
    ty: &DataType,
    node: &Node<'_>,
    behind: &[Node<'_>],
) -> Result<RawArray, NoMemory>
    ensures { IfOk result (λ raw. reading raw ≡ read_column (kind_of ty.now) node.now behind.now) }
{
    match ty {
        DataType::Int(_) | DataType::Bool | DataType::Utf8 | DataType::LargeUtf8 => {
            raw_node(alloc, copy_of(alloc, ty)?, node, Vec::new(alloc))
        }
        DataType::Dict => raw_codes(alloc, node, behind),
        DataType::List(item) | DataType::LargeList(item) => match behind.split_first() {
            Some((child, rest)) => {
                let child = raw_column(alloc, &item.ty, child, rest)?;
                raw_node(alloc, copy_of(alloc, ty)?, node, vec![in alloc; child]?)
            }
            None => raw_node(alloc, copy_of(alloc, ty)?, node, Vec::new(alloc)),
        },
    }
}

/// A copy of the type.
fn copy_of(alloc: Global, ty: &DataType) -> Result<DataType, NoMemory>
    ensures { IfOk result (λ t. kind_of t ≡ kind_of ty.now) }
{
    ty.copy(alloc)
}

/// A node's parts as an array of the type over these children.
fn raw_node(
    alloc: Global,
    ty: DataType,
    node: &Node<'_>,
    children: Vec<RawArray>,
) -> Result<RawArray, NoMemory>
    ensures { IfOk result (λ raw. reading raw ≡ read_node (kind_of ty) node.now (map reading children.items)) }
{
    let buffers = buffers(alloc, &ty, node)?;
    Ok(raw_of(ty, node, buffers, children, None))
}

/// A node's indices as codes, with the texts of the node behind it.
fn raw_codes(alloc: Global, node: &Node<'_>, behind: &[Node<'_>]) -> Result<RawArray, NoMemory>
    ensures { IfOk result (λ raw. reading raw ≡ read_codes node.now (read_dictionary behind.now)) }
{
    let validity = validity_of(alloc, node.validity)?;
    let codes = codes_in(alloc, node)?;
    let buffers = vec![in alloc; validity, Some(codes)]?;
    let dictionary = raw_dictionary(alloc, behind)?;
    Ok(raw_of(DataType::Dict, node, buffers, Vec::new(alloc), dictionary))
}

/// A node's length and null count with the other parts of its array.
fn raw_of(
    ty: DataType,
    node: &Node<'_>,
    buffers: Vec<Option<Buffer>>,
    children: Vec<RawArray>,
    dictionary: Option<Box<RawArray>>,
) -> RawArray
    ensures { reading result ≡ read_parts (kind_of ty) node.now.length (stated node.now.null_count) buffers.items (map reading children.items)
        (option_map (λ d. reading d.value) dictionary) }
{
    RawArray {
        ty,
        length: node.length,
        null_count: stated_count(node.null_count),
        buffers,
        children,
        dictionary,
    }
}

/// The texts of the first node, none where there is no node.
fn raw_dictionary(alloc: Global, nodes: &[Node<'_>]) -> Result<Option<Box<RawArray>>, NoMemory>
    ensures { IfOk result (λ d. option_map (λ b. reading b.value) d ≡ read_dictionary nodes.now) }
{
    let Some(node) = nodes.first() else {
        return Ok(None);
    };
    let texts = raw_node(alloc, DataType::Utf8, node, Vec::new(alloc))?;
    Ok(Some(Box::new(alloc, texts)?))
}

/// The codes of a node's indices.
fn codes_in(alloc: Global, node: &Node<'_>) -> Result<Buffer, NoMemory>
    ensures { IfOk result (λ b. b ≡ codes_of (content_of node.now) node.now.first.now) }
{
    match node.content() {
        Some(Content::Codes(ty)) => codes(alloc, ty, node.first),
        _ => Buffer::from_bytes(alloc, &[]),
    }
}

/// The buffers that the type's layout names.
fn buffers(alloc: Global, ty: &DataType, node: &Node<'_>) -> Result<Vec<Option<Buffer>>, NoMemory>
    ensures { IfOk result (λ v. v.items ≡ buffers_given (kind_of ty.now) node.now) }
{
    let validity = validity_of(alloc, node.validity)?;
    let first = Buffer::from_bytes(alloc, node.first)?;
    if ty.text_width().is_some() {
        let second = Buffer::from_bytes(alloc, node.second)?;
        return Ok(vec![in alloc; validity, Some(first), Some(second)]?);
    }
    Ok(vec![in alloc; validity, Some(first)]?)
}

/// A validity, none where there are no bytes.
fn validity_of(alloc: Global, bytes: &[u8]) -> Result<Option<Buffer>, NoMemory>
    ensures { IfOk result (λ b. b ≡ validity_given bytes.now) }
{
    if bytes.is_empty() {
        return Ok(None);
    }
    Ok(Some(Buffer::from_bytes(alloc, bytes)?))
}

/// The number of nulls, none where it isn't known.
fn stated_count(null_count: u64) -> Option<u64>
    ensures { result ≡ stated null_count }
{
    if null_count == u64::MAX {
        None
    } else {
        Some(null_count)
    }
}
