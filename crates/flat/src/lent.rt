//! The nodes of a batch, over the buffers of its arrays.

ghost use Rattle.std.specs.Prelude.{◌≡◌, ◌<◌, IfOk, None, OnOk, Some, [], slice_get, true};
ghost use Rattle.std.specs.Arc.{arc_value};
ghost use Rattle.arrays.specs.Prelude.{Kind, bytes_at, field_of, is_nullable, kind_of, kind_of_field, name_of, out-RawArray, read_checked, read_lent};
ghost use Rattle.flat.specs.Content.{child_count};
ghost use Rattle.flat.specs.Format.{format_content};
ghost use Rattle.flat.specs.Lent.{ArePushed, IsNodeOver, IsTextPushed, LendsColumns, content_of_kind, dictionary_of_kind, format_of_kind};
ghost use Rattle.arrays.specs.Kind.{int, utf8};

use crate::node::Node;
use arrays::{
    Array, Buffer, DataType, Field, IntType, LentParts, NoMemory, RawArray, RecordBatch, Width,
    Words,
};
use std::alloc::Global;

/// The columns of a batch as nodes, one after the other, over the very buffers of its arrays: nothing is copied. Indices of a
/// dictionary have 32 bits, its texts no name.
pub fn nodes_of(alloc: Global, batch: &RecordBatch) -> Result<Vec<Node<'_>>, NoMemory>
    ensures { IfOk result (λ v. LendsColumns v.items batch.now.fields batch.now.columns []) }
{
    let mut nodes = Vec::new(alloc);
    let fields = batch.schema().fields();
    let columns = batch.columns();
    for k in 0..fields.len() {
        push_column(&mut nodes, &fields[k], columns[k].parts())?;
    }
    Ok(nodes)
}

/// Adds the nodes of a column.
fn push_column<'a>(
    nodes: &mut Vec<Node<'a>>,
    field: &'a Field,
    parts: LentParts<'a>,
) -> Result<(), NoMemory>
    requires { (read_lent (kind_of_field (field_of field.now)) parts).fault ≡ None }
    ensures { OnOk result (ArePushed (field_of field.now) (read_lent (kind_of_field (field_of field.now)) parts.entry) nodes.old.items nodes.new.items) }
{
    let LentParts {
        length,
        buffers,
        children,
        words,
    } = parts;
    nodes.push(node_of(field, length, u64::MAX, buffers))?;
    match &field.ty {
        DataType::List(item) | DataType::LargeList(item) => match children.first() {
            Some(child) => push_column(nodes, item, parts_of(child)),
            None => Ok(()),
        },
        DataType::Dict => match words {
            Some(words) => push_words(nodes, words),
            None => Ok(()),
        },
        DataType::Int(_) | DataType::Bool | DataType::Utf8 | DataType::LargeUtf8 => Ok(()),
    }
}

/// The parts of a list's items.
fn parts_of(raw: &RawArray) -> LentParts<'_>
    ensures { (k : Kind) → read_lent k result ≡ read_checked k (out-RawArray raw.now).length (out-RawArray raw.now).buffers.items (out-RawArray raw.now).children.items None }
{
    LentParts {
        length: raw.length,
        buffers: &raw.buffers,
        children: &raw.children,
        words: None,
    }
}

/// Adds the node of the texts of a dictionary.
fn push_words<'a>(nodes: &mut Vec<Node<'a>>, words: &'a Words) -> Result<(), NoMemory>
    ensures { OnOk result (IsTextPushed words.now nodes.old.items nodes.new.items) }
{
    let parts = words.parts();
    nodes.push(words_over(parts.length, u64::MAX, parts.buffers))?;
    Ok(())
}

/// The node of a dictionary's texts over these buffers.
pub(crate) fn words_over(length: u64, null_count: u64, buffers: &[Option<Buffer>]) -> Node<'_>
    ensures { IsNodeOver [] true utf8 length null_count buffers.now result }
{
    node_over("", true, &DataType::Utf8, length, null_count, buffers)
}

/// The node of a field over these buffers.
pub(crate) fn node_of<'a>(
    field: &'a Field,
    length: u64,
    null_count: u64,
    buffers: &'a [Option<Buffer>],
) -> Node<'a>
    ensures { IsNodeOver (name_of (field_of field.now)) (is_nullable (field_of field.now)) (kind_of_field (field_of field.now)) length null_count buffers.now result }
{
    node_over(
        &field.name,
        field.nullable,
        &field.ty,
        length,
        null_count,
        buffers,
    )
}

/// The node of a name and a type over these buffers.
fn node_over<'a>(
    name: &'a str,
    nullable: bool,
    ty: &DataType,
    length: u64,
    null_count: u64,
    buffers: &'a [Option<Buffer>],
) -> Node<'a>
    ensures { IsNodeOver name.now nullable (kind_of ty.now) length null_count buffers.now result }
{
    Node {
        format: format_of(ty),
        name: name.as_bytes(),
        nullable: u32::from(nullable),
        dictionary: dictionary_of(ty),
        children: children_of(ty),
        length,
        null_count,
        validity: bytes_at(buffers, 0),
        first: bytes_at(buffers, 1),
        second: bytes_at(buffers, 2),
    }
}

/// The bytes of a buffer, none where there is none.
fn bytes_at(buffers: &[Option<Buffer>], k: usize) -> &[u8]
    ensures { result.now ≡ bytes_at buffers.now k }
{
    match buffers.get(k) {
        Some(Some(buffer)) => buffer.bytes(),
        _ => &[],
    }
}

/// 1 where indices have a dictionary.
fn dictionary_of(ty: &DataType) -> u32
    ensures { result ≡ dictionary_of_kind (kind_of ty.now) }
{
    match ty {
        DataType::Dict => 1,
        _ => 0,
    }
}

/// How many children a node of the type has.
fn children_of(ty: &DataType) -> u64
    ensures { result ≡ child_count (content_of_kind (kind_of ty.now)) }
{
    match ty {
        DataType::List(_) | DataType::LargeList(_) => 1,
        _ => 0,
    }
}

/// The format of a type, of codes that of their numbers.
fn format_of(ty: &DataType) -> &'static [u8]
    ensures { format_content result.now ≡ Some (format_of_kind (kind_of ty.now)) }
{
    match ty {
        DataType::Int(number) => format_of_numbers(*number),
        DataType::Bool => b"b",
        DataType::Utf8 => b"u",
        DataType::LargeUtf8 => b"U",
        DataType::List(_) => b"+l",
        DataType::LargeList(_) => b"+L",
        DataType::Dict => b"i",
    }
}

/// The format of numbers of a type.
fn format_of_numbers(ty: IntType) -> &'static [u8]
    ensures { format_content result.now ≡ Some (content_of_kind (int ty)) }
{
    match (ty.bits, ty.signed) {
        (Width::W8, true) => b"c",
        (Width::W8, false) => b"C",
        (Width::W16, true) => b"s",
        (Width::W16, false) => b"S",
        (Width::W32, true) => b"i",
        (Width::W32, false) => b"I",
        (Width::W64, true) => b"l",
        (Width::W64, false) => b"L",
    }
}
