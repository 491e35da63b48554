//! The tests of lengths and shapes, one function a fault: each gives what its definition says.

ghost use Rattle.std.specs.Prelude.{◌≡◌, ◌<◌, length, nat_lt};
ghost use Rattle.layout.specs.Inner.{inner_children, inner_dictionary};
ghost use Rattle.types.specs.Kind.{kind_of};
ghost use Rattle.layout.specs.Fault.{are_offsets_short, bytes_for, child_length, do_parts_differ, entry_count, is_data_short, is_missing, is_no_child, is_no_dictionary, is_validity_short, positions};
ghost use Rattle.layout.specs.Layout.{bytes_at, buffer_at};

use crate::buffers::{buffer_at, bytes_at};
use crate::raw::RawArray;
use colbits::Buffer;
use types::{DataType, OffsetWidth, is_same};

/// How many positions the layout of the type has.
fn positions(ty: &DataType) -> usize
    ensures { result ≡ positions (kind_of ty.now) }
{
    match ty.text_width() {
        Some(_) => 3,
        None => 2,
    }
}

/// Whether a position of the layout is missing, or holds no buffer and isn't the validity.
pub(crate) fn is_missing(ty: &DataType, buffers: &[Option<Buffer>]) -> bool
    ensures { result ≡ is_missing (kind_of ty.now) buffers.now }
{
    let positions = positions(ty);
    buffers.len() < positions || buffers[1..positions].iter().any(|part| part.is_none())
}

/// Whether there are more positions than the layout names.
pub(crate) fn is_extra(ty: &DataType, buffers: &[Option<Buffer>]) -> bool
    ensures { result ≡ nat_lt (positions (kind_of ty.now)) (length buffers.now) }
{
    buffers.len() > positions(ty)
}

/// How many bytes hold `n` bits.
fn bytes_for(n: usize) -> usize
    ensures { result ≡ bytes_for n }
{
    n.div_ceil(8)
}

/// Whether the bitmap, if there is one, has fewer than `n` bits.
pub(crate) fn is_validity_short(buffers: &[Option<Buffer>], n: usize) -> bool
    ensures { result ≡ is_validity_short n (buffer_at buffers.now 0) }
{
    match buffer_at(buffers, 0) {
        Some(validity) => validity.len() < bytes_for(n),
        None => false,
    }
}

/// Whether the offsets of `n` slots are fewer than one more. None may stand for the one offset 0.
fn are_offsets_short(width: OffsetWidth, offsets: &[u8], n: usize) -> bool
    requires { n < 2147483648 }
    ensures { result ≡ are_offsets_short width n offsets.now }
{
    offsets.len() < (n + 1) * width.bytes() && !(n == 0 && offsets.is_empty())
}

/// Whether the bytes behind the validity are fewer than `n` slots need.
pub(crate) fn is_data_short(ty: &DataType, n: usize, buffers: &[Option<Buffer>]) -> bool
    requires { n < 2147483648 }
    ensures { result ≡ is_data_short (kind_of ty.now) n buffers.now }
{
    let bytes = bytes_at(buffers, 1);
    match ty {
        DataType::Int(int) => bytes.len() < n * int.bits.bytes(),
        DataType::Bool => bytes.len() < bytes_for(n),
        DataType::Utf8 | DataType::List(_) => are_offsets_short(OffsetWidth::Narrow, bytes, n),
        DataType::LargeUtf8 | DataType::LargeList(_) => {
            are_offsets_short(OffsetWidth::Wide, bytes, n)
        }
        DataType::Dict => bytes.len() < n * 4,
    }
}

/// Whether these aren't the one child of a list whose items have the type `item`.
fn is_no_child(item: &DataType, children: &[RawArray]) -> bool
    ensures { result ≡ is_no_child (kind_of item.now) (inner_children children.now) }
{
    match children {
        [child] => !is_same(item, &child.ty) || matches!(item, DataType::Dict),
        _ => true,
    }
}

/// Whether there is no dictionary of texts.
fn is_no_dictionary(dictionary: &Option<Box<RawArray>>) -> bool
    ensures { result ≡ is_no_dictionary (inner_dictionary dictionary.now) }
{
    match dictionary {
        Some(entries) => !matches!(entries.ty, DataType::Utf8),
        None => true,
    }
}

/// Whether children or dictionary aren't those of the type.
pub(crate) fn do_parts_differ(
    ty: &DataType,
    children: &[RawArray],
    dictionary: &Option<Box<RawArray>>,
) -> bool
    ensures { result
        ≡ do_parts_differ (kind_of ty.now) (inner_children children.now) (inner_dictionary dictionary.now) }
{
    match ty {
        DataType::List(item) | DataType::LargeList(item) => {
            is_no_child(&item.ty, children) || dictionary.is_some()
        }
        DataType::Dict => !children.is_empty() || is_no_dictionary(dictionary),
        _ => !children.is_empty() || dictionary.is_some(),
    }
}

/// The length of the first child.
pub(crate) fn child_length(children: &[RawArray]) -> u64
    ensures { result ≡ child_length (inner_children children.now) }
{
    match children {
        [child, ..] => child.length,
        [] => 0,
    }
}

/// How many entries the dictionary has.
pub(crate) fn entry_count(dictionary: &Option<Box<RawArray>>) -> u64
    ensures { result ≡ entry_count (inner_dictionary dictionary.now) }
{
    match dictionary {
        Some(entries) => entries.length,
        None => 0,
    }
}
