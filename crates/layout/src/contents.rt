//! The tests of what the buffers hold, one function a fault: each gives what its definition says, where
//! the buffers are long enough.

ghost use Rattle.std.specs.Prelude.{◌≡◌, ℕ, ◌+◌, ◌*◌, ◌<◌, ◌≤◌, true, false, not, length, int_lt, IsTrue};
ghost use Rattle.std.specs.List.{count_by, list_any, range_with_len};
ghost use Rattle.colbits.specs.Bit.{bit};
ghost use Rattle.layout.specs.Inner.{HasOffsets, inner_children, inner_dictionary};
ghost use Rattle.types.specs.Prelude.{is_negative, kind_of, number_at, offset_type};
ghost use Rattle.layout.specs.Fault.{bad_code_row, bad_text_row, decreasing_row, does_count_differ, has_negative_offset, is_data_short, is_no_code, is_no_text, is_past_end, is_validity_short, least_row, null_count};
ghost use Rattle.layout.specs.Offsets.{slot_at};
ghost use Rattle.std.specs.Str.{is_utf8};
ghost use Rattle.layout.specs.Layout.{buffer_at, bytes_at};

use crate::buffers::{buffer_at, bytes_at, is_valid, offset_in, start_at, start_in, text_at};
use crate::raw::RawArray;
use crate::shapes::{child_length, entry_count};
use colbits::{Bits, Buffer};
use types::{DataType, OffsetWidth, int32_at};

/// Whether offset `j` is below 0.
#[inline(always)]
fn is_negative(width: OffsetWidth, offsets: &[u8], j: usize) -> bool
    requires { HasOffsets width j offsets.now }
    ensures { result ≡ is_negative (number_at (offset_type width) offsets.now j) }
{
    offset_in(width, offsets, j) < 0
}

/// Whether the offset after slot `j`'s is below it.
#[inline(always)]
fn is_decreasing(width: OffsetWidth, offsets: &[u8], j: usize) -> bool
    requires enough { HasOffsets width (j + 1) offsets.now }
    requires short { j < 2147483648 }
    ensures { result ≡ int_lt (number_at (offset_type width) offsets.now (j + 1)) (number_at (offset_type width) offsets.now j) }
{
    offset_in(width, offsets, j + 1) < offset_in(width, offsets, j)
}

/// Whether some offset of `n` slots is below 0.
fn is_some_negative(width: OffsetWidth, offsets: &[u8], n: usize) -> bool
    requires enough { HasOffsets width n offsets.now }
    requires short { n < 2147483648 }
    ensures { result ≡ list_any (λ j. is_negative (number_at (offset_type width) offsets.now j)) (range_with_len 0 (n + 1)) }
{
    for j in 0..n + 1 {
        if is_negative(width, offsets, j) {
            return true;
        }
    }
    false
}

/// The least slot that ends before it begins.
fn least_decreasing(width: OffsetWidth, offsets: &[u8], n: usize) -> Option<usize>
    requires enough { HasOffsets width n offsets.now }
    requires short { n < 2147483648 }
    ensures { result
        ≡ least_row (λ j. int_lt (number_at (offset_type width) offsets.now (j + 1)) (number_at (offset_type width) offsets.now j)) n }
{
    for j in 0..n {
        if is_decreasing(width, offsets, j) {
            return Some(j);
        }
    }
    None
}

/// How many of the first `n` bits are 0.
fn zero_bits(bytes: &[u8], n: usize) -> usize
    requires { n ≤ 8 * length bytes.now }
    ensures { result ≡ count_by (λ j. not (bit bytes.now j)) (range_with_len 0 n) }
{
    n - Bits::new(bytes, 0, n).count_ones()
}

/// How many of `n` slots aren't valid: none where there is no bitmap.
fn null_count(buffers: &[Option<Buffer>], n: usize) -> usize
    requires { is_validity_short n (buffer_at buffers.now 0) ≡ false }
    ensures { result ≡ null_count n buffers.now }
{
    match buffer_at(buffers, 0) {
        Some(validity) => zero_bits(validity, n),
        None => 0,
    }
}

/// Whether slot `j` is valid and its bytes aren't UTF-8.
fn is_no_text(width: OffsetWidth, buffers: &[Option<Buffer>], j: usize) -> bool
    requires enough { HasOffsets width (j + 1) (bytes_at buffers.now 1) }
    requires short { j < 2147483648 }
    ensures { result ≡ is_no_text width buffers.now j }
{
    is_valid(buffers, j) && !simdutf8::is_utf8(text_at(width, buffers, j))
}

/// The least of `n` slots that is no text.
fn least_no_text(width: OffsetWidth, buffers: &[Option<Buffer>], n: usize) -> Option<usize>
    requires enough { HasOffsets width n (bytes_at buffers.now 1) }
    requires short { n < 2147483648 }
    ensures { result ≡ least_row (is_no_text width buffers.now) n }
{
    if are_texts(width, bytes_at(buffers, 1), bytes_at(buffers, 2), n) {
        return None;
    }
    for j in 0..n {
        if is_no_text(width, buffers, j) {
            return Some(j);
        }
    }
    None
}

/// Whether all bytes are UTF-8 as one text, and `n` slots begin and end between its characters: then each slot is a text,
/// whether it is valid or not, and one pass over the bytes has shown it.
fn are_texts(width: OffsetWidth, offsets: &[u8], bytes: &[u8], n: usize) -> bool
    requires enough { HasOffsets width n offsets.now }
    requires short { n < 2147483648 }
    ensures { IsTrue result → (j : ℕ) → j < n → is_utf8 (slot_at width offsets.now bytes.now j) ≡ true }
{
    let Ok(text) = simdutf8::basic::from_utf8(bytes) else {
        return false;
    };
    let edges = n + 1;
    for edge in 0..edges {
        if !text.is_char_boundary(start_in(width, offsets, edge)) {
            return false;
        }
    }
    true
}

/// Whether slot `j` is valid and its index is negative or not below the number of entries.
fn is_no_code(buffers: &[Option<Buffer>], entries: u64, j: usize) -> bool
    requires { 4 * j + 4 ≤ length (bytes_at buffers.now 1) }
    ensures { result ≡ is_no_code buffers.now entries j }
{
    if !is_valid(buffers, j) {
        return false;
    }
    let code = int32_at(bytes_at(buffers, 1), j);
    code < 0 || code as u64 >= entries
}

/// The least of `n` slots whose index names no entry.
fn least_no_code(buffers: &[Option<Buffer>], entries: u64, n: usize) -> Option<usize>
    requires { n * 4 ≤ length (bytes_at buffers.now 1) }
    ensures { result ≡ least_row (is_no_code buffers.now entries) n }
{
    for j in 0..n {
        if is_no_code(buffers, entries, j) {
            return Some(j);
        }
    }
    None
}

/// Whether some offset is below 0.
pub(crate) fn has_negative_offset(ty: &DataType, n: usize, buffers: &[Option<Buffer>]) -> bool
    requires short { n < 2147483648 }
    requires enough { is_data_short (kind_of ty.now) n buffers.now ≡ false }
    ensures { result ≡ has_negative_offset (kind_of ty.now) n buffers.now }
{
    match ty.offset_width() {
        Some(width) => is_some_negative(width, bytes_at(buffers, 1), n),
        None => false,
    }
}

/// The least slot that ends before it begins.
pub(crate) fn decreasing_row(ty: &DataType, n: usize, buffers: &[Option<Buffer>]) -> Option<usize>
    requires short { n < 2147483648 }
    requires enough { is_data_short (kind_of ty.now) n buffers.now ≡ false }
    ensures { result ≡ decreasing_row (kind_of ty.now) n buffers.now }
{
    match ty.offset_width() {
        Some(width) => least_decreasing(width, bytes_at(buffers, 1), n),
        None => None,
    }
}

/// Whether the last offset is past the bytes, or past the child's length.
pub(crate) fn is_past_end(
    ty: &DataType,
    n: usize,
    buffers: &[Option<Buffer>],
    children: &[RawArray],
) -> bool
    requires short { n < 2147483648 }
    requires enough { is_data_short (kind_of ty.now) n buffers.now ≡ false }
    ensures { result ≡ is_past_end (kind_of ty.now) n buffers.now (inner_children children.now) }
{
    let Some(width) = ty.offset_width() else {
        return false;
    };
    let values = match ty.text_width() {
        Some(_) => bytes_at(buffers, 2).len() as u64,
        None => child_length(children),
    };
    values < start_at(width, buffers, n) as u64
}

/// Whether a null count is stated and isn't the number of slots that aren't valid.
pub(crate) fn does_count_differ(stated: Option<u64>, n: usize, buffers: &[Option<Buffer>]) -> bool
    requires { is_validity_short n (buffer_at buffers.now 0) ≡ false }
    ensures { result ≡ does_count_differ stated n buffers.now }
{
    match stated {
        Some(stated) => stated != null_count(buffers, n) as u64,
        None => false,
    }
}

/// The least valid slot whose bytes aren't UTF-8.
pub(crate) fn bad_text_row(ty: &DataType, n: usize, buffers: &[Option<Buffer>]) -> Option<usize>
    requires short { n < 2147483648 }
    requires enough { is_data_short (kind_of ty.now) n buffers.now ≡ false }
    ensures { result ≡ bad_text_row (kind_of ty.now) n buffers.now }
{
    least_no_text(ty.text_width()?, buffers, n)
}

/// The least valid slot whose index names no entry of the dictionary.
pub(crate) fn bad_code_row(
    ty: &DataType,
    n: usize,
    buffers: &[Option<Buffer>],
    dictionary: &Option<Box<RawArray>>,
) -> Option<usize>
    requires { is_data_short (kind_of ty.now) n buffers.now ≡ false }
    ensures { result
        ≡ bad_code_row (kind_of ty.now) n buffers.now (inner_dictionary dictionary.now) }
{
    match ty {
        DataType::Dict => least_no_code(buffers, entry_count(dictionary), n),
        _ => None,
    }
}
