//! Access to the buffers of an array, by position and slot.

ghost use Rattle.std.specs.Prelude.{◌≡◌, ◌+◌, ◌<◌};
ghost use Rattle.std.specs.Option.{option_copied};
ghost use Rattle.colbits.specs.Prelude.{bit, slice};
ghost use Rattle.layout.specs.Inner.{HasOffsets};
ghost use Rattle.layout.specs.Layout.{bytes_at, buffer_at, is_valid};
ghost use Rattle.layout.specs.Offsets.{slot_at, start_at};
ghost use Rattle.types.specs.Prelude.{number_at, offset_type};

use colbits::Buffer;
use types::OffsetWidth;

/// The bytes of the buffer at a position of the layout, if it has one.
pub fn buffer_at(buffers: &[Option<Buffer>], position: usize) -> Option<&[u8]>
    ensures { option_copied result ≡ buffer_at buffers.now position }
{
    let buffer = buffers.get(position)?.as_ref()?;
    Some(buffer.bytes())
}

/// The bytes at a position of the layout, none where there is no buffer.
pub fn bytes_at(buffers: &[Option<Buffer>], position: usize) -> &[u8]
    ensures { result.now ≡ bytes_at buffers.now position }
{
    buffer_at(buffers, position).unwrap_or(&[])
}

/// Bit `k` of the bytes, 0 where there are too few.
pub(crate) fn bit(bytes: &[u8], k: usize) -> bool
    ensures { result ≡ bit bytes.now k }
{
    k / 8 < bytes.len() && (bytes[k / 8] >> (k % 8)) & 1 == 1
}

/// Whether slot `j` is valid: its bit is 1, or there is no bitmap.
pub fn is_valid(buffers: &[Option<Buffer>], j: usize) -> bool
    ensures { result ≡ is_valid buffers.now j }
{
    match buffer_at(buffers, 0) {
        Some(validity) => bit(validity, j),
        None => true,
    }
}

/// Offset `j` of a text or list array: 0 where there are no bytes at all.
#[inline(always)]
pub(crate) fn offset_in(width: OffsetWidth, offsets: &[u8], j: usize) -> i64
    requires { HasOffsets width j offsets.now }
    ensures { result ≡ number_at (offset_type width) offsets.now j }
{
    if offsets.is_empty() {
        0
    } else {
        width.at(offsets, j)
    }
}

/// Where slot `j` of a text or list array begins, 0 for a negative offset.
#[inline(always)]
pub(crate) fn start_in(width: OffsetWidth, offsets: &[u8], j: usize) -> usize
    requires { HasOffsets width j offsets.now }
    ensures { result ≡ start_at width offsets.now j }
{
    let offset = offset_in(width, offsets, j);
    if offset < 0 { 0 } else { offset as usize }
}

/// The same, by the buffers of the array.
pub(crate) fn start_at(width: OffsetWidth, buffers: &[Option<Buffer>], j: usize) -> usize
    requires { HasOffsets width j (bytes_at buffers.now 1) }
    ensures { result ≡ start_at width (bytes_at buffers.now 1) j }
{
    start_in(width, bytes_at(buffers, 1), j)
}

/// The `len` bytes from `start` on, fewer where the bytes end before.
pub(crate) fn part(bytes: &[u8], start: usize, len: usize) -> &[u8]
    ensures { result.now ≡ slice bytes.now start len }
{
    let rest = &bytes[start.min(bytes.len())..];
    &rest[..len.min(rest.len())]
}

/// The bytes of slot `j` of a text array.
pub(crate) fn text_at(width: OffsetWidth, buffers: &[Option<Buffer>], j: usize) -> &[u8]
    requires enough { HasOffsets width (j + 1) (bytes_at buffers.now 1) }
    requires short { j < 2147483648 }
    ensures { result.now
        ≡ slot_at width (bytes_at buffers.now 1) (bytes_at buffers.now 2) j }
{
    let start = start_at(width, buffers, j);
    let end = start_at(width, buffers, j + 1);
    part(bytes_at(buffers, 2), start, end.saturating_sub(start))
}
