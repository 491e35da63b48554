//! The parts of a column of texts or lists that come before its values.

use colbits::Buffer;
use types::OffsetWidth;

/// Slots by their offsets: slot `j` holds the values from offset `j` up to offset `j + 1`.
#[derive(Drop)]
pub struct OffsetSlots {
    /// How wide the offsets are.
    pub width: OffsetWidth,
    /// How many slots there are.
    pub len: u32,
    /// A bit for each slot, 1 where it is valid; none where all of them are.
    pub validity: Option<Buffer>,
    /// The offsets, little-endian: one more than there are slots.
    pub offsets: Buffer,
}
