//! Offsets of texts and lists, as numbers.

ghost use Rattle.std.specs.Prelude.{◌≡◌, ◌+◌, ◌<◌, ◌≤◌, ℕ, false, length};
ghost use Rattle.types.specs.Prelude.{is_negative, most_of, most_slots, number_at, offset_type};
ghost use Rattle.layout.specs.Fault.{are_offsets_short};
ghost use Rattle.layout.specs.Offsets.{AreBytesOf, offsets_in, start_of};

use crate::buffers::part;
use std::marker::Model;
use types::OffsetWidth;

/// Where the slots of texts or lists begin and where the last one ends: one number more than there are slots.
#[derive(Drop)]
pub struct Offsets<'a> {
    width: OffsetWidth,
    /// The numbers, little-endian.
    bytes: &'a [u8],
    slots: u32,
}

impl<'a> Model for Offsets<'a> {
    ghost use Rattle.std.specs.Prelude.{◌≡◌, ◌+◌, ◌*◌, ◌≤◌, ℕ, List, false, length};
    ghost use Rattle.types.specs.Prelude.{is_negative, number_at, offset_type, size_of};
    ghost use Rattle.layout.specs.Offsets.{offsets_in};

    ghost Value = { List ℕ };

    ghost view = { λ o. offsets_in o.width o.bytes.now 0 o.slots };

    ghost invariant = { λ o. ((o.slots + 1) * size_of o.width ≤ length o.bytes.now)
        × ((j : ℕ) → j ≤ o.slots → is_negative (number_at (offset_type o.width) o.bytes.now j) ≡ false) };
}

impl<'a> Offsets<'a> {
    /// The offsets of so many slots from slot `start` on: the one offset 0 where there are no bytes.
    pub fn new(width: OffsetWidth, bytes: &'a [u8], start: usize, slots: u32) -> Offsets<'a>
        requires enough { are_offsets_short width (start + slots) bytes.now ≡ false }
        requires counted { (j : ℕ) → j ≤ start + slots → is_negative (number_at (offset_type width) bytes.now j) ≡ false }
        requires short { start + slots ≤ most_slots }
        ensures offsets { result ≡ offsets_in width bytes.now start slots }
        ensures short { (j : ℕ) → j ≤ slots → start_of result j ≤ most_of width }
    {
        if bytes.is_empty() {
            return Offsets {
                width,
                bytes: &[0; 8],
                slots,
            };
        }
        let len = slots as usize;
        let size = width.bytes();
        Offsets {
            width,
            bytes: part(bytes, start * size, (len + 1) * size),
            slots,
        }
    }

    /// Offset `i`.
    #[inline(always)]
    pub fn get(&self, i: usize) -> usize
        requires { i < length self.now }
        ensures { result ≡ start_of self.now i }
    {
        self.width.natural_at(self.bytes, i)
    }

    /// How wide the offsets are, and their bytes: little-endian, one behind the other.
    pub fn bytes(&self) -> (OffsetWidth, &'a [u8])
        ensures { AreBytesOf result.0 result.1.now self.now }
    {
        let all = (self.slots as usize + 1) * self.width.bytes();
        (self.width, part(self.bytes, 0, all))
    }
}
