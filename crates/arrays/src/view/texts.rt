//! The texts of a column without a dictionary, one by one.

ghost use Rattle.std.specs.Prelude.{◌≡◌, ◌+◌, ◌-◌, ◌<◌, ◌≤◌, ℕ, length, true};
ghost use Rattle.colbits.specs.Slice.{slice};
ghost use Rattle.std.specs.Option.{option_copied};
ghost use Rattle.std.specs.Str.{is_utf8};
ghost use Rattle.types.specs.Kind as kind;
ghost use Rattle.types.specs.Prelude.{most_of, most_slots};
ghost use Rattle.layout.specs.Prelude.{AreOffsets, of_slot, start_of, valid_in};
ghost use Rattle.arrays.specs.Slot.{item_at, item_of_text};

use crate::validity::is_valid;
use crate::view::View;
use crate::view::parts::part;
use colbits::Bits;
use layout::{Offsets, buffers};
use std::str::from_utf8_unchecked;
use types::OffsetWidth;

/// The texts of a column, one for each slot.
#[derive(Drop)]
pub struct Texts<'a> {
    /// Where each text begins and the last one ends.
    pub offsets: Offsets<'a>,
    /// The bytes that the offsets count in. There may be more than those of the texts, and any bytes under a null.
    pub bytes: &'a [u8],
    /// Which slots are valid, none where all of them are.
    pub validity: Option<Bits<'a>>,
    /// How many slots there are.
    pub slots: u32,
    ghost bounds: { AreOffsets slots offsets (length bytes.now) },
    ghost ends: { (j : ℕ) → j ≤ slots → start_of offsets j ≤ length bytes.now },
    ghost utf8: { (j : ℕ) → j < slots → valid_in validity j ≡ true → is_utf8 (of_slot offsets bytes.now j) ≡ true },
    ghost short: { slots ≤ most_slots },
}

impl<'a> Texts<'a> {
    ghost use Rattle.arrays.specs.Values.{items_of_texts, text_in};

    /// The bytes that lie in slot `i`, whether the slot is valid or not.
    #[inline(always)]
    pub fn read(&self, i: usize) -> &'a [u8]
        requires { i < self.now.slots }
        ensures { result.now ≡ of_slot self.now.offsets self.now.bytes.now i }
    {
        let start = self.offsets.get(i);
        let end = self.offsets.get(i + 1);
        &self.bytes[start..end]
    }

    /// The bytes that lie in all slots, one slot behind the other.
    pub(crate) fn all(&self) -> &'a [u8]
        ensures { result.now ≡ slice self.now.bytes.now (start_of self.now.offsets 0) (start_of self.now.offsets self.now.slots - start_of self.now.offsets 0) }
    {
        let start = self.offsets.get(0);
        let end = self.offsets.get(self.slots as usize);
        part(self.bytes, start, end - start)
    }

    /// The text of slot `i`, none where it is null.
    #[inline(always)]
    pub fn get(&self, i: usize) -> Option<&'a str>
        requires { i < self.now.slots }
        ensures value { option_copied result ≡ text_in self.now.offsets self.now.bytes.now self.now.validity i }
        ensures item { item_at (items_of_texts self.now) i ≡ item_of_text (option_copied result) }
    {
        if is_valid(&self.validity, i) {
            let text = self.read(i);
            Some(unsafe { from_utf8_unchecked(text) })
        } else {
            None
        }
    }
}

impl<'a> View<'a> {
    ghost use Rattle.arrays.specs.Values.{HasTexts, items_of_texts};

    /// The texts of a view of such, whose offsets are of this width.
    pub fn texts(&self, width: OffsetWidth) -> Texts<'a>
        requires { self.now.kind ≡ kind.texts width }
        ensures texts { HasTexts result.offsets result.bytes.now self.now }
        ensures validity { result.validity ≡ self.now.validity }
        ensures slots { result.slots ≡ length self.now.items }
        ensures items { items_of_texts result ≡ self.now.items }

        // No offset is past what its width counts.
        ensures few { (j : ℕ) → j ≤ length self.now.items → start_of result.offsets j ≤ most_of width }
    {
        let first = buffers::bytes_at(self.buffers, 1);
        let bytes = buffers::bytes_at(self.buffers, 2);
        let validity = self.validity();
        let slots = self.slots();
        Texts {
            offsets: Offsets::new(width, first, self.start, slots),
            bytes,
            validity,
            slots,
        }
    }
}
