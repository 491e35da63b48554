//! The truth values of a column, one by one and many at once.

ghost use Rattle.std.specs.Prelude.{◌≡◌, ◌+◌, ◌<◌, ◌≤◌, ℕ, length};
ghost use Rattle.colbits.specs.Bit.{bit, bit_in};
ghost use Rattle.types.specs.Kind as kind;
ghost use Rattle.arrays.specs.Slot.{item_at, item_of_bool};
ghost use Rattle.arrays.specs.Truth.{knows_false, knows_true};
ghost use Rattle.arrays.specs.Values.{HasBits, bool_in, bool_items};
ghost use Rattle.types.specs.Limits.{most_slots};

use crate::validity::{is_valid, valid_lanes, valid_word};
use crate::view::View;
use colbits::Bits;
use colbits::lanes::{both, flipped};
use std::simd::prelude::*;

/// The truth values of a column, one for each slot.
#[derive(Drop)]
pub struct Bools<'a> {
    /// The truth values. What lies under a null is any bit.
    pub values: Bits<'a>,
    /// Which slots are valid, none where all of them are.
    pub validity: Option<Bits<'a>>,
    /// How many slots there are.
    pub slots: u32,
    ghost size: { length values ≡ slots },
    ghost short: { slots ≤ most_slots },
}

impl<'a> Bools<'a> {
    /// The truth value of slot `i`, none where it is null.
    #[inline(always)]
    pub fn get(&self, i: usize) -> Option<bool>
        requires { i < self.now.slots }
        ensures value { result ≡ bool_in self.now.values self.now.validity i }
        ensures item { item_at (bool_items self.now.values self.now.validity self.now.slots) i ≡ item_of_bool result }
    {
        if is_valid(&self.validity, i) {
            Some(self.values.get(i))
        } else {
            None
        }
    }

    /// Whether slot `i` is true.
    #[inline(always)]
    pub fn is_true(&self, i: usize) -> bool
        requires { i < self.now.slots }
        ensures { result ≡ knows_true (bool_in self.now.values self.now.validity i) }
    {
        is_valid(&self.validity, i) & self.values.get(i)
    }

    /// Whether slot `i` is false.
    #[inline(always)]
    pub fn is_false(&self, i: usize) -> bool
        requires { i < self.now.slots }
        ensures { result ≡ knows_false (bool_in self.now.values self.now.validity i) }
    {
        is_valid(&self.validity, i) & !self.values.get(i)
    }

    /// Which of slots `i` to `i + 63` are true, the first of them least significant.
    #[inline(always)]
    pub fn true_word(&self, i: usize) -> u64
        requires { i + 64 ≤ self.now.slots }
        ensures { (j : ℕ) → j < 64 → bit_in result j ≡ knows_true (bool_in self.now.values self.now.validity (i + j)) }
    {
        valid_word(&self.validity, i) & self.values.whole_word(i)
    }

    /// Which of these are false.
    #[inline(always)]
    pub fn false_word(&self, i: usize) -> u64
        requires { i + 64 ≤ self.now.slots }
        ensures { (j : ℕ) → j < 64 → bit_in result j ≡ knows_false (bool_in self.now.values self.now.validity (i + j)) }
    {
        valid_word(&self.validity, i) & !self.values.whole_word(i)
    }

    /// Which of slots `i` to `i + 255` are true, eight to a lane.
    #[inline(always)]
    pub fn true_lanes(&self, i: usize) -> u8x32
        requires { i + 256 ≤ self.now.slots }
        ensures { (j : ℕ) → j < 256 → bit result j ≡ knows_true (bool_in self.now.values self.now.validity (i + j)) }
    {
        both(valid_lanes(&self.validity, i), self.values.whole_lanes(i))
    }

    /// Which of these are false.
    #[inline(always)]
    pub fn false_lanes(&self, i: usize) -> u8x32
        requires { i + 256 ≤ self.now.slots }
        ensures { (j : ℕ) → j < 256 → bit result j ≡ knows_false (bool_in self.now.values self.now.validity (i + j)) }
    {
        let unset = flipped(self.values.whole_lanes(i));
        both(valid_lanes(&self.validity, i), unset)
    }
}

impl<'a> View<'a> {
    /// The truth values of a view of such.
    pub fn bools(&self) -> Bools<'a>
        requires { self.now.kind ≡ kind.boolean }
        ensures values { HasBits result.values self.now }
        ensures validity { result.validity ≡ self.now.validity }
        ensures slots { result.slots ≡ length self.now.items }
        ensures items { bool_items result.values result.validity result.slots ≡ self.now.items }
    {
        Bools {
            values: self.bool_bits(),
            validity: self.validity(),
            slots: self.slots(),
        }
    }
}
