ghost use Rattle.std.specs.Prelude.{◌≡◌, ℕ, ◌+◌, ◌*◌, ◌/◌, ◌%◌, ◌<◌, ◌≤◌, ◌^◌, ◌&&◌, nat_lt, List, Bool, Some, length, slice_get, true, count_by, IsTrue, ◌↔◌};
ghost use Rattle.std.specs.List.{All};
ghost use Rattle.colbits.specs.Bit.{bit, bit_in, bits};
ghost use Rattle.colbits.specs.Bitmap.{bit_of};
ghost use Rattle.colbits.specs.Slice.{slice};

use crate::lanes::{lanes_from, lanes_of};
use crate::word::word_from;
use std::marker::Model;
use std::simd::prelude::*;

/// Bits that lie in borrowed bytes, from any bit on: a validity bitmap or packed booleans.
///
/// Nothing is copied. Clauses see the list of the bits.
#[derive(Drop)]
pub struct Bits<'a> {
    /// The bytes from the one on that holds the first bit.
    bytes: &'a [u8],
    /// How many bits of the first byte come before the first bit.
    shift: u8,
    len: usize,
}

impl<'a> Model for Bits<'a> {
    ghost use Rattle.std.specs.Prelude.{◌+◌, ◌*◌, ◌<◌, ◌≤◌, List, Bool, length};
    ghost use Rattle.colbits.specs.Bit.{bits};

    ghost Value = { List Bool };

    ghost view = { λ b. bits b.bytes.now b.shift b.len };

    ghost invariant = { λ b. (b.shift < 8) × (b.shift + b.len ≤ 8 * length b.bytes.now) };
}

impl<'a> Bits<'a> {
    /// The `len` bits of `bytes` from bit `start` on, counted from the least significant bit of the first byte.
    pub fn new(bytes: &'a [u8], start: usize, len: usize) -> Bits<'a>
        requires { start + len ≤ 8 * length bytes.now }
        ensures { result ≡ bits bytes.now start len }
    {
        Bits {
            bytes: &bytes[start / 8..],
            shift: (start % 8) as u8,
            len,
        }
    }

    /// How many bits there are.
    pub fn len(&self) -> usize
        ensures { result ≡ length self.now }
    {
        self.len
    }

    /// Bit `i`.
    pub fn get(&self, i: usize) -> bool
        requires { i < length self.now }
        ensures { slice_get self.now i ≡ Some result }
    {
        let k = i % 8 + self.shift as usize;
        (self.bytes[i / 8 + k / 8] >> (k % 8)) & 1 == 1
    }

    /// Bits `i` to `i + 63`, the first of them least significant: 0 past the last one.
    #[inline(always)]
    pub fn word(&self, i: usize) -> u64
        ensures { (j : ℕ) → j < 64 → bit_in result j ≡ bit_of self.now (i + j) }
    {
        let len = self.len();
        if i >= len {
            return 0;
        }
        if len - i >= 64 {
            return self.whole_word(i);
        }
        self.few(i, len - i)
    }

    /// Bits `i` to `i + 63`, all of which are there: `word` without a look at the length.
    #[inline(always)]
    pub fn whole_word(&self, i: usize) -> u64
        requires { i + 64 ≤ length self.now }
        ensures { (j : ℕ) → j < 64 → bit_in result j ≡ bit_of self.now (i + j) }
    {
        let k = i % 8 + self.shift as usize;
        word_from(self.bytes, i / 8 + k / 8, k % 8)
    }

    /// Bits `i` to `i + 255`, eight to a lane: 0 past the last one.
    #[inline(always)]
    pub fn lanes(&self, i: usize) -> u8x32
        requires { i + 256 < 2 ^ 64 }
        ensures { (j : ℕ) → j < 256 → bit result j ≡ bit_of self.now (i + j) }
    {
        if i + 256 <= self.len() {
            return self.whole_lanes(i);
        }
        self.few_lanes(i)
    }

    /// The same, a word at a time.
    #[inline(never)]
    fn few_lanes(&self, i: usize) -> u8x32
        requires { i + 256 < 2 ^ 64 }
        ensures { (j : ℕ) → j < 256 → bit result j ≡ bit_of self.now (i + j) }
    {
        let (a, b) = (self.word(i), self.word(i + 64));
        let (c, d) = (self.word(i + 128), self.word(i + 192));
        lanes_of(a, b, c, d)
    }

    /// Bits `i` to `i + 255`, all of which are there: `lanes` without a look at the length.
    #[inline(always)]
    pub fn whole_lanes(&self, i: usize) -> u8x32
        requires { i + 256 ≤ length self.now }
        ensures { (j : ℕ) → j < 256 → bit result j ≡ bit_of self.now (i + j) }
    {
        let k = i % 8 + self.shift as usize;
        lanes_from(self.bytes, i / 8 + k / 8, (k % 8) as u8)
    }

    /// The `count` bits from bit `start` on, the first of them least significant.
    #[inline(never)]
    fn few(&self, start: usize, count: usize) -> u64
        requires within { start + count ≤ length self.now }
        requires fits { start + count < 2 ^ 64 }
        requires small { count ≤ 64 }
        ensures { (j : ℕ) → bit_in result j ≡ (nat_lt j count && bit_of self.now (start + j)) }
    {
        let mut word = 0;
        for j in 0..count {
            if self.get(start + j) {
                word |= 1 << j;
            }
        }
        word
    }

    /// The `len` bits from bit `start` on.
    pub fn slice(&self, start: usize, len: usize) -> Bits<'a>
        requires { start + len ≤ length self.now }
        ensures { result ≡ slice self.now start len }
    {
        let k = start % 8 + self.shift as usize;
        Bits {
            bytes: &self.bytes[start / 8 + k / 8..],
            shift: (k % 8) as u8,
            len,
        }
    }

    /// How many of the bits are 1.
    pub fn count_ones(&self) -> usize
        ensures { result ≡ count_by (λ b. b) self.now }
    {
        let words = self.len() / 64;
        let mut ones = 0;
        for w in 0..words {
            ones += self.whole_word(64 * w).count_ones() as usize;
        }
        ones + self.word(64 * words).count_ones() as usize
    }

    /// Whether each of the bits is 1. It looks no further than the first 64 that aren't all 1.
    pub fn are_ones(&self) -> bool
        ensures { IsTrue result ↔ All (λ b. b ≡ true) self.now }
    {
        let len = self.len();
        let words = len / 64;
        for w in 0..words {
            if self.whole_word(64 * w) != u64::MAX {
                return false;
            }
        }
        let rest = len - 64 * words;
        self.word(64 * words) == (1 << rest) - 1
    }
}
