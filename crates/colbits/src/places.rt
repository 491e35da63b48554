//! Bits that are given place by place.

ghost use Rattle.std.specs.Prelude.{◌≡◌, ℕ, ◌+◌, ◌<◌, ◌≤◌, ◌&&◌, ◌||◌, Bool, true, not, length, IsTrue};
ghost use Rattle.colbits.specs.Bit.{bit, bit_in};
ghost use Rattle.colbits.specs.Bitmap.{bit_of};

use crate::bits::Bits;
use crate::lanes::{both, either, flipped, lanes_of};
use std::simd::prelude::*;

/// A bit for each place, given one by one, in any order and as often as wanted: what
/// [`BitmapBuf::from_places`](crate::BitmapBuf::from_places) packs.
pub trait Places {
    ghost at: { Self → ℕ → Bool };

    ghost count: { Self → ℕ };

    /// How many places there are.
    fn len(&self) -> usize
        ensures { result ≡ count self.now };

    /// The bit of place `i`.
    fn at(&self, i: usize) -> bool
        requires { i < count self.now }
        ensures { result ≡ at self.now i };

    /// Whether each of them is 1, as far as is known without a look at each.
    fn are_ones(&self) -> bool
        ensures { IsTrue result → (i : ℕ) → i < count self.now → at self.now i ≡ true }
    {
        false
    }

    /// The bits of places `i` to `i + 63`, the first of them least significant.
    fn word(&self, i: usize) -> u64
        requires { i + 64 ≤ count self.now }
        ensures { (j : ℕ) → j < 64 → bit_in result j ≡ at self.now (i + j) }
    {
        let len = self.len();
        prove!(i + 64 <= len);
        let mut word = 0;
        for j in 0..64 {
            if self.at(i + j) {
                word |= 1 << j;
            }
        }
        word
    }

    /// The bits of places `i` to `i + 255`, eight to a lane.
    fn lanes(&self, i: usize) -> u8x32
        requires { i + 256 ≤ count self.now }
        ensures { (j : ℕ) → j < 256 → bit result j ≡ at self.now (i + j) }
    {
        let len = self.len();
        prove!(i + 256 <= len);
        let (a, b) = (self.word(i), self.word(i + 64));
        let (c, d) = (self.word(i + 128), self.word(i + 192));
        lanes_of(a, b, c, d)
    }
}

/// The bits of a list.
#[derive(Drop)]
pub(crate) struct Given<'a>(pub(crate) &'a [bool]);

impl Places for Given<'_> {
    ghost at = { λ p. bit_of p.0.now };

    ghost count = { λ p. length p.0.now };

    fn len(&self) -> usize {
        self.0.len()
    }

    fn at(&self, i: usize) -> bool {
        self.0[i]
    }
}

impl Places for Bits<'_> {
    ghost at = { bit_of };

    ghost count = { length };

    fn len(&self) -> usize {
        Bits::len(self)
    }

    fn at(&self, i: usize) -> bool {
        self.get(i)
    }

    #[inline(always)]
    fn word(&self, i: usize) -> u64 {
        self.whole_word(i)
    }

    #[inline(always)]
    fn lanes(&self, i: usize) -> u8x32 {
        self.whole_lanes(i)
    }
}

/// As many places, each of them 1.
#[derive(Drop)]
pub struct Ones {
    pub count: usize,
}

impl Places for Ones {
    ghost at = { λ p i. true };

    ghost count = { λ p. p.count };

    fn len(&self) -> usize {
        self.count
    }

    fn at(&self, _i: usize) -> bool {
        true
    }

    fn are_ones(&self) -> bool {
        true
    }

    #[inline(always)]
    fn word(&self, _i: usize) -> u64 {
        u64::MAX
    }
}

/// Where both have 1.
#[derive(Drop)]
pub struct Both<'a, 'b, A: Places, B: Places> {
    pub a: &'a A,
    pub b: &'b B,
    ghost one_length: { A.count a.now ≡ B.count b.now },
}

impl<'a, 'b, A: Places, B: Places> Places for Both<'a, 'b, A, B> {
    ghost at = { λ p i. A.at p.a.now i && B.at p.b.now i };

    ghost count = { λ p. A.count p.a.now };

    fn len(&self) -> usize {
        self.a.len()
    }

    fn at(&self, i: usize) -> bool {
        self.a.at(i) & self.b.at(i)
    }

    fn are_ones(&self) -> bool {
        self.a.are_ones() && self.b.are_ones()
    }

    #[inline(always)]
    fn word(&self, i: usize) -> u64 {
        self.a.word(i) & self.b.word(i)
    }

    #[inline(always)]
    fn lanes(&self, i: usize) -> u8x32 {
        both(self.a.lanes(i), self.b.lanes(i))
    }
}

/// Where either has 1.
#[derive(Drop)]
pub struct Either<'a, 'b, A: Places, B: Places> {
    pub a: &'a A,
    pub b: &'b B,
    ghost one_length: { A.count a.now ≡ B.count b.now },
}

impl<'a, 'b, A: Places, B: Places> Places for Either<'a, 'b, A, B> {
    ghost at = { λ p i. A.at p.a.now i || B.at p.b.now i };

    ghost count = { λ p. A.count p.a.now };

    fn len(&self) -> usize {
        self.a.len()
    }

    fn at(&self, i: usize) -> bool {
        self.a.at(i) | self.b.at(i)
    }

    fn are_ones(&self) -> bool {
        self.a.are_ones() || self.b.are_ones()
    }

    #[inline(always)]
    fn word(&self, i: usize) -> u64 {
        self.a.word(i) | self.b.word(i)
    }

    #[inline(always)]
    fn lanes(&self, i: usize) -> u8x32 {
        either(self.a.lanes(i), self.b.lanes(i))
    }
}

/// Where there is 0.
#[derive(Drop)]
pub struct Flipped<'a, A> {
    pub a: &'a A,
}

impl<'a, A: Places> Places for Flipped<'a, A> {
    ghost at = { λ p i. not (A.at p.a.now i) };

    ghost count = { λ p. A.count p.a.now };

    fn len(&self) -> usize {
        self.a.len()
    }

    fn at(&self, i: usize) -> bool {
        !self.a.at(i)
    }

    #[inline(always)]
    fn word(&self, i: usize) -> u64 {
        !self.a.word(i)
    }

    #[inline(always)]
    fn lanes(&self, i: usize) -> u8x32 {
        flipped(self.a.lanes(i))
    }
}
