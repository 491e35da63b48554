//! Comparisons of 64 numbers each, packed into a word.

ghost use Rattle.std.specs.Prelude.{◌≡◌, ℕ, ◌+◌, ◌≤◌, ◌<◌, ◌^◌, ◌&&◌, ◌==◌, Bool, not, slice_index, if◌then◌else◌};
ghost use Rattle.std.specs.Ordering.{int_cmp, is_eq, is_lt};
ghost use Rattle.std.specs.declared.cmp.Ordering.{Ordering};
ghost use Rattle.colbits.specs.Bit.{bit_in};

use crate::side::Side;
use std::simd::prelude::*;

/// A test of how two numbers stand to each other.
pub(crate) trait Test {
    ghost holds: { Ordering → Bool };

    fn of(x: i128, y: i128) -> bool
        ensures { result ≡ holds (int_cmp x y) };
}

/// Whether the first is less.
pub(crate) struct Less;

impl Test for Less {
    ghost holds = { is_lt };

    #[inline(always)]
    fn of(x: i128, y: i128) -> bool {
        x < y
    }
}

/// Whether they are equal.
pub(crate) struct Equal;

impl Test for Equal {
    ghost holds = { is_eq };

    #[inline(always)]
    fn of(x: i128, y: i128) -> bool {
        x == y
    }
}

/// At which of places `i` to `i + 63` the two numbers meet the test, the first of them least significant.
#[inline(always)]
pub(crate) fn tests<T: Test, A: Side, B: Side>(a: &A, b: &B, i: usize) -> u64
    requires fits { i + 64 < 2 ^ 64 }
    requires a { i + 64 ≤ A.count a.now }
    requires b { i + 64 ≤ B.count b.now }
    ensures { (j : ℕ) → j < 64 → bit_in result j ≡ T.holds (int_cmp (A.number a.now (i + j)) (B.number b.now (i + j))) }
{
    let mut flags = [0; 64];
    for j in 0..64 {
        flags[j] = u8::from(T::of(a.at(i + j), b.at(i + j)));
    }
    word_of(flags)
}

/// A word that has 0 where the flag is 0, the first of them least significant.
#[inline(always)]
fn word_of(flags: [u8; 64]) -> u64
    ensures { (j : ℕ) → j < 64 → bit_in result j ≡ not (slice_index flags j == 0) }
{
    u8x64::from_array(flags)
        .simd_ne(u8x64::splat(0))
        .to_bitmask()
}

/// A word that has `there` where this one has 1, and `elsewhere` where it has 0.
#[inline(always)]
pub(crate) fn chosen(word: u64, there: bool, elsewhere: bool) -> u64
    ensures { (j : ℕ) → j < 64 → bit_in result j ≡ (if bit_in word j then there else elsewhere) }
{
    kept_if(word, there) | kept_if(!word, elsewhere)
}

/// The word, or 0.
#[inline(always)]
fn kept_if(word: u64, is_kept: bool) -> u64
    ensures { (j : ℕ) → bit_in result j ≡ (bit_in word j && is_kept) }
{
    if is_kept { word } else { 0 }
}
