//! 32 bytes at a time.

ghost use Rattle.std.specs.Prelude.{◌≡◌, ℕ, ◌+◌, ◌-◌, ◌*◌, ◌<◌, ◌≤◌, ◌&&◌, ◌||◌, not, [], ◌∷◌, length, slice_index};
ghost use Rattle.colbits.specs.Bit.{bit, bit_in};
ghost use Rattle.colbits.specs.Slice.{slice};

use std::simd::prelude::*;

/// The 256 bits from bit `shift` of byte `at` on.
#[inline(always)]
pub(crate) fn lanes_from(bytes: &[u8], at: usize, shift: u8) -> u8x32
    requires shift { shift < 8 }
    requires within { 8 * at + shift + 256 ≤ 8 * length bytes.now }
    ensures { (j : ℕ) → j < 256 → bit result j ≡ bit bytes.now (8 * at + shift + j) }
{
    let low = load(bytes, at);
    if shift == 0 {
        low
    } else {
        moved(low, load(bytes, at + 1), shift)
    }
}

/// 32 bytes from byte `at` on.
#[inline(always)]
fn load(bytes: &[u8], at: usize) -> u8x32
    requires { at + 32 ≤ length bytes.now }
    ensures { result ≡ slice bytes.now at 32 }
{
    u8x32::from_slice(&bytes[at..])
}

/// In each lane the bits of `low` from bit `shift` on, with the first of `high` behind them.
#[inline(always)]
fn moved(low: u8x32, high: u8x32, shift: u8) -> u8x32
    requires { (0 < shift) × (shift < 8) }
    ensures low { (k : ℕ) → (j : ℕ) → k < 32 → shift + j < 8 → bit_in (slice_index result k) j ≡ bit_in (slice_index low k) (shift + j) }
    ensures high { (k : ℕ) → (j : ℕ) → k < 32 → j < shift → bit_in (slice_index result k) (8 - shift + j) ≡ bit_in (slice_index high k) j }
{
    (low >> u8x32::splat(shift)) | (high << u8x32::splat(8 - shift))
}

/// The bits of four words, those of the first first.
#[inline(always)]
pub fn lanes_of(a: u64, b: u64, c: u64, d: u64) -> u8x32
    ensures { (k : ℕ) → (j : ℕ) → k < 4 → j < 64 → bit result (64 * k + j) ≡ bit_in (slice_index (a ∷ b ∷ c ∷ d ∷ []) k) j }
{
    u64x4::from_array([a, b, c, d]).to_le_bytes()
}

/// Where both have 1.
#[inline(always)]
pub fn both(a: u8x32, b: u8x32) -> u8x32
    ensures { (j : ℕ) → j < 256 → bit result j ≡ (bit a j && bit b j) }
{
    a & b
}

/// Where either has 1.
#[inline(always)]
pub fn either(a: u8x32, b: u8x32) -> u8x32
    ensures { (j : ℕ) → j < 256 → bit result j ≡ (bit a j || bit b j) }
{
    a | b
}

/// Where there is 0.
#[inline(always)]
pub fn flipped(a: u8x32) -> u8x32
    ensures { (j : ℕ) → j < 256 → bit result j ≡ not (bit a j) }
{
    !a
}
