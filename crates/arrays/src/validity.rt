//! Validities that are kept only where a slot isn't valid.

ghost use Rattle.std.specs.Prelude.{◌≡◌, ◌+◌, ◌^◌, ◌<◌, ℕ, map, IfOk};
ghost use Rattle.std.specs.List.{range_with_len};
ghost use Rattle.colbits.specs.Bit.{bit, bit_in};
ghost use Rattle.arrays.specs.Packed.{IsBufferOf};
ghost use Rattle.layout.specs.Seen.{valid_in};
ghost use Rattle.arrays.specs.Shown.{kept};

use colbits::{BitmapBuf, Bits, Buffer, NoMemory, Places};
use std::alloc::Global;
use std::simd::prelude::*;

/// The validity of slots that are valid where the places are 1: none where all of them are. It fails for want of memory
/// alone.
pub fn validity_of<P: Places>(alloc: Global, places: &P) -> Result<Option<BitmapBuf>, NoMemory>
    ensures { IfOk result (λ v. v ≡ kept (map (P.at places.now) (range_with_len 0 (P.count places.now)))) }
{
    Ok(kept_of(BitmapBuf::from_places(alloc, places)?))
}

/// The validity, none where each slot is valid.
pub(crate) fn kept_of(validity: BitmapBuf) -> Option<BitmapBuf>
    ensures { result ≡ kept validity }
{
    if validity.bits().are_ones() {
        return None;
    }
    Some(validity)
}

/// The buffer of a validity, as the makers of arrays take it.
pub fn buffer_of(validity: Option<BitmapBuf>) -> Option<Buffer>
    ensures { IsBufferOf result validity }
{
    match validity {
        Some(bitmap) => Some(bitmap.into_buffer()),
        None => None,
    }
}

/// Whether slot `i` is valid: its bit is there and 1, or there are no bits.
#[inline(always)]
pub fn is_valid(validity: &Option<Bits<'_>>, i: usize) -> bool
    ensures { result ≡ valid_in validity.now i }
{
    match validity {
        None => true,
        Some(bits) => i < bits.len() && bits.get(i),
    }
}

/// Which of slots `i` to `i + 63` are valid, the first of them least significant.
#[inline(always)]
pub fn valid_word(validity: &Option<Bits<'_>>, i: usize) -> u64
    ensures { (j : ℕ) → j < 64 → bit_in result j ≡ valid_in validity.now (i + j) }
{
    match validity {
        None => u64::MAX,
        Some(bits) => bits.word(i),
    }
}

/// Which of slots `i` to `i + 255` are valid, eight to a lane.
#[inline(always)]
pub fn valid_lanes(validity: &Option<Bits<'_>>, i: usize) -> u8x32
    requires { i + 256 < 2 ^ 64 }
    ensures { (j : ℕ) → j < 256 → bit result j ≡ valid_in validity.now (i + j) }
{
    match validity {
        None => return u8x32::splat(u8::MAX),
        Some(bits) => bits.lanes(i),
    }
}
