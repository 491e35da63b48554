//! Picked bits: truth values, and which picked rows are valid.

ghost use Rattle.std.specs.Prelude.{◌≡◌, ◌&&◌, ◌/◌, ◌+◌, ℕ, ◌≤◌, None, drop, length, map, nat_lt, slice_index_or, IfOk};
ghost use Rattle.std.specs.List.{range_with_len};
ghost use Rattle.arrays.specs.Prelude.{IsBitmapOf, IsBufferOf, bit_in, kept};
ghost use Rattle.select.specs.Stored.{is_stored};

use crate::rows::{Place, Rows};
use arrays::validity::is_valid;
use arrays::{Bits, Buffer, NoMemory};
use std::alloc::Global;

/// The validity of the picked rows of slots of this validity: none where each is a row, and valid.
pub(super) fn picked_validity<R: Rows>(
    alloc: Global,
    validity: &Option<Bits<'_>>,
    rows: &R,
) -> Result<Option<Buffer>, NoMemory>
    ensures { IfOk result (λ b. IsBufferOf b (kept (map (λ j. is_stored validity.now (slice_index_or (R.picks rows.now) j None)) (range_with_len 0 (length (R.picks rows.now)))))) }
{
    if validity.is_none() && rows.are_rows() {
        return Ok(None);
    }
    let packed = picked_bits(alloc, validity, rows)?;
    if Bits::new(packed.bytes(), 0, rows.slots() as usize).are_ones() {
        return Ok(None);
    }
    Ok(Some(packed))
}

/// The bits of the picked rows, packed: 1 for each row where there are no bits, 0 where no row is picked.
pub(super) fn picked_bits<R: Rows>(
    alloc: Global,
    bits: &Option<Bits<'_>>,
    rows: &R,
) -> Result<Buffer, NoMemory>
    ensures { IfOk result (λ b. IsBitmapOf b (map (λ j. is_stored bits.now (slice_index_or (R.picks rows.now) j None)) (range_with_len 0 (length (R.picks rows.now))))) }
{
    let count = rows.slots() as usize;
    let words = count / 64;
    let rest = count - 64 * words;
    let mut bytes = Vec::with_capacity(alloc, bytes_for(count) + 63)?;
    let mut place = rows.first();
    for _word in 0..words {
        let word = next_bits(bits, rows, &mut place, 64);
        bytes.extend_from_slice(&word.to_le_bytes())?;
    }
    let last = next_bits(bits, rows, &mut place, rest);
    bytes.extend_from_slice(&last.to_le_bytes()[..bytes_for(rest)])?;
    Buffer::from_vec(bytes)
}

/// How many bytes hold `bits` bits.
fn bytes_for(bits: usize) -> usize
    ensures { result ≡ (bits + 7) / 8 }
{
    bits / 8 + usize::from(!bits.is_multiple_of(8))
}

/// The bits of the next `count` picked rows, the first of them least significant.
#[inline(always)]
fn next_bits<R: Rows>(bits: &Option<Bits<'_>>, rows: &R, place: &mut Place, count: usize) -> u64
    requires small { count ≤ 64 }
    requires within { count ≤ length (R.rest rows.now place.old) }
    ensures bits { (k : ℕ) → bit_in result k ≡ (nat_lt k count && is_stored bits.now (slice_index_or (R.rest rows.now place.old) k None)) }
    ensures rest { R.rest rows.now place.new ≡ drop count (R.rest rows.now place.old) }
{
    let mut word = 0;
    for j in 0..count {
        let row = rows.next(place);
        word |= u64::from(bit_of_row(bits, row)) << j;
    }
    word
}

/// Whether a row is picked and its bit is 1, or there are no bits.
#[inline(always)]
fn bit_of_row(bits: &Option<Bits<'_>>, row: Option<usize>) -> bool
    ensures { result ≡ is_stored bits.now row }
{
    match row {
        Some(i) => is_valid(bits, i),
        None => false,
    }
}
