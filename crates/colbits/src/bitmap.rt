ghost use Rattle.std.specs.Prelude.{◌≡◌, ℕ, ◌+◌, ◌*◌, ◌/◌, ◌^◌, ◌<◌, ◌≤◌, ◌&&◌, ◌||◌, nat_lt, List, Bool, not, map, length, IfOk};
ghost use Rattle.std.specs.List.{range_with_len};
ghost use Rattle.colbits.specs.Bit.{bit, bit_in, bits};
ghost use Rattle.colbits.specs.Bitmap.{place_by_place};

pub mod builder;

use crate::bits::Bits;
use crate::buffer::Buffer;
use crate::memory::NoMemory;
use crate::places::{Both, Either, Flipped, Given, Places};
use std::alloc::Global;
use std::marker::Model;

/// Bits that own their bytes: a validity bitmap or packed booleans in the making.
///
/// Bit `j` is bit `j mod 8` of byte `j / 8`, and the bits past the length are 0.
#[derive(Drop)]
pub struct BitmapBuf {
    buffer: Buffer,
    len: usize,
}

impl Model for BitmapBuf {
    ghost use Rattle.std.specs.Prelude.{List, Bool};
    ghost use Rattle.colbits.specs.Bit.{bits};
    ghost use Rattle.colbits.specs.Bitmap.{IsBitmap};

    ghost Value = { List Bool };

    ghost view = { λ b. bits b.buffer 0 b.len };

    ghost invariant = { λ b. IsBitmap b.buffer b.len };
}

impl BitmapBuf {
    ghost use Rattle.colbits.specs.Bitmap.{IsBitmapOf};

    /// A bit for each place, packed, the bits past the last one 0.
    pub fn from_places<P: Places>(alloc: Global, places: &P) -> Result<BitmapBuf, NoMemory>
        ensures { IfOk result (λ m. m ≡ map (P.at places.now) (range_with_len 0 (P.count places.now))) }
    {
        let len = places.len();
        let blocks = len / 256;
        let mut bytes = Vec::with_capacity(alloc, bytes_for(len) + 63)?;
        for b in 0..blocks {
            let lanes = places.lanes(256 * b).to_array();
            bytes.extend_from_slice(&lanes)?;
        }
        completed(bytes, places, 4 * blocks)
    }

    /// The bits of the list, packed.
    pub fn from_bools(alloc: Global, bools: &[bool]) -> Result<BitmapBuf, NoMemory>
        ensures { IfOk result (λ m. m ≡ bools.now) }
    {
        BitmapBuf::from_places(alloc, &Given(bools))
    }

    /// Where both have 1.
    pub fn and(alloc: Global, a: &Bits<'_>, b: &Bits<'_>) -> Result<BitmapBuf, NoMemory>
        requires { length a.now ≡ length b.now }
        ensures { IfOk result (λ m. m ≡ place_by_place ◌&&◌ a.now b.now) }
    {
        BitmapBuf::from_places(alloc, &Both { a, b })
    }

    /// Where either has 1.
    pub fn or(alloc: Global, a: &Bits<'_>, b: &Bits<'_>) -> Result<BitmapBuf, NoMemory>
        requires { length a.now ≡ length b.now }
        ensures { IfOk result (λ m. m ≡ place_by_place ◌||◌ a.now b.now) }
    {
        BitmapBuf::from_places(alloc, &Either { a, b })
    }

    /// Where the first has 1 and the second 0.
    pub fn and_not(alloc: Global, a: &Bits<'_>, b: &Bits<'_>) -> Result<BitmapBuf, NoMemory>
        requires { length a.now ≡ length b.now }
        ensures { IfOk result (λ m. m ≡ place_by_place (λ x y. x && not y) a.now b.now) }
    {
        BitmapBuf::from_places(
            alloc,
            &Both {
                a,
                b: &Flipped { a: b },
            },
        )
    }

    /// Where there is 0.
    pub fn not(alloc: Global, a: &Bits<'_>) -> Result<BitmapBuf, NoMemory>
        ensures { IfOk result (λ m. m ≡ map not a.now) }
    {
        BitmapBuf::from_places(alloc, &Flipped { a })
    }

    /// The bits.
    pub fn bits(&self) -> Bits<'_>
        ensures { result ≡ self.now }
    {
        Bits::new(self.buffer.bytes(), 0, self.len)
    }

    /// The bytes that hold the bits, as many as it takes.
    pub fn into_buffer(self) -> Buffer
        ensures { IsBitmapOf result self }
    {
        let BitmapBuf { buffer, .. } = self;
        buffer
    }
}

/// How many bytes hold `bits` bits.
fn bytes_for(bits: usize) -> usize
    ensures { result ≡ (bits + 7) / 8 }
{
    bits / 8 + usize::from(!bits.is_multiple_of(8))
}

/// The bitmap of the places, of which those of so many words are packed.
fn completed<P: Places>(packed: Vec<u8>, places: &P, from: usize) -> Result<BitmapBuf, NoMemory>
    requires within { 64 * from ≤ P.count places.now }
    requires packed { length packed.items ≡ 8 * from }
    requires bits { (i : ℕ) → i < 64 * from → bit packed.items i ≡ P.at places.now i }
    ensures { IfOk result (λ m. m ≡ map (P.at places.now) (range_with_len 0 (P.count places.now))) }
{
    let len = places.len();
    let words = len / 64;
    let mut bytes = packed;
    for w in from..words {
        let word = places.word(64 * w);
        bytes.extend_from_slice(&word.to_le_bytes())?;
    }
    let rest = len - 64 * words;
    let last = last_word(places, 64 * words, rest);
    bytes.extend_from_slice(&last.to_le_bytes()[..bytes_for(rest)])?;
    let buffer = Buffer::from_vec(bytes)?;
    Ok(BitmapBuf { buffer, len })
}

/// The bits of `count` places from place `start` on, the first of them least significant.
fn last_word<P: Places>(places: &P, start: usize, count: usize) -> u64
    requires within { start + count ≤ P.count places.now }
    requires fits { start + count < 2 ^ 64 }
    requires small { count ≤ 64 }
    ensures { (k : ℕ) → bit_in result k ≡ (nat_lt k count && P.at places.now (start + k)) }
{
    let mut word = 0;
    for j in 0..count {
        if places.at(start + j) {
            word |= 1 << j;
        }
    }
    word
}
