//! Bits in the making.

ghost use Rattle.std.specs.Prelude.{◌≡◌, ℕ, ◌+◌, ◌-◌, ◌^◌, ◌<◌, ◌≤◌, ◌&&◌, ◌||◌, ◌==◌, nat_lt, List, Bool, [], ◌∷◌, ◌++◌, false, true, not, length, map, replicate, take, IfOk, OnErr, OnOk};
ghost use Rattle.std.specs.List.{range_with_len};
ghost use Rattle.colbits.specs.Bit.{bit_in};
ghost use Rattle.colbits.specs.Bitmap.{bit_of};

use super::{BitmapBuf, bytes_for, last_word};
use crate::bits::Bits;
use crate::buffer::Buffer;
use crate::memory::NoMemory;
use crate::places::{Ones, Places};
use crate::word::word_from;
use std::alloc::Global;
use std::marker::Model;

/// Bits in the making, packed: they grow at the end, a word of 64 at a time where there are many.
///
/// Clauses see the list of the bits. A refused growth leaves them as they were.
#[derive(Drop)]
pub struct BitmapBuilder {
    /// The bytes of the whole words.
    bytes: Vec<u8>,
    /// The bits behind them, the first of them least significant: 0 past the last one.
    last: u64,
    len: usize,
}

impl Model for BitmapBuilder {
    ghost use Rattle.std.specs.Prelude.{List, Bool};
    ghost use Rattle.colbits.specs.Building.{AreWords, first_bits};

    ghost Value = { List Bool };

    ghost view = { λ b. first_bits b.bytes.items b.last b.len };

    ghost invariant = { λ b. AreWords b.bytes.items b.last b.len };
}

impl BitmapBuilder {
    /// No bits. No memory is taken.
    pub fn new(alloc: Global) -> BitmapBuilder
        ensures { result ≡ [] }
    {
        BitmapBuilder {
            bytes: Vec::new(alloc),
            last: 0,
            len: 0,
        }
    }

    /// No bits, with room for so many.
    pub fn with_capacity(alloc: Global, bits: usize) -> Result<BitmapBuilder, NoMemory>
        ensures { IfOk result (λ b. b ≡ []) }
    {
        // A buffer is padded by at most 63 bytes, so that the bits aren't copied again.
        let bytes = Vec::with_capacity(alloc, bytes_for(bits) + 63)?;
        Ok(BitmapBuilder {
            bytes,
            last: 0,
            len: 0,
        })
    }

    /// How many bits there are.
    pub fn len(&self) -> usize
        ensures { result ≡ length self.now }
    {
        self.len
    }

    /// Whether there are none.
    pub fn is_empty(&self) -> bool
        ensures { result ≡ (length self.now == 0) }
    {
        self.len == 0
    }

    /// Adds a bit at the end.
    #[inline(always)]
    pub fn push(&mut self, bit: bool) -> Result<(), NoMemory>
        requires room { length self.old + 1 < 2 ^ 64 }
        ensures ok { OnOk result (self.new ≡ self.old ++ bit ∷ []) }
        ensures err { OnErr result (self.new ≡ self.old) }
    {
        self.push_word(u64::from(bit), 1)
    }

    /// Adds so many bits at the end, each of them 1.
    pub fn push_ones(&mut self, count: usize) -> Result<(), NoMemory>
        requires room { length self.old + count < 2 ^ 64 }
        ensures ok { OnOk result (self.new ≡ self.old ++ replicate count true) }
        ensures err { OnErr result (self.new ≡ self.old) }
    {
        self.push_places(&Ones { count })
    }

    /// Adds the bits at the end.
    pub fn push_bits(&mut self, bits: &Bits<'_>) -> Result<(), NoMemory>
        requires room { length self.old + length bits.now < 2 ^ 64 }
        ensures ok { OnOk result (self.new ≡ self.old ++ bits.now) }
        ensures err { OnErr result (self.new ≡ self.old) }
    {
        self.push_places(bits)
    }

    /// Adds a bit for each place at the end.
    pub fn push_places<P: Places>(&mut self, places: &P) -> Result<(), NoMemory>
        requires room { length self.old + P.count places.now < 2 ^ 64 }
        ensures ok { OnOk result (self.new ≡ self.old ++ map (P.at places.now) (range_with_len 0 (P.count places.now))) }
        ensures err { OnErr result (self.new ≡ self.old) }
    {
        let before = self.len();
        match self.add_places(places) {
            Ok(()) => Ok(()),
            Err(error) => {
                self.truncate(before);
                Err(error)
            }
        }
    }

    /// Keeps the first `len` bits, or all of them where there aren't more.
    pub fn truncate(&mut self, len: usize)
        ensures { self.new ≡ take len self.old }
    {
        if len >= self.len {
            return;
        }
        let words = len / 64;
        if words < self.len / 64 {
            self.last = word_from(&self.bytes, 8 * words, 0);
            self.bytes.truncate(8 * words);
        }
        self.last = first_of(self.last, len % 64);
        self.len = len;
    }

    /// The bits, as a bitmap of their own.
    pub fn finish(self) -> Result<BitmapBuf, NoMemory>
        ensures { IfOk result (λ m. m ≡ self) }
    {
        let BitmapBuilder {
            mut bytes,
            last,
            len,
        } = self;
        bytes.extend_from_slice(&last.to_le_bytes()[..bytes_for(len % 64)])?;
        let buffer = Buffer::from_vec(bytes)?;
        Ok(BitmapBuf { buffer, len })
    }

    /// Adds a bit for each place, or for some of them where a growth is refused.
    fn add_places<P: Places>(&mut self, places: &P) -> Result<(), NoMemory>
        requires room { length self.old + P.count places.now < 2 ^ 64 }
        ensures ok { OnOk result (self.new ≡ self.old ++ map (P.at places.now) (range_with_len 0 (P.count places.now))) }
        ensures err { OnErr result (take (length self.old) self.new ≡ self.old) }
    {
        let len = places.len();
        let words = len / 64;
        for w in 0..words {
            self.push_word(places.word(64 * w), 64)?;
        }
        let rest = len - 64 * words;
        self.push_word(last_word(places, 64 * words, rest), rest)
    }

    /// Adds the first `count` bits of a word, whose other bits are 0.
    #[inline(always)]
    fn push_word(&mut self, word: u64, count: usize) -> Result<(), NoMemory>
        requires small { count ≤ 64 }
        requires zeros { (j : ℕ) → count ≤ j → j < 64 → bit_in word j ≡ false }
        requires room { length self.old + count < 2 ^ 64 }
        ensures ok { OnOk result (self.new ≡ self.old ++ map (bit_in word) (range_with_len 0 count)) }
        ensures err { OnErr result (self.new ≡ self.old) }
    {
        let used = self.len % 64;
        let joined = joined(self.last, word, used);
        if used + count < 64 {
            self.last = joined;
            self.len += count;
            return Ok(());
        }
        self.bytes.extend_from_slice(&joined.to_le_bytes())?;
        self.last = carried(word, used);
        self.len += count;
        Ok(())
    }
}

/// The first `used` bits of `last`, with the first of the word's behind them.
#[inline(always)]
fn joined(last: u64, word: u64, used: usize) -> u64
    requires { used < 64 }
    ensures { (j : ℕ) → j < 64 → bit_in result j ≡ (bit_in last j || (not (nat_lt j used) && bit_in word (j - used))) }
{
    last | (word << used)
}

/// The bits of the word that don't fit behind `used` others in a word.
#[inline(always)]
fn carried(word: u64, used: usize) -> u64
    requires { used < 64 }
    ensures { (j : ℕ) → j < 64 → bit_in result j ≡ bit_in word (64 - used + j) }
{
    if used == 0 { 0 } else { word >> (64 - used) }
}

/// The first `count` bits of the word, and 0 behind them.
#[inline(always)]
fn first_of(word: u64, count: usize) -> u64
    requires { count < 64 }
    ensures { (j : ℕ) → j < 64 → bit_in result j ≡ (bit_in word j && nat_lt j count) }
{
    word & ((1 << count) - 1)
}
