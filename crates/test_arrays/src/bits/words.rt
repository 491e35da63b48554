//! Tests of what goes by words and by lanes: each answer is compared with the bits, one by one.

ghost use Rattle.std.specs.Prelude.{◌≡◌, ◌+◌, ◌≤◌, length};

use arrays::{BitmapBuf, Bits, NoMemory};
use std::alloc::Global;
use std::process::Abort;

/// Lengths at which words and lanes end, and their neighbours.
static LENGTHS: [usize; 11] = [0, 1, 7, 63, 64, 65, 127, 128, 511, 512, 513];

/// As many bytes as the greatest length takes from any start.
const SIZE: usize = 65;

/// Bytes whose bits from `start` on, `len` of them, are in no order. All others are 1.
fn surrounded(start: usize, len: usize, salt: u32) -> [u8; SIZE]
    requires { start + len ≤ 520 }
{
    let mut bytes = [0xff; SIZE];
    for place in start..start + len {
        let noise = (place as u32)
            .wrapping_add(salt)
            .wrapping_mul(2_654_435_761);
        if noise < 0x8000_0000 {
            bytes[place / 8] &= !(1 << (place % 8));
        }
    }
    bytes
}

/// Whether a word has the bits from its first on, and 0 past the last.
fn is_word(bits: &Bits<'_>, first: usize) -> bool
    requires { first ≤ 1000 }
{
    let word = bits.word(first);
    for j in 0..64 {
        let place = first + j;
        let bit = place < bits.len() && bits.get(place);
        if ((word >> j) & 1 == 1) != bit {
            return false;
        }
    }
    true
}

/// Asserts that the words from each bit on are reported, from the end on too.
fn assert_words(rt: &impl Abort, start: usize, len: usize)
    requires { start + len ≤ 520 }
{
    let bytes = surrounded(start, len, 3);
    let bits = Bits::new(&bytes, start, len);
    for first in 0..len + 2 {
        assert!(rt; is_word(&bits, first), "the word at {first} of {len} bits");
    }
}

/// Asserts that the ones are counted.
fn assert_count(rt: &impl Abort, start: usize, len: usize)
    requires { start + len ≤ 520 }
{
    let bytes = surrounded(start, len, 5);
    let bits = Bits::new(&bytes, start, len);
    let mut ones = 0usize;
    for i in 0..bits.len() {
        ones = ones.wrapping_add(usize::from(bits.get(i)));
    }
    assert!(rt;
        bits.count_ones() == ones,
        "the ones of {len} bits from {start} on"
    );
}

/// Asserts both at each start.
fn assert_at_each_start(rt: &impl Abort, len: usize)
    requires { len ≤ 513 }
{
    for start in 0..8 {
        assert_words(rt, start, len);
        assert_count(rt, start, len);
    }
}

#[test]
fn tells_words(rt: HostRuntime) {
    assert!(rt; Bits::new(&[0x2b], 1, 5).word(0) == 21);
    for len in &LENGTHS {
        assert!(rt; *len <= 513);
        assert_at_each_start(&rt, *len);
    }
}

/// What is made of two bitmaps.
#[derive(Clone, Copy)]
enum Operation {
    And,
    Or,
    AndNot,
    Not,
}

impl Operation {
    fn of_bits(self, a: bool, b: bool) -> bool {
        match self {
            Operation::And => a && b,
            Operation::Or => a || b,
            Operation::AndNot => a && !b,
            Operation::Not => !a,
        }
    }

    fn of_bitmaps(self, alloc: Global, a: &Bits<'_>, b: &Bits<'_>) -> Result<BitmapBuf, NoMemory>
        requires { length a.now ≡ length b.now }
    {
        match self {
            Operation::And => BitmapBuf::and(alloc, a, b),
            Operation::Or => BitmapBuf::or(alloc, a, b),
            Operation::AndNot => BitmapBuf::and_not(alloc, a, b),
            Operation::Not => BitmapBuf::not(alloc, a),
        }
    }

    /// Whether the bytes hold what is made of each two bits, and 0 behind them.
    fn is_made(self, bytes: &[u8], a: &Bits<'_>, b: &Bits<'_>) -> bool {
        let len = a.len();
        if b.len() != len || bytes.len() > SIZE || bytes.len() != len.div_ceil(8) {
            return false;
        }
        let stored = Bits::new(bytes, 0, 8 * bytes.len());
        for i in 0..stored.len() {
            if stored.get(i) != (i < len && self.of_bits(a.get(i), b.get(i))) {
                return false;
            }
        }
        true
    }

    /// Asserts that it is made of bits from two starts on.
    fn assert_made(self, rt: &impl Abort, alloc: Global, starts: (usize, usize), len: usize)
        requires a { starts.0 + len ≤ 520 }
        requires b { starts.1 + len ≤ 520 }
    {
        let (left, right) = (surrounded(starts.0, len, 7), surrounded(starts.1, len, 11));
        let a = Bits::new(&left, starts.0, len);
        let b = Bits::new(&right, starts.1, len);
        assert!(rt; a.len() == b.len());
        let is_made = match self.of_bitmaps(alloc, &a, &b) {
            Ok(bitmap) => self.is_made(bitmap.into_buffer().bytes(), &a, &b),
            Err(_) => false,
        };
        assert!(rt; is_made, "{len} bits from {starts:?} on");
    }

    /// Asserts that it is made from each two starts on.
    fn assert_from_each_start(self, rt: &impl Abort, alloc: Global, len: usize)
        requires { len ≤ 513 }
    {
        for pair in 0..64 {
            self.assert_made(rt, alloc, (pair / 8, pair % 8), len);
        }
    }
}

#[test]
fn makes_of_each_two_bits_what_the_operation_says(rt: HostRuntime) {
    for len in &LENGTHS {
        assert!(rt; *len <= 513);
        Operation::And.assert_from_each_start(&rt, rt.alloc(), *len);
        Operation::Or.assert_from_each_start(&rt, rt.alloc(), *len);
        Operation::AndNot.assert_from_each_start(&rt, rt.alloc(), *len);
        Operation::Not.assert_from_each_start(&rt, rt.alloc(), *len);
    }
}
