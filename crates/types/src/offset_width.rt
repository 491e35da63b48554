//! The two widths of offsets.

ghost use Rattle.std.specs.Prelude.{◌≡◌, pos, ◌+◌, ◌*◌, ◌≤◌, ◌++◌, false, length, OnOk, OnErr};
ghost use Rattle.types.specs.Number.{bytes_of_number, is_negative, natural, number_at};
ghost use Rattle.types.specs.OffsetSize.{is_full, most_of, offset_type, size_of};

use crate::integer::Integer;
use crate::limits::MOST_SLOTS;
use colbits::NoMemory;

/// How wide the offsets of texts and lists are: 32 bits, or 64 in those that Arrow calls large. (Arrow columnar format,
/// "Variable-size binary layout", "Variable-size list layout")
#[derive(Clone, Copy, Debug, PartialEq, Eq)]
pub enum OffsetWidth {
    Narrow,
    Wide,
}

impl OffsetWidth {
    /// How many bytes an offset takes.
    #[inline(always)]
    pub fn bytes(self) -> usize
        ensures { result ≡ size_of self }
    {
        match self {
            OffsetWidth::Narrow => 4,
            OffsetWidth::Wide => 8,
        }
    }

    /// The most that an offset counts: 2^31 - 1 or 2^63 - 1.
    #[inline(always)]
    pub fn most(self) -> usize
        ensures { result ≡ most_of self }
    {
        match self {
            OffsetWidth::Narrow => MOST_SLOTS,
            OffsetWidth::Wide => i64::MAX as usize,
        }
    }

    /// Whether texts of so many bytes are more than their offsets count. No memory holds more than wide ones count.
    #[inline(always)]
    pub fn is_full(self, bytes: usize) -> bool
        ensures { result ≡ is_full self bytes }
    {
        match self {
            OffsetWidth::Narrow => bytes > MOST_SLOTS,
            OffsetWidth::Wide => false,
        }
    }

    /// Offset `j` of a buffer: little-endian, two's complement.
    #[inline(always)]
    pub fn at(self, bytes: &[u8], j: usize) -> i64
        requires { j * size_of self + size_of self ≤ length bytes.now }
        ensures { result ≡ number_at (offset_type self) bytes.now j }
    {
        match self {
            OffsetWidth::Narrow => i32::read(bytes, j) as i64,
            OffsetWidth::Wide => i64::read(bytes, j),
        }
    }

    /// Offset `j` of a buffer, which isn't negative.
    #[inline(always)]
    pub fn natural_at(self, bytes: &[u8], j: usize) -> usize
        requires there { j * size_of self + size_of self ≤ length bytes.now }
        requires counted { is_negative (number_at (offset_type self) bytes.now j) ≡ false }
        ensures number { result ≡ natural (number_at (offset_type self) bytes.now j) }
        ensures short { result ≤ most_of self }
    {
        match self {
            OffsetWidth::Narrow => i32::read(bytes, j) as usize,
            OffsetWidth::Wide => i64::read(bytes, j) as usize,
        }
    }

    /// Adds an offset's bytes at the end. A refused growth changes nothing.
    pub fn push(self, bytes: &mut Vec<u8>, offset: usize) -> Result<(), NoMemory>
        requires { offset ≤ most_of self }
        ensures ok { OnOk result (bytes.new.items ≡ bytes.old.items ++ bytes_of_number (offset_type self) (pos offset)) }
        ensures err { OnErr result (bytes.new.items ≡ bytes.old.items) }
    {
        match self {
            OffsetWidth::Narrow => i32::push(bytes, offset as i128),
            OffsetWidth::Wide => i64::push(bytes, offset as i128),
        }
    }
}
