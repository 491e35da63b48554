//! Numbers and bits of a view as they lie in its buffers.

ghost use Rattle.std.specs.Prelude.{◌≡◌, ◌+◌, ◌≤◌, length};
ghost use Rattle.colbits.specs.Slice.{slice};
ghost use Rattle.types.specs.Kind as kind;
ghost use Rattle.arrays.specs.Values.{HasBits, HasNumbers};

use crate::view::View;
use colbits::Bits;
use layout::buffers;
use types::IntType;

impl<'a> View<'a> {
    /// The numbers of an integer view, little-endian and behind one another. What lies under a null is
    /// any number.
    pub fn numbers(&self, ty: IntType) -> &'a [u8]
        requires { self.now.kind ≡ kind.int ty }
        ensures { HasNumbers ty result.now self.now }
    {
        let width = ty.bits.bytes();
        let bytes = buffers::bytes_at(self.buffers, 1);
        part(bytes, self.start * width, self.len * width)
    }

    /// The bits of a view of truth values. What lies under a null is any bit.
    pub fn bool_bits(&self) -> Bits<'a>
        requires { self.now.kind ≡ kind.boolean }
        ensures { HasBits result self.now }
    {
        Bits::new(buffers::bytes_at(self.buffers, 1), self.start, self.len)
    }
}

/// The `len` bytes from byte `start` on.
pub(super) fn part(bytes: &[u8], start: usize, len: usize) -> &[u8]
    requires { start + len ≤ length bytes.now }
    ensures { result.now ≡ slice bytes.now start len }
{
    &bytes[start..start + len]
}
