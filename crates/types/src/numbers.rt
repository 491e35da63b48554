//! Offsets and codes of 32 bits as they lie in bytes.

ghost use Rattle.std.specs.Prelude.{◌≡◌, ◌+◌, ◌*◌, ◌≤◌, false, length};
ghost use Rattle.types.specs.Kind.{int32};
ghost use Rattle.types.specs.Limits.{most_slots};
ghost use Rattle.types.specs.Number.{is_negative, natural, number_at};

use crate::integer::Integer;

/// Number `j` of a buffer of offsets or indices: little-endian, two's complement, 32 bits each.
#[inline(always)]
pub fn int32_at(bytes: &[u8], j: usize) -> i32
    requires { 4 * j + 4 ≤ length bytes.now }
    ensures { result ≡ number_at int32 bytes.now j }
{
    i32::read(bytes, j)
}

/// Number `j` of a buffer of offsets or indices, which isn't negative.
#[inline(always)]
pub fn natural_at(bytes: &[u8], j: usize) -> usize
    requires there { 4 * j + 4 ≤ length bytes.now }
    requires counted { is_negative (number_at int32 bytes.now j) ≡ false }
    ensures number { result ≡ natural (number_at int32 bytes.now j) }
    ensures short { result ≤ most_slots }
{
    int32_at(bytes, j) as usize
}
