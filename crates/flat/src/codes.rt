//! Indices of a dictionary as codes of 32 bits, which arrays have.

ghost use Rattle.std.specs.Prelude.{◌≡◌, ◌+◌, ◌*◌, ◌≤◌, IfOk, length};
ghost use Rattle.arrays.specs.Prelude.{IsOfType, bytes_of, int32, number_at};
ghost use Rattle.flat.specs.Parts.{code, code_bytes};

use arrays::{Buffer, INT32, IntType, Integer, NoMemory, push_number, with_integer};
use std::alloc::Global;

/// The codes of all indices of the type that lie in bytes.
pub(crate) fn codes(alloc: Global, ty: IntType, bytes: &[u8]) -> Result<Buffer, NoMemory>
    ensures { IfOk result (λ b. b ≡ code_bytes ty bytes.now) }
{
    with_integer!(ty, codes_of::<_>(alloc, bytes))
}

/// The same where Rust knows the type.
#[tactic(auto, unfolding(crate::specs::Parts::code_bytes))]
fn codes_of<T: Integer>(alloc: Global, bytes: &[u8]) -> Result<Buffer, NoMemory>
    ensures { IfOk result (λ b. b ≡ code_bytes T.ty bytes.now) }
{
    let count = bytes.len() / T::ty().bits.bytes();
    let mut codes = Vec::with_capacity(alloc, count.saturating_mul(4))?;
    for j in 0..count {
        push_number(&mut codes, INT32, code_at::<T>(bytes, j))?;
    }
    Buffer::from_vec(codes)
}

/// The code of index `j`; -1, which names no entry, where it is no number of 32 bits.
fn code_at<T: Integer>(bytes: &[u8], j: usize) -> i128
    requires { j * bytes_of T.ty.bits + bytes_of T.ty.bits ≤ length bytes.now }
    ensures value { result ≡ code (number_at T.ty bytes.now j) }
    ensures of_type { IsOfType int32 result }
{
    let index = T::at(bytes, j);
    if INT32.holds(index) { index } else { -1 }
}
