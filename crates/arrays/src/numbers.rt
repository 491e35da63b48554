//! Numbers as they lie in bytes, of a type that is known only when the program runs.

ghost use Rattle.std.specs.Prelude.{◌≡◌, ◌+◌, ◌*◌, ◌≤◌, ◌++◌, length, OnOk, OnErr};
ghost use Rattle.types.specs.Prelude.{IsOfType, bytes_of, bytes_of_number, number_at};

use crate::with_integer;
use colbits::NoMemory;
use types::{IntType, Integer};

/// Number `j` of a buffer of integers of the type: little-endian, two's complement if signed.
pub fn number_at(ty: IntType, bytes: &[u8], j: usize) -> i128
    requires { j * bytes_of ty.bits + bytes_of ty.bits ≤ length bytes.now }
    ensures { result ≡ number_at ty bytes.now j }
{
    with_integer!(ty, <_>::at(bytes, j))
}

/// Adds the number's bytes at the end. A refused growth changes nothing.
pub fn push_number(bytes: &mut Vec<u8>, ty: IntType, number: i128) -> Result<(), NoMemory>
    requires { IsOfType ty number }
    ensures ok { OnOk result (bytes.new.items ≡ bytes.old.items ++ bytes_of_number ty number) }
    ensures err { OnErr result (bytes.new.items ≡ bytes.old.items) }
{
    with_integer!(ty, <_>::push(bytes, number))
}
