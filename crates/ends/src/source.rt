//! Where bytes come from.
ghost use Rattle.std.specs.Prelude.{◌≡◌, ◌^◌, ◌-◌, ◌<◌, ℕ, List, Option, IfOk, IfSome, OnOk, OnErr, vec_len};
ghost use Rattle.std.specs.Io.{ReadsAtMost};
ghost use Rattle.std.specs.Io.KnownBytes.{ReadConsumes, IsAtEnd};
ghost use Rattle.ends.specs.Count.{Counts};
ghost use Rattle.ends.specs.Source.{CountsReads, LosesFront};
ghost use Rattle.ends.specs.declared.source.SourceFault.TheVariants as fault;

use std::alloc::{AllocError, Global};
use thiserror::Error;

/// A source could not give the bytes that were requested.
#[derive(Clone, Copy, Debug, PartialEq, Eq, Error)]
#[error("a read failed")]
pub struct ReadFailed;

/// Why a source was not read to its end.
#[derive(Clone, Copy, Debug, PartialEq, Eq, Error)]
pub enum SourceFault {
    /// A read of the source failed.
    #[error("a read failed")]
    ReadFailed,
    /// There was no room for the bytes.
    #[error("out of memory")]
    NoMemory,
}

impl From<ReadFailed> for SourceFault {
    ghost from_gives = { λ _ e. e ≡ fault.ReadFailed };

    fn from(_: ReadFailed) -> SourceFault {
        SourceFault::ReadFailed
    }
}

impl From<AllocError> for SourceFault {
    ghost from_gives = { λ _ e. e ≡ fault.NoMemory };

    fn from(_: AllocError) -> SourceFault {
        SourceFault::NoMemory
    }
}

/// Gives bytes, a piece at a time, and counts the reads that failed.
pub trait Source {
    // How many of its reads have failed.
    ghost failures: { Self → ℕ };

    // The bytes that reads will give from here on, where the source tells them.
    ghost remaining: { Self → Option (List ℕ) };

    /// Puts the next bytes at the front of `buffer`, and says how many they are. It gives 0 only at
    /// the end of the input, or where `buffer` has no room.
    fn read(&mut self, buffer: &mut [u8]) -> Result<usize, ReadFailed>
        requires { failures self.old < 2 ^ 64 - 1 }
        ensures bound { ReadsAtMost result buffer.new }
        ensures bytes { ReadConsumes (remaining self.old) (remaining self.new) result buffer.new }
        ensures count { Counts (failures self.old) (failures self.new) result };
}

/// How many bytes are requested at once.
const CHUNK: usize = 64 * 1024;

// Room for `length` bytes.
fn room(alloc: Global, length: usize) -> Result<Vec<u8>, AllocError>
    ensures { IfOk result (λ bytes. vec_len bytes ≡ length) }
{
    vec![in alloc; 0; length]
}

/// Reads all that `source` still has to give.
///
/// The first read that fails ends it. Bytes that came before a fault are lost.
pub fn read_whole<S: Source>(alloc: Global, source: &mut S) -> Result<Vec<u8>, SourceFault>
    requires { S.failures source.old < 2 ^ 64 - 1 }
    ensures whole { IfOk result (λ bytes.
        IfSome (S.remaining source.old) (λ input. bytes.items ≡ input)) }
    ensures end { OnOk result (IsAtEnd (S.remaining source.new)) }
    ensures err { OnErr result (LosesFront (S.remaining source.old) (S.remaining source.new)) }
    ensures count { CountsReads (S.failures source.old) (S.failures source.new) result }
{
    let mut chunk = room(alloc, CHUNK)?;
    let mut bytes = Vec::new(alloc);
    for _turn in 0..u64::MAX {
        let count = source.read(chunk.as_mut_slice())?;
        if count == 0 {
            return Ok(bytes);
        }
        bytes.extend_from_slice(&chunk[..count])?;
    }
    unreachable!()
}
