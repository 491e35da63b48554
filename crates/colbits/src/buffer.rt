ghost use Rattle.std.specs.Prelude.{◌≡◌, ◌≤◌, List, length, IfOk};
ghost use Rattle.colbits.specs.Padding.{stored_length};

use crate::memory::NoMemory;
use std::alloc::Global;
use std::marker::Model;

/// Bytes of an Arrow array, stored with zeros behind them up to a multiple of 64.
///
/// Clauses see the content, without the padding.
#[derive(Drop)]
pub struct Buffer {
    stored: Vec<u8>,
    len: usize,
}

impl Model for Buffer {
    ghost use Rattle.std.specs.Prelude.{◌≡◌, ◌≤◌, ℕ, List, take, vec_len};
    ghost use Rattle.colbits.specs.Padding.{padded};

    ghost Value = { List ℕ };

    ghost view = { λ b. take b.len b.stored.items };

    ghost invariant = { λ b. (b.len ≤ vec_len b.stored) × (b.stored.items ≡ padded (take b.len b.stored.items)) };
}

impl Buffer {
    /// A buffer of a copy of the bytes.
    pub fn from_bytes(alloc: Global, bytes: &[u8]) -> Result<Buffer, NoMemory>
        ensures { IfOk result (λ b. b ≡ bytes.now) }
    {
        let mut stored = Vec::with_capacity(alloc, bytes.len())?;
        stored.extend_from_slice(bytes)?;
        Buffer::from_vec(stored)
    }

    /// A buffer of the bytes themselves, which grow by the padding alone.
    pub fn from_vec(bytes: Vec<u8>) -> Result<Buffer, NoMemory>
        ensures { IfOk result (λ b. b ≡ bytes.items) }
    {
        let len = bytes.len();
        let mut stored = bytes;
        let padding = (64 - len % 64) % 64;
        stored.extend_from_slice(&[0; 64][..padding])?;
        Ok(Buffer { stored, len })
    }

    /// The content.
    pub fn bytes(&self) -> &[u8]
        ensures { result.now ≡ self.now }
    {
        &self.stored[..self.len]
    }

    /// How many bytes are stored: the least multiple of 64 that holds the content, so 0 for none.
    pub fn stored_len(&self) -> usize
        ensures { result ≡ stored_length (length self.now) }
    {
        self.stored.len()
    }
}
