ghost use Rattle.std.specs.Prelude.{◌≡◌, ◌^◌, ◌-◌, ◌<◌, ◌↔◌, min, length, take, Some, IfOk, IsErr};
ghost use Rattle.std.specs.Io.{ReadsAtMost};
ghost use Rattle.std.specs.Io.KnownBytes.{ReadConsumes};
ghost use Rattle.ends.specs.Count.{Counts};
ghost use Rattle.ends.specs.Memory.{FailsNext, after_call};

use super::Plan;
use crate::source::{ReadFailed, Source};
use std::marker::Model;

/// A source over bytes in memory.
#[derive(Debug, Drop)]
pub struct MemorySource {
    bytes: Vec<u8>,
    given: usize,
    most: usize,
    plan: Plan,
    failures: u64,
}

impl Model for MemorySource {
    ghost use Rattle.std.specs.Prelude.{◌≤◌, ◌<◌, drop, vec_len};
    ghost use Rattle.ends.specs.Memory.{Supply};

    ghost Value = { Supply };

    ghost view = { λ s. record {
      remaining = drop s.given s.bytes.items;
      most = s.most;
      plan = s.plan;
      failures = s.failures;
    } };

    ghost invariant = { λ s. (s.given ≤ vec_len s.bytes) × (0 < s.most) };
}

impl MemorySource {
    /// A source of these bytes, which gives as many as are requested and never fails.
    pub fn new(bytes: Vec<u8>) -> Self
        ensures { result ≡ record {
          remaining = bytes.items;
          most = usize.MAX;
          plan = Plan.Never;
          failures = 0;
        } }
    {
        MemorySource {
            bytes,
            given: 0,
            most: usize::MAX,
            plan: Plan::Never,
            failures: 0,
        }
    }

    /// Gives at most `most` bytes a read from here on.
    pub fn in_pieces(mut self, most: usize) -> Self
        requires { 0 < most }
        ensures { result ≡ record self { most = most } }
    {
        self.most = most;
        self
    }

    /// Fails as planned, counted from the next read on.
    pub fn failing(mut self, plan: Plan) -> Self
        ensures { result ≡ record self { plan = plan } }
    {
        self.plan = plan;
        self
    }

    /// The bytes that are still to be given.
    pub fn remaining(&self) -> &[u8]
        ensures { result.now ≡ self.now.remaining }
    {
        &self.bytes[self.given..]
    }

    /// How many reads have failed.
    pub fn failures(&self) -> u64
        ensures { result ≡ self.now.failures }
    {
        self.failures
    }
}

impl Source for MemorySource {
    ghost failures = { λ s. s.failures };

    ghost remaining = { λ s. Some s.remaining };

    fn read(&mut self, buffer: &mut [u8]) -> Result<usize, ReadFailed>
        requires { self.old.failures < 2 ^ 64 - 1 }
        ensures bound { ReadsAtMost result buffer.new }
        ensures bytes { ReadConsumes (Some self.old.remaining) (Some self.new.remaining) result buffer.new }
        ensures count { Counts self.old.failures self.new.failures result }

        // How many bytes it gives, and when it fails.
        ensures amount { IfOk result (λ n.
            n ≡ min (min (length self.old.remaining) (length buffer.old)) self.old.most) }
        ensures fails { IsErr result ↔ FailsNext self.old.plan }
        ensures plan { self.new.plan ≡ after_call self.old.plan }
        ensures most { self.new.most ≡ self.old.most }
    {
        if self.plan.fails_next() {
            self.failures += 1;
            return Err(ReadFailed);
        }
        let count = copy_front(&self.bytes[self.given..], buffer, self.most);
        self.given += count;
        Ok(count)
    }
}

// Copies a front of `bytes` to the front of `buffer`: all that both have room for, up to `most`.
fn copy_front(bytes: &[u8], buffer: &mut [u8], most: usize) -> usize
    ensures amount { result ≡ min (min (length bytes.now) (length buffer.old)) most }
    ensures copied { take result buffer.new ≡ take result bytes.now }
{
    let count = bytes.len().min(buffer.len()).min(most);
    buffer[..count].copy_from_slice(&bytes[..count]);
    count
}
