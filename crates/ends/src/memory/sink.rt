ghost use Rattle.std.specs.Prelude.{◌≡◌, ◌^◌, ◌-◌, ◌<◌, [], min, length, Some, IfOk, IsErr};
ghost use Rattle.std.specs.Io.{WritesAtMost};
ghost use Rattle.std.specs.Io.KnownBytes.{WriteAppends};
ghost use Rattle.ends.specs.Count.{Counts};
ghost use Rattle.ends.specs.Memory.{FailsNext, after_call};

use super::Plan;
use crate::sink::{Sink, WriteFailed};
use std::alloc::Global;
use std::marker::Model;

/// A sink that keeps in memory what it takes.
#[derive(Debug, Drop)]
pub struct MemorySink {
    bytes: Vec<u8>,
    most: usize,
    plan: Plan,
    failures: u64,
}

impl Model for MemorySink {
    ghost use Rattle.std.specs.Prelude.{◌<◌};
    ghost use Rattle.ends.specs.Memory.{Store};

    ghost Value = { Store };

    ghost view = { λ s. record {
      taken = s.bytes.items;
      most = s.most;
      plan = s.plan;
      failures = s.failures;
    } };

    ghost invariant = { λ s. 0 < s.most };
}

impl MemorySink {
    /// A sink with no bytes, which takes all that it is given and fails only where memory does.
    pub fn new(alloc: Global) -> Self
        ensures { result ≡ record {
          taken = [];
          most = usize.MAX;
          plan = Plan.Never;
          failures = 0;
        } }
    {
        MemorySink {
            bytes: Vec::new(alloc),
            most: usize::MAX,
            plan: Plan::Never,
            failures: 0,
        }
    }

    /// Takes at most `most` bytes a write from here on.
    pub fn in_pieces(mut self, most: usize) -> Self
        requires { 0 < most }
        ensures { result ≡ record self { most = most } }
    {
        self.most = most;
        self
    }

    /// Fails as planned, counted from the next write on.
    pub fn failing(mut self, plan: Plan) -> Self
        ensures { result ≡ record self { plan = plan } }
    {
        self.plan = plan;
        self
    }

    /// The bytes that were taken so far.
    pub fn taken(&self) -> &[u8]
        ensures { result.now ≡ self.now.taken }
    {
        &self.bytes
    }

    /// How many writes have failed.
    pub fn failures(&self) -> u64
        ensures { result ≡ self.now.failures }
    {
        self.failures
    }
}

impl Sink for MemorySink {
    ghost failures = { λ s. s.failures };

    ghost taken = { λ s. Some s.taken };

    /// A write for which there is no memory fails too.
    fn write(&mut self, bytes: &[u8]) -> Result<usize, WriteFailed>
        requires { self.old.failures < 2 ^ 64 - 1 }
        ensures bound { WritesAtMost result bytes.now }
        ensures progress { IfOk result (λ n. 0 < length bytes.now → 0 < n) }
        ensures bytes { WriteAppends (Some self.old.taken) (Some self.new.taken) result bytes.now }
        ensures count { Counts self.old.failures self.new.failures result }

        // How many bytes it takes, and when it fails.
        ensures amount { IfOk result (λ n. n ≡ min (length bytes.now) self.old.most) }
        ensures fails { FailsNext self.old.plan → IsErr result }
        ensures plan { self.new.plan ≡ after_call self.old.plan }
        ensures most { self.new.most ≡ self.old.most }
    {
        let count = bytes.len().min(self.most);
        if self.plan.fails_next() || self.bytes.extend_from_slice(&bytes[..count]).is_err() {
            self.failures += 1;
            return Err(WriteFailed);
        }
        Ok(count)
    }
}
