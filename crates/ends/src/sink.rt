//! Where bytes go to.
ghost use Rattle.std.specs.Prelude.{◌^◌, ◌-◌, ◌<◌, ℕ, List, Option, IfOk, OnOk, OnErr, length};
ghost use Rattle.std.specs.Io.{WritesAtMost};
ghost use Rattle.std.specs.Io.KnownBytes.{WriteAppends, Appends};
ghost use Rattle.ends.specs.Count.{Counts};
ghost use Rattle.ends.specs.Sink.{AppendsFront};

use thiserror::Error;

/// A sink took none of the bytes that it was given.
#[derive(Clone, Copy, Debug, PartialEq, Eq, Error)]
#[error("a write failed")]
pub struct WriteFailed;

/// Takes bytes, a piece at a time, and counts the writes that failed.
pub trait Sink {
    // How many of its writes have failed.
    ghost failures: { Self → ℕ };

    // The bytes that it has taken so far, where the sink tells them.
    ghost taken: { Self → Option (List ℕ) };

    /// Takes a front of `bytes`, and says how long it is: at least one byte, if there are any.
    fn write(&mut self, bytes: &[u8]) -> Result<usize, WriteFailed>
        requires { failures self.old < 2 ^ 64 - 1 }
        ensures bound { WritesAtMost result bytes.now }
        ensures progress { IfOk result (λ n. 0 < length bytes.now → 0 < n) }
        ensures bytes { WriteAppends (taken self.old) (taken self.new) result bytes.now }
        ensures count { Counts (failures self.old) (failures self.new) result };
}

/// Writes all of `text`, in as many writes as the sink needs. The first one that fails ends it.
pub fn write_whole<K: Sink>(sink: &mut K, text: &[u8]) -> Result<(), WriteFailed>
    requires { K.failures sink.old < 2 ^ 64 - 1 }
    ensures ok { OnOk result (Appends (K.taken sink.old) (K.taken sink.new) text.now) }
    ensures err { OnErr result (AppendsFront (K.taken sink.old) (K.taken sink.new) text.now) }
    ensures count { Counts (K.failures sink.old) (K.failures sink.new) result }
{
    let mut at = 0;
    while at < text.len() {
        at += sink.write(&text[at..])?;
    }
    Ok(())
}
