//! An output as a sink of bytes.
ghost use Rattle.std.specs.Prelude.{◌≡◌, ◌^◌, ◌-◌, ◌<◌, ◌≢◌, IfErr};
ghost use Rattle.std.specs.Io.{WritesAtMost};
ghost use Rattle.std.specs.IoError.{error_kind};
ghost use Rattle.std.specs.Io.KnownBytes.{WriteAppends};

use arrowtab::{Sink, WriteFailed};
use std::io;
use std::io::{ErrorKind, Write};

/// An output that is written to at once. A write of which it takes no byte has failed.
#[derive(Drop)]
pub struct OutputSink<W> {
    output: W,
    failures: u64,
}

impl<W> OutputSink<W> {
    pub fn new(output: W) -> Self
        ensures output { result.output ≡ output }
        ensures failures { result.failures ≡ 0 }
    {
        OutputSink {
            output,
            failures: 0,
        }
    }
}

impl<W: Write> Sink for OutputSink<W> {
    ghost failures = { λ s. s.failures };

    ghost taken = { λ s. W.contents s.output };

    fn write(&mut self, bytes: &[u8]) -> Result<usize, WriteFailed> {
        match write_retrying(&mut self.output, bytes) {
            Ok(count) if count > 0 || bytes.is_empty() => Ok(count),
            _ => {
                self.failures += 1;
                Err(WriteFailed)
            }
        }
    }
}

// One write, tried again where a signal interrupts it.
fn write_retrying<W: Write>(output: &mut W, bytes: &[u8]) -> io::Result<usize>
    ensures bound { WritesAtMost result bytes.now }
    ensures retried { IfErr result (λ e. error_kind e ≢ ErrorKind.Interrupted) }
    ensures bytes { WriteAppends (W.contents output.old) (W.contents output.new) result bytes.now }
{
    for _try in 0..u64::MAX {
        match output.write(bytes) {
            Err(error) if error.kind() == ErrorKind::Interrupted => {}
            result => return result,
        }
    }
    Err(io::Error::from(ErrorKind::TimedOut))
}
