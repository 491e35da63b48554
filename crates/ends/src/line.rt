//! Lines on the error sink.
ghost use Rattle.std.specs.Prelude.{◌^◌, ◌-◌, ◌<◌};
ghost use Rattle.ends.specs.Line.{TookLine, memory_line, output_line};

use crate::sink::{Sink, write_whole};

/// The line that is written where memory ran out. It takes none itself.
const MEMORY_LINE: &[u8] = b"arrowtab: no memory\n";

/// The line that is written where the output failed.
const OUTPUT_LINE: &[u8] = b"arrowtab: output failed\n";

/// Writes that memory ran out.
pub fn tell_memory<E: Sink>(err: &mut E)
    requires { E.failures err.old < 2 ^ 64 - 1 }
    ensures { TookLine memory_line (E.failures err.old) (E.failures err.new) (E.taken err.old) (E.taken err.new) }
{
    write_line(MEMORY_LINE, err);
}

/// Writes that the output failed.
pub fn tell_output<E: Sink>(err: &mut E)
    requires { E.failures err.old < 2 ^ 64 - 1 }
    ensures { TookLine output_line (E.failures err.old) (E.failures err.new) (E.taken err.old) (E.taken err.new) }
{
    write_line(OUTPUT_LINE, err);
}

/// Writes a line. A failure of the sink can't be reported any more; it stands in the sink's count.
pub fn write_line<E: Sink>(line: &[u8], err: &mut E)
    requires { E.failures err.old < 2 ^ 64 - 1 }
    ensures { TookLine line.now (E.failures err.old) (E.failures err.new) (E.taken err.old) (E.taken err.new) }
{
    let _ = write_whole(err, line);
}
