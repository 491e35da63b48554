//! Faults as lines on the error sink.
ghost use Rattle.std.specs.Prelude.{◌^◌, ◌-◌, ◌<◌, [], ◌∷◌, IfOk, length, string_bytes};
ghost use Rattle.arrowtab.specs.TookFault.{IsLineOf, IsOfFile, TookFault};
ghost use Rattle.job.specs.Jobs.{names_of};

use arrays::NoMemory;
use ends::{Sink, tell_memory, write_line};
use reports::{FileFault, RunFault, line_of};
use std::alloc::Global;

/// Writes the line of a fault, with the name of its file where it is one of a file, or that memory ran out where there was
/// none for the line. A failure of the sink can't be reported any more; it stands in the sink's count.
pub(crate) fn tell<E: Sink>(alloc: Global, names: &[String], fault: &RunFault, err: &mut E)
    requires named { IsOfFile (length names.now) fault.now }
    requires room { E.failures err.old < 2 ^ 64 - 1 }
    ensures { TookFault (names_of names.now) fault.now (E.failures err.old) (E.failures err.new)
        (E.taken err.old) (E.taken err.new) }
{
    match named_line(alloc, names, fault) {
        Ok(line) => write_line(line.as_bytes(), err),
        Err(NoMemory) => tell_memory(err),
    }
}

/// Writes that the file of this name can't be read, or that memory ran out where there was none for that.
pub(crate) fn tell_unread<E: Sink>(alloc: Global, name: &str, err: &mut E)
    requires { E.failures err.old < 2 ^ 64 - 1 }
    ensures { TookFault (name.now ∷ []) (RunFault.OfFile 0 FileFault.CannotRead) (E.failures err.old) (E.failures err.new)
        (E.taken err.old) (E.taken err.new) }
{
    let fault = RunFault::OfFile {
        file: 0,
        fault: FileFault::CannotRead,
    };
    match line_of(alloc, name, &fault) {
        Ok(line) => write_line(line.as_bytes(), err),
        Err(NoMemory) => tell_memory(err),
    }
}

/// The line of a fault; that memory ran out has one that takes none.
fn named_line(alloc: Global, names: &[String], fault: &RunFault) -> Result<String, NoMemory>
    requires { IsOfFile (length names.now) fault.now }
    ensures { IfOk result (λ text. IsLineOf (names_of names.now) fault.now (string_bytes text)) }
{
    match fault {
        RunFault::OfFile { file, fault: _ } => line_of(alloc, names[*file].as_str(), fault),
        _ => line_of(alloc, "", fault),
    }
}
