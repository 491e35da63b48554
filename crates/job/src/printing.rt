//! Faults of the command line, on the sinks.
ghost use Rattle.std.specs.Prelude.{◌^◌, ◌-◌, ◌<◌};
ghost use Rattle.job.specs.Printed.{Printed, PrintedHelp, PrintedLine};

use crate::fault::JobFault;
use clap::Error;
use clap::error::ErrorKind;
use ends::{Sink, tell_memory, tell_output, write_line, write_whole};
use std::alloc::Global;

/// The line that is written where the words are no job.
const ARGUMENTS_LINE: &[u8] = b"arrowtab: bad arguments\n";

/// The line that is written where there is no query.
const NO_QUERY_LINE: &[u8] = b"arrowtab: query wants --query or --query-file\n";

/// The line that is written where there are two queries.
const TWO_QUERIES_LINE: &[u8] = b"arrowtab: --query and --query-file are two queries\n";

/// The line that is written where more than one of the files is standard input.
const INPUT_TWICE_LINE: &[u8] = b"arrowtab: - is standard input, which is read once\n";

/// The line that is written where what stands for `--output` is no form of it.
const OUTPUT_LINE: &[u8] = b"arrowtab: --output is lines, json or csv\n";

/// Prints what a fault says, and answers the status to end with: 0 where that is help or the version and all of it was written, 1 where
/// memory ran out or the output failed, 2 for a mistake in the words.
pub fn print_fault<O: Sink, E: Sink>(
    alloc: Global,
    fault: &JobFault,
    out: &mut O,
    err: &mut E,
) -> u8
    requires out_room { O.failures out.old < 2 ^ 64 - 1 }
    requires err_room { E.failures err.old < 2 ^ 64 - 1 }
    ensures { Printed result (O.failures out.old) (O.failures out.new) (O.taken out.old) (O.taken out.new)
        (E.failures err.old) (E.failures err.new) (E.taken err.old) (E.taken err.new) fault.now }
{
    match fault {
        JobFault::Line(error) => print_line(alloc, error, out, err),
        JobFault::Unread => {
            write_line(ARGUMENTS_LINE, err);
            2
        }
        JobFault::NoQuery => {
            write_line(NO_QUERY_LINE, err);
            2
        }
        JobFault::TwoQueries => {
            write_line(TWO_QUERIES_LINE, err);
            2
        }
        JobFault::InputTwice => {
            write_line(INPUT_TWICE_LINE, err);
            2
        }
        JobFault::UnknownOutput => {
            write_line(OUTPUT_LINE, err);
            2
        }
        JobFault::NoMemory => {
            tell_memory(err);
            1
        }
    }
}

/// The text of an error of `clap`: help and the version on the output, anything else on the error sink.
fn print_line<O: Sink, E: Sink>(alloc: Global, error: &Error, out: &mut O, err: &mut E) -> u8
    requires out_room { O.failures out.old < 2 ^ 64 - 1 }
    requires err_room { E.failures err.old < 2 ^ 64 - 1 }
    ensures { PrintedLine result (O.failures out.old) (O.failures out.new) (O.taken out.old) (O.taken out.new)
        (E.failures err.old) (E.failures err.new) (E.taken err.old) (E.taken err.new) error.now }
{
    let Ok(text) = error.to_string(alloc) else {
        tell_memory(err);
        return 1;
    };
    match error.kind() {
        ErrorKind::DisplayHelp | ErrorKind::DisplayVersion => print_help(text.as_bytes(), out, err),
        _ => {
            write_line(text.as_bytes(), err);
            2
        }
    }
}

/// Help or the version, on the output.
fn print_help<O: Sink, E: Sink>(text: &[u8], out: &mut O, err: &mut E) -> u8
    requires out_room { O.failures out.old < 2 ^ 64 - 1 }
    requires err_room { E.failures err.old < 2 ^ 64 - 1 }
    ensures { PrintedHelp result (O.failures out.old) (O.failures out.new) (O.taken out.old) (O.taken out.new)
        (E.failures err.old) (E.failures err.new) (E.taken err.old) (E.taken err.new) text.now }
{
    match write_whole(out, text) {
        Ok(()) => 0,
        Err(_) => {
            tell_output(err);
            1
        }
    }
}
