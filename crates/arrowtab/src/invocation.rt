//! The program over any sources and any two sinks.
ghost use Rattle.std.specs.Prelude.{◌≡◌, ◌^◌, ◌-◌, ◌<◌, ◌≤◌, All, length, map};
ghost use Rattle.arrowtab.specs.Run.{Excuse, Wrote, WroteFront};

use crate::answer::answer;
use crate::tell::tell;
use ends::{Sink, Source, tell_output, write_whole};
use job::Job;
use std::alloc::Global;
use std::sync::Wait;
use std::thread::Threads;

/// Does the job: reads its query and its column's field, where it has them, and then all sources in order, loads their files,
/// adds the column, writes the output, and answers the status: 0 where all of the output was written, 1 where a fault was reported to `err` instead.
///
/// Nothing goes to `out` before the whole answer is there. Where the ends tell their bytes, the
/// contract says which they are; the count of failures of each end is to have room for one more. Several workers load
/// the files at once, each in a thread of its own: whose batches come first is open, and the output is of one history that
/// all of them saw a beginning of.
pub fn run<W: Wait + Sync, T: Threads + Sync, S: Source, O: Sink, E: Sink>(
    wait: &W,
    threads: &T,
    alloc: Global,
    job: &Job,
    sources: &mut [S],
    out: &mut O,
    err: &mut E,
) -> u8
    requires some { 0 < length sources.old }
    requires named { length job.now.names.items ≡ length sources.old }
    requires worker { 1 ≤ job.now.workers }
    requires few { job.now.workers ≤ 64 }
    requires source_room { All (λ s. S.failures s < 2 ^ 64 - 1) sources.old }
    requires out_room { O.failures out.old < 2 ^ 64 - 1 }
    requires err_room { E.failures err.old < 2 ^ 64 - 1 }
    ensures status { result < 2 }

    // Status 0: all of the output was written, no source failed, and nothing was reported.
    ensures wrote { result ≡ 0 → Wrote job.now (map S.remaining sources.old) (O.taken out.old) (O.taken out.new) }
    ensures unfailed { result ≡ 0 → map S.failures sources.new ≡ map S.failures sources.old }
    ensures silent { result ≡ 0 → err.new ≡ err.old }

    // Status 1: none of it was, or a beginning of it where the output failed ..
    ensures quiet { result ≡ 1 → WroteFront job.now (map S.remaining sources.old)
        (O.taken out.old) (O.taken out.new) (O.failures out.old) (O.failures out.new) }

    // .. and there is a cause, the first that was met, whose line the error sink took.
    ensures excused { result ≡ 1 → Excuse job.now (map S.remaining sources.old)
        (map S.failures sources.old) (map S.failures sources.new) (sources.new ≡ sources.old)
        (O.failures out.old) (O.failures out.new) (E.failures err.old) (E.failures err.new)
        (E.taken err.old) (E.taken err.new) }
{
    match answer(wait, threads, alloc, job, sources) {
        Ok(text) => match write_whole(out, text.as_bytes()) {
            Ok(()) => 0,
            Err(_) => {
                tell_output(err);
                1
            }
        },
        Err(fault) => {
            tell(alloc, &job.names, &fault, err);
            1
        }
    }
}
