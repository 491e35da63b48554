//! A query that is in a file, which is read before any other.
ghost use Rattle.std.specs.Prelude.{◌≡◌, ◌^◌, ◌-◌, ◌<◌, IfNone, IfSome, IsSome, None};
ghost use Rattle.arrowtab.specs.QueryFile.{HasRead, UnreadQuery};
ghost use Rattle.job.specs.Jobs.{IsReady, file_of_query};

use crate::tell::tell_unread;
use ends::{Sink, Source, SourceFault, read_whole, tell_memory};
use job::Job;
use std::alloc::Global;

/// The job with what its query's file holds for the text of its query, read whole from the source of that file. A job without such a file is
/// given as it is, and its source isn't touched.
///
/// None where that can't be read: a line that says so is written to `err` then, as of any other file, and the status to end with is 1.
pub fn read_query_file<S: Source, E: Sink>(
    alloc: Global,
    job: Job,
    source: &mut S,
    err: &mut E,
) -> Option<Job>
    requires source_room { S.failures source.old < 2 ^ 64 - 1 }
    requires err_room { E.failures err.old < 2 ^ 64 - 1 }
    ensures read { IfSome result (HasRead job (S.remaining source.old)) }
    ensures ready { IsReady job → IfSome result IsReady }
    ensures untouched { file_of_query job.command ≡ None → source.new ≡ source.old }
    ensures counted { IfSome result (λ _. S.failures source.new ≡ S.failures source.old) }
    ensures silent { IsSome result → err.new ≡ err.old }
    ensures unread { IfNone result (UnreadQuery job (S.failures source.old) (S.failures source.new)
        (E.failures err.old) (E.failures err.new) (E.taken err.old) (E.taken err.new)) }
{
    let Some(name) = job.query_file() else {
        return Some(job);
    };
    match read_whole(alloc, source) {
        Ok(text) => Some(job.with_query(text)),
        Err(SourceFault::ReadFailed) => {
            tell_unread(alloc, name, err);
            None
        }
        Err(SourceFault::NoMemory) => {
            tell_memory(err);
            None
        }
    }
}
