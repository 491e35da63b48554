//! The output of a job, or why there is none.
ghost use Rattle.std.specs.Prelude.{◌≡◌, ◌^◌, ◌-◌, ◌<◌, ◌≤◌, All, IfErr, IfOk, OnOk, length, map, string_bytes};
ghost use Rattle.reports.specs.OrMemory.{OrMemory};
ghost use Rattle.arrowtab.specs.Run.{Answers, Explains, IsFirst};
ghost use Rattle.arrowtab.specs.Wanted.{IsUnprinted, PrintsWanted};

use crate::column::{column_of, with_column};
use crate::groups::groups_text;
use crate::reading::read_files;
use crate::together::load_together;
use crate::wanted::{Wanted, wanted_of};
use ends::Source;
use job::Job;
use reports::{RunFault, export_text, head_text, schema_text, stats_text};
use std::alloc::Global;
use std::sync::Wait;
use std::thread::Threads;
use table::Version;

/// Reads the job's query and its column's field, then all sources, one after the other, has the job's workers load their
/// files, puts the column behind what they loaded, and makes the command's output.
pub(crate) fn answer<W: Wait + Sync, T: Threads + Sync, S: Source>(
    wait: &W,
    threads: &T,
    alloc: Global,
    job: &Job,
    sources: &mut [S],
) -> Result<String, RunFault>
    requires some { 0 < length sources.old }
    requires worker { 1 ≤ job.now.workers }
    requires few { job.now.workers ≤ 64 }
    requires room { All (λ s. S.failures s < 2 ^ 64 - 1) sources.old }
    ensures ok { IfOk result (λ text. Answers job.now (map S.remaining sources.old) (string_bytes text)) }
    ensures unfailed { OnOk result (map S.failures sources.new ≡ map S.failures sources.old) }
    ensures err { IfErr result (Explains job.now (map S.remaining sources.old)
        (map S.failures sources.old) (map S.failures sources.new)) }
    ensures first { IfErr result (IsFirst job.now (map S.remaining sources.old)
        (map S.failures sources.old) (map S.failures sources.new) (sources.new ≡ sources.old)) }
{
    let wanted = wanted_of(alloc, &job.command)?;
    let column = column_of(alloc, job)?;
    let files = read_files(threads, alloc, job.workers, sources)?;
    let loaded = load_together(wait, threads, alloc, job.workers, files)?;
    let version = with_column(alloc, loaded, column)?;
    output_of(threads, alloc, &wanted, job.workers, &version)
}

/// What is wanted, for a version of the table that so many workers have loaded. A query is answered in as many pieces.
fn output_of<T: Threads + Sync>(
    threads: &T,
    alloc: Global,
    wanted: &Wanted,
    workers: u32,
    version: &Version,
) -> Result<String, RunFault>
    requires some { 1 ≤ workers }
    requires few { workers ≤ 64 }
    ensures output { IfOk result (λ text. PrintsWanted wanted.now workers version.now.fields version.now.history (string_bytes text)) }
    ensures err { IfErr result (OrMemory (IsUnprinted wanted.now version.now.fields version.now.history)) }
{
    match wanted {
        Wanted::Stats => Ok(stats_text(alloc, workers, version)?),
        Wanted::Schema => Ok(schema_text(alloc, version)?),
        Wanted::Nothing => Ok(String::new(alloc)),
        Wanted::Head(count) => Ok(head_text(alloc, *count, version)?),
        Wanted::Export => Ok(export_text(alloc, version)?),
        Wanted::Groups(query, output) => {
            groups_text(threads, alloc, query, *output, workers, version)
        }
    }
}
