//! `arrowtab stats FILE..` prints the statistics of the columns of Arrow integration JSON files, `arrowtab export FILE..` the
//! table that they are, and `arrowtab query --query QUERY FILE..` what a query asks of it, which may be in a file (`--query-file`). With
//! `--workers N` so many load the files; with `--add-column FIELD` a column comes behind the others then. One of the files may be `-`,
//! standard input.
//!
//! It ends with status 0 where all of that was written, 1 where a fault was reported on standard error
//! instead, and 2 where its arguments are others. `arrowtab --help` tells what it takes.
#![tactic(auto)]

mod file;
mod output;

ghost use Rattle.std.specs.Prelude.{◌≡◌, ◌<◌, ◌^◌, ◌-◌, All, IfOk, length};
ghost use Rattle.job.specs.Jobs.{IsReady};

use arrowtab::{Job, JobFault, job, print_fault, read_query_file, run};
use file::FileSource;
use output::OutputSink;
use std::alloc::AllocError;
use std::io::ErrorKind;
use std::process::ExitCode;
use std::sync::Wait;
use std::thread::Threads;
use std::{env, io};

// The job that the words of the command line ask for. Words that are no text ask for none.
fn requested_job(rt: &HostRuntime) -> Result<Job, JobFault>
    ensures { IfOk result IsReady }
{
    match env::args(rt) {
        Ok(words) => job_of(rt, words),
        Err(error) if error.kind() == ErrorKind::InvalidData => Err(JobFault::Unread),
        Err(_) => Err(JobFault::NoMemory),
    }
}

fn job_of(rt: &HostRuntime, words: env::Args) -> Result<Job, JobFault>
    ensures { IfOk result IsReady }
{
    let Ok(words) = words.collect::<Vec<String>>(rt.alloc()) else {
        return Err(JobFault::NoMemory);
    };
    let Ok(texts) = words
        .iter()
        .map(String::as_str)
        .collect::<Vec<&str>>(rt.alloc())
    else {
        return Err(JobFault::NoMemory);
    };
    job(rt.alloc(), texts.as_slice())
}

// A source for each name.
fn sources_of<'a>(
    rt: &'a HostRuntime,
    names: &'a [String],
) -> Result<Vec<FileSource<'a, HostRuntime>>, AllocError>
    ensures count { IfOk result (λ sources. length sources.items ≡ length names.now) }
    ensures failures { IfOk result (λ sources. All (λ s. s.failures < 2 ^ 64 - 1) sources.items) }
{
    let mut sources = Vec::with_capacity(rt.alloc(), names.len())?;
    for name in names {
        sources.push(FileSource::new(rt, name.as_str()))?;
    }
    Ok(sources)
}

// The job with its query, which is read where it is in a file; or the status, where that can't be and was reported.
fn with_query(rt: &HostRuntime, job: Job) -> Result<Job, u8>
    requires { IsReady job }
    ensures { IfOk result IsReady }
{
    let name = match job.query_file() {
        Some(name) => String::from_str(rt.alloc(), name),
        None => return Ok(job),
    };
    let Ok(name) = name else {
        return Err(report(rt, &JobFault::NoMemory));
    };
    let errors = rt.stderr();
    let mut err = OutputSink::new(io::writer(&errors));
    let mut source = FileSource::new(rt, name.as_str());
    read_query_file(rt.alloc(), job, &mut source, &mut err).ok_or(1)
}

// Does the job, in threads of this handle, which may wait for one another, and answers the status.
fn run_job<W: Wait + Sync, T: Threads + Sync>(
    wait: &W,
    threads: &T,
    rt: &HostRuntime,
    job: &Job,
) -> u8
    requires { IsReady job.now }
{
    let Ok(mut sources) = sources_of(rt, &job.names) else {
        return report(rt, &JobFault::NoMemory);
    };
    let errors = rt.stderr();
    let mut out = OutputSink::new(io::writer(rt));
    let mut err = OutputSink::new(io::writer(&errors));
    run(
        wait,
        threads,
        rt.alloc(),
        job,
        sources.as_mut_slice(),
        &mut out,
        &mut err,
    )
}

// Prints why there is no job, and answers the status.
fn report(rt: &HostRuntime, fault: &JobFault) -> u8 {
    let errors = rt.stderr();
    let mut out = OutputSink::new(io::writer(rt));
    let mut err = OutputSink::new(io::writer(&errors));
    print_fault(rt.alloc(), fault, &mut out, &mut err)
}

fn main(rt: HostRuntime) -> ExitCode {
    let status = match requested_job(&rt) {
        Ok(job) => match with_query(&rt, job) {
            Ok(job) => run_job(&rt, &rt, &rt, &job),
            Err(status) => status,
        },
        Err(fault) => report(&rt, &fault),
    };
    ExitCode::from(status)
}
