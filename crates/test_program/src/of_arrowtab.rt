//! The program over memory. To prove a function costs for each value that it would let go where something fails, and most
//! for an assertion that has a message, and for each reference of a table that isn't static: so cases are rows of statics, they
//! are checked by functions that answer a `bool`, over values that are lent to them, and one function asserts for all of them.
ghost use Rattle.std.specs.Prelude.{◌≡◌, ◌^◌, ◌-◌, ◌<◌, All, IfOk};

mod bytes;
mod columns;
mod exports;
mod failing;
mod heads;
mod names;
mod outputs;
mod queries;
mod query_files;
mod refusals;
mod runs;
mod schemas;
mod several;
mod together;
mod windows;
mod words;

use arrowtab::memory::{MemorySink, MemorySource};
use arrowtab::{Command, Job, Output, job, run};
use embed::RunFault;
use reports::line_of;
use std::alloc::{AllocError, Global};
use std::process::Abort;
use std::sync::Wait;
use std::thread::Threads;

/// What a run came to.
#[derive(Drop)]
pub(crate) struct Outcome {
    pub(crate) status: u8,
    pub(crate) out: MemorySink,
    pub(crate) err: MemorySink,
}

impl Outcome {
    /// The status, and what was written.
    pub(crate) fn parts(&self) -> (u8, &[u8], &[u8]) {
        (self.status, self.out.taken(), self.err.taken())
    }

    /// Whether it is of this status, and wrote this.
    pub(crate) fn is(&self, status: u8, out: &str, err: &str) -> bool {
        self.parts() == (status, out.as_bytes(), err.as_bytes())
    }

    /// Whether it reported this alone: its output, or the line of its fault, which begins with the program's name.
    pub(crate) fn tells(&self, wanted: &str) -> bool {
        if wanted.starts_with("arrowtab: ") {
            self.is(1, "", wanted)
        } else {
            self.is(0, wanted, "")
        }
    }
}

/// A source of a text.
pub(crate) fn source(alloc: Global, text: &str) -> Result<MemorySource, AllocError>
    ensures { IfOk result (λ s. s.failures ≡ 0) }
{
    Ok(MemorySource::new(Vec::from_slice(alloc, text.as_bytes())?))
}

/// Runs what the words ask for, from these sources to this output. None where they ask for no job over so many files.
pub(crate) fn ran(
    rt: &(impl Wait + Threads + Sync),
    alloc: Global,
    words: &[&str],
    sources: &mut [MemorySource],
    out: MemorySink,
) -> Option<Outcome>
    requires sources { All (λ s. s.failures < 2 ^ 64 - 1) sources.old }
    requires out { out.failures < 2 ^ 64 - 1 }
{
    match job(alloc, words) {
        Ok(job) => ran_job(rt, alloc, &job, sources, out),
        Err(_) => None,
    }
}

/// Does a job from these sources to this output. None where it is of other files than so many, or of no workers that it may have.
pub(crate) fn ran_job(
    rt: &(impl Wait + Threads + Sync),
    alloc: Global,
    job: &Job,
    sources: &mut [MemorySource],
    out: MemorySink,
) -> Option<Outcome>
    requires sources { All (λ s. s.failures < 2 ^ 64 - 1) sources.old }
    requires out { out.failures < 2 ^ 64 - 1 }
{
    if sources.is_empty() || job.names.len() != sources.len() {
        return None;
    }
    if job.workers < 1 || job.workers > 64 {
        return None;
    }
    let mut out = out;
    let mut err = MemorySink::new(alloc);
    let status = run(rt, rt, alloc, job, sources, &mut out, &mut err);
    Some(Outcome { status, out, err })
}

/// The same over a file of this text.
pub(crate) fn ran_over(
    rt: &(impl Wait + Threads + Sync),
    alloc: Global,
    job: &Job,
    text: &str,
    out: MemorySink,
) -> Option<Outcome>
    requires { out.failures < 2 ^ 64 - 1 }
{
    match source(alloc, text) {
        Ok(source) => ran_job(rt, alloc, job, &mut [source], out),
        Err(_) => None,
    }
}

/// The same over files of two texts.
fn ran_over_both(
    rt: &(impl Wait + Threads + Sync),
    alloc: Global,
    job: &Job,
    texts: (&str, &str),
    out: MemorySink,
) -> Option<Outcome>
    requires { out.failures < 2 ^ 64 - 1 }
{
    match (source(alloc, texts.0), source(alloc, texts.1)) {
        (Ok(first), Ok(second)) => ran_job(rt, alloc, job, &mut [first, second], out),
        _ => None,
    }
}

/// Whether a job over one file or two of these texts tells this, and the library gives the same.
fn is_right(
    rt: &(impl Wait + Threads + Sync),
    alloc: Global,
    job: &Job,
    files: (&str, Option<&str>),
    wanted: &str,
) -> bool {
    let out = MemorySink::new(alloc);
    let came = match files.1 {
        Some(second) => ran_over_both(rt, alloc, job, (files.0, second), out),
        None => ran_over(rt, alloc, job, files.0, out),
    };
    match came {
        Some(came) => came.tells(wanted) && is_of_library(alloc, job, files, &came),
        None => false,
    }
}

/// Whether the library gives of the same files what a run came to. It has one worker, and adds no column.
fn is_of_library(alloc: Global, job: &Job, files: (&str, Option<&str>), came: &Outcome) -> bool {
    if job.workers != 1 || job.column.is_some() {
        return true;
    }
    let first = files.0.as_bytes();
    match files.1 {
        Some(second) => is_given(alloc, job, &[first, second.as_bytes()], came),
        None => is_given(alloc, job, &[first], came),
    }
}

/// Whether the library's answer, where it has a call for the job, is what a run came to: its output, or the line of its fault.
fn is_given(alloc: Global, job: &Job, texts: &[&[u8]], came: &Outcome) -> bool {
    match given(alloc, job, texts) {
        None => true,
        Some(Ok(text)) => came.is(0, text.as_str(), ""),
        Some(Err(fault)) => is_line(alloc, job, &fault, came),
    }
}

/// What the library gives of files for a job, none where it has no call for it.
fn given(alloc: Global, job: &Job, texts: &[&[u8]]) -> Option<Result<String, RunFault>> {
    match &job.command {
        Command::Stats => Some(embed::stats(alloc, texts)),
        Command::Schema => Some(embed::schema(alloc, texts)),
        Command::Validate => match embed::validate(alloc, texts) {
            Ok(()) => Some(Ok(String::new(alloc))),
            Err(fault) => Some(Err(fault)),
        },
        Command::Export => Some(embed::export(alloc, texts)),
        Command::Query {
            query,
            output: Output::Lines,
        } => Some(embed::query(alloc, query.text(), texts)),
        Command::Head(_) | Command::Query { .. } => None,
    }
}

/// Whether a run came to the line of this fault.
fn is_line(alloc: Global, job: &Job, fault: &RunFault, came: &Outcome) -> bool {
    match line_of(alloc, name_of(job, fault), fault) {
        Ok(line) => came.is(1, "", line.as_str()),
        Err(_) => false,
    }
}

/// The name of a fault's file, if it is one of a file.
fn name_of<'a>(job: &'a Job, fault: &RunFault) -> &'a str {
    match fault {
        RunFault::OfFile { file, fault: _ } => match job.names.get(*file) {
            Some(name) => name.as_str(),
            None => "",
        },
        _ => "",
    }
}

/// Asserts what a run over one file or two of these texts tells: its output, or the line of its fault.
pub(crate) fn expect(
    rt: &(impl Abort + Wait + Threads + Sync),
    alloc: Global,
    words: &[&str],
    files: (&str, Option<&str>),
    wanted: &str,
) {
    let is_right = match job(alloc, words) {
        Ok(job) => is_right(rt, alloc, &job, files, wanted),
        Err(_) => false,
    };
    assert_case(rt, is_right, words, files.0);
}

/// The words of a run, one file or two, and what it tells.
pub(crate) type Case = (
    &'static [&'static str],
    &'static str,
    Option<&'static str>,
    &'static str,
);

/// Asserts each.
pub(crate) fn expect_all(rt: &(impl Abort + Wait + Threads + Sync), alloc: Global, cases: &[Case]) {
    for (words, first, second, wanted) in cases {
        expect(rt, alloc, *words, (*first, *second), *wanted);
    }
}

/// Asserts that a case is as it should be, and names it by its words and a text where it isn't.
pub(crate) fn assert_case(rt: &impl Abort, is_right: bool, words: &[&str], text: &str) {
    assert!(rt; is_right, "for {words:?} and {text}");
}

/// A text with a piece, so many times, in the place of a word.
pub(crate) fn filled(
    alloc: Global,
    text: &str,
    word: &str,
    (piece, times): (&str, usize),
) -> Result<String, AllocError> {
    let pieces = piece.repeat(alloc, times)?;
    text.replace(alloc, word, pieces.as_str())
}
