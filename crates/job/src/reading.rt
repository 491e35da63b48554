//! The words of the command line as a job.
ghost use Rattle.std.specs.Prelude.{◌≡◌, ◌≤◌, IfErr, IfOk, IfSome, None, codes, map, option_map};
ghost use Rattle.clap.specs.Words.{all_of, first_of, found_of, rows_of, subcommand_rows_of};
ghost use Rattle.job.specs.Jobs.{Asks, Finds, HasAddedColumn, HasNoOutput, HasNoWorkers, HasOutput, HasOwn, HasQuery, HasWorkers, IsFaultOf, IsNoCommand, IsReady, IsUnfound, names_of, word_of};

use crate::command_line::arrowtab;
use crate::fault::JobFault;
use crate::jobs::{Command, Job, Output, QuerySource};
use clap::ArgMatches;
use clap::error::ErrorKind;
use std::alloc::{AllocError, Global};

/// The job that the words of the command line ask for. The first is the program's name.
pub fn job(alloc: Global, words: &[&str]) -> Result<Job, JobFault>
    ensures job { IfOk result (Asks (map (λ w. w.now) words.now)) }
    ensures ready { IfOk result IsReady }
    ensures err { IfErr result (IsFaultOf (map (λ w. w.now) words.now)) }
{
    let Ok(line) = arrowtab(alloc) else {
        return Err(JobFault::NoMemory);
    };
    match line.try_get_matches_from(words) {
        Ok(matches) => job_of(alloc, &matches),
        Err(error) => match error.kind() {
            ErrorKind::OutOfMemory => Err(JobFault::NoMemory),
            _ => Err(JobFault::Line(error)),
        },
    }
}

/// The job of matches that `clap` made of the words.
fn job_of(alloc: Global, matches: &ArgMatches<'_>) -> Result<Job, JobFault>
    ensures found { IfOk result (Finds (subcommand_rows_of matches.now)) }
    ensures ready { IfOk result IsReady }
    ensures err { IfErr result (IsUnfound (subcommand_rows_of matches.now)) }
{
    let Some((word, found)) = matches.subcommand() else {
        return Err(JobFault::Unread);
    };
    let command = command_of(alloc, word, found)?;
    let Some(files) = files_of(found) else {
        return Err(JobFault::Unread);
    };
    if files.is_empty() {
        return Err(JobFault::Unread);
    }
    let Some(workers) = workers_of(found) else {
        return Err(JobFault::Unread);
    };
    let Ok(names) = names_of(alloc, files) else {
        return Err(JobFault::NoMemory);
    };
    let Ok(column) = column_of(alloc, found) else {
        return Err(JobFault::NoMemory);
    };
    let job = Job {
        command,
        names,
        workers,
        column,
    };
    if job.reads_input_twice() {
        return Err(JobFault::InputTwice);
    }
    Ok(job)
}

/// The command of this word, with what `clap` found behind it.
fn command_of(alloc: Global, word: &str, found: &ArgMatches<'_>) -> Result<Command, JobFault>
    ensures word { IfOk result (λ command. word.now ≡ word_of command) }
    ensures own { IfOk result (HasOwn (rows_of (found_of found.now))) }
    ensures err { IfErr result (IsNoCommand word.now (rows_of (found_of found.now))) }
{
    match word {
        "stats" => Ok(Command::Stats),
        "schema" => Ok(Command::Schema),
        "validate" => Ok(Command::Validate),
        "head" => head_of(found),
        "export" => Ok(Command::Export),
        "query" => query_of(alloc, found),
        _ => Err(JobFault::Unread),
    }
}

/// The command that prints as many rows as stand for `-n`.
fn head_of(found: &ArgMatches<'_>) -> Result<Command, JobFault>
    ensures word { IfOk result (λ command. codes "head" ≡ word_of command) }
    ensures own { IfOk result (HasOwn (rows_of (found_of found.now))) }
    ensures err { IfErr result (IsNoCommand (codes "head") (rows_of (found_of found.now))) }
{
    let Some(rows) = found.get_one::<u64>("ROWS") else {
        return Err(JobFault::Unread);
    };
    Ok(Command::Head(rows))
}

/// The command that asks the query.
fn query_of(alloc: Global, found: &ArgMatches<'_>) -> Result<Command, JobFault>
    ensures word { IfOk result (λ command. codes "query" ≡ word_of command) }
    ensures own { IfOk result (HasOwn (rows_of (found_of found.now))) }
    ensures err { IfErr result (IsNoCommand (codes "query") (rows_of (found_of found.now))) }
{
    let Some(output) = output_of(found) else {
        return Err(JobFault::UnknownOutput);
    };
    match source_of(alloc, found) {
        Ok(query) => Ok(Command::Query { query, output }),
        Err(fault) => Err(fault),
    }
}

/// A copy of what stands for `--query`, or of the name for `--query-file`.
fn source_of(alloc: Global, found: &ArgMatches<'_>) -> Result<QuerySource, JobFault>
    ensures ok { IfOk result (HasQuery (rows_of (found_of found.now))) }
    ensures err { IfErr result (IsNoCommand (codes "query") (rows_of (found_of found.now))) }
{
    match (text_of(found), file_of(found)) {
        (Some(text), None) => match Vec::from_slice(alloc, text.as_bytes()) {
            Ok(text) => Ok(QuerySource::Text(text)),
            Err(_) => Err(JobFault::NoMemory),
        },
        (None, Some(name)) => match String::from_str(alloc, name) {
            Ok(name) => Ok(QuerySource::File(name)),
            Err(_) => Err(JobFault::NoMemory),
        },
        (None, None) => Err(JobFault::NoQuery),
        (Some(_), Some(_)) => Err(JobFault::TwoQueries),
    }
}

/// The form that stands for `--output`, if it is one.
fn output_of(found: &ArgMatches<'_>) -> Option<Output>
    ensures word { IfSome result (HasOutput (rows_of (found_of found.now))) }
    ensures none { result ≡ None → HasNoOutput (rows_of (found_of found.now)) }
{
    match format_of(found)? {
        "lines" => Some(Output::Lines),
        "json" => Some(Output::Json),
        "csv" => Some(Output::Csv),
        _ => None,
    }
}

/// What stands for `--output`.
fn format_of<'a>(found: &ArgMatches<'a>) -> Option<&'a str>
    ensures { option_map (λ text. text.now) result ≡ first_of (codes "FORMAT") (rows_of (found_of found.now)) }
{
    found.get_str("FORMAT")
}

/// What stands for `--query`.
fn text_of<'a>(found: &ArgMatches<'a>) -> Option<&'a str>
    ensures { option_map (λ text. text.now) result ≡ first_of (codes "QUERY") (rows_of (found_of found.now)) }
{
    found.get_str("QUERY")
}

/// What stands for `--query-file`.
fn file_of<'a>(found: &ArgMatches<'a>) -> Option<&'a str>
    ensures { option_map (λ name. name.now) result ≡ first_of (codes "QUERY_FILE") (rows_of (found_of found.now)) }
{
    found.get_str("QUERY_FILE")
}

/// A copy of what stands for `--add-column`, where it is there.
fn column_of(alloc: Global, found: &ArgMatches<'_>) -> Result<Option<String>, AllocError>
    ensures { IfOk result (HasAddedColumn (rows_of (found_of found.now))) }
{
    match field_of(found) {
        Some(field) => Ok(Some(String::from_str(alloc, field)?)),
        None => Ok(None),
    }
}

/// What stands for `--add-column`.
fn field_of<'a>(found: &ArgMatches<'a>) -> Option<&'a str>
    ensures { option_map (λ text. text.now) result ≡ first_of (codes "FIELD") (rows_of (found_of found.now)) }
{
    found.get_str("FIELD")
}

/// What stands for `FILE..`
fn files_of<'a, 'b>(found: &'b ArgMatches<'a>) -> Option<&'b [&'a str]>
    ensures { option_map (λ files. map (λ file. file.now) files.now) result
        ≡ all_of (codes "FILE") (rows_of (found_of found.now)) }
{
    found.get_strs("FILE")
}

/// What stands for `--workers`, if it is a number from 1 to 64.
fn workers_of(found: &ArgMatches<'_>) -> Option<u32>
    ensures value { IfSome result (HasWorkers (rows_of (found_of found.now))) }
    ensures few { IfSome result (λ workers. (1 ≤ workers) × (workers ≤ 64)) }
    ensures none { result ≡ None → HasNoWorkers (rows_of (found_of found.now)) }
{
    let workers = found.get_one::<u32>("N")?;
    if workers < 1 || workers > 64 {
        return None;
    }
    Some(workers)
}

/// Texts of their own.
fn names_of(alloc: Global, files: &[&str]) -> Result<Vec<String>, AllocError>
    ensures { IfOk result (λ names. names_of names.items ≡ map (λ file. file.now) files.now) }
{
    let mut names = Vec::with_capacity(alloc, files.len())?;
    for file in files {
        names.push(String::from_str(alloc, file)?)?;
    }
    Ok(names)
}
