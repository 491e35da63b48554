//! `bench SUBJECT WORD..` runs what scripts measure: `bench kernels`, `bench table`, `bench versions`, `bench arcs` or
//! `bench query`, each with the words that its module tells. Without a subject each runs on little.
//!
//! It ends with status 0 where that was printed, 1 where a fault was reported on standard error in place of it, and 2 where the
//! words ask for nothing.
#![tactic(auto)]

mod fault;
mod kernel_runs;
mod making;
mod query_runs;
mod table_runs;
mod version_runs;

use fault::Fault;
use std::env;
use std::process::ExitCode;
use std::thread::Threads;
use table_runs::Filling;

fn main(rt: HostRuntime) -> ExitCode {
    match run(&rt, &rt) {
        Ok(()) => ExitCode::SUCCESS,
        Err(fault) => report(&rt, fault),
    }
}

// A table of three batches, the later two of which bring new texts.
const LITTLE: Filling = Filling {
    first: 1000,
    batches: 2,
    rows: 1000,
    fresh: 10,
    columns: 2,
};

// Runs the subject that the first word names on those behind it, or each on little where there is none.
fn run<T: Threads + Sync>(threads: &T, rt: &HostRuntime) -> Result<(), Fault> {
    let Ok(mut words) = env::args(rt) else {
        return Err(Fault::Arguments);
    };
    let _program = words.next();
    let Some(subject) = words.next() else {
        kernel_runs::run_each(rt)?;
        table_runs::tell(rt, LITTLE)?;
        version_runs::tell(rt, 10, 5, 2)?;
        return query_runs::tell(threads, rt, query_runs::SUM_BY_TEXT, (1, 1000), (1, 1));
    };
    let Ok(words) = words.collect::<Vec<String>>(rt.alloc()) else {
        return Err(Fault::Memory);
    };
    match subject.as_str() {
        "kernels" => kernel_runs::run(rt, &words),
        "table" => table_runs::run(rt, &words),
        "versions" => version_runs::run(rt, &words),
        "arcs" => version_runs::copy_arcs(rt, &words),
        "query" => query_runs::run(threads, rt, &words),
        _ => Err(Fault::Arguments),
    }
}

// The word at a place.
fn word(words: &[String], place: usize) -> Result<&str, Fault> {
    match words.get(place) {
        Some(word) => Ok(word.as_str()),
        None => Err(Fault::Arguments),
    }
}

// The number that the word at a place is: of rows, of times or of what else its subject counts.
fn number(words: &[String], place: usize) -> Result<u32, Fault> {
    word(words, place)?.parse().or(Err(Fault::Arguments))
}

// Says why nothing more was printed.
fn report(rt: &HostRuntime, fault: Fault) -> ExitCode {
    let _ = eprintln!(rt; "bench: {}", fault.why());
    ExitCode::from(fault.status())
}
