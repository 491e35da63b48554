//! Files that are parsed side by side: however many workers there are, one thing is reported of five files.
ghost use Rattle.std.specs.Prelude.{◌≡◌, ◌^◌, ◌-◌, ◌<◌, All, IfOk};

use super::{assert_case, ran, source};
use arrowtab::memory::{MemorySink, MemorySource, Plan};
use std::alloc::{AllocError, Global};
use std::process::Abort;
use std::sync::Wait;
use std::thread::Threads;

/// A file of the number 7, one without batches, and bytes that are no file.
const SEVEN: &str =
    r#"{"schema":{"fields":[{"name":"n","nullable":true,"type":{"name":"int","bitWidth":8,"isSigned":true},"children":[]}]},"batches":[{"count":1,"columns":[{"name":"n","count":1,"DATA":[7]}]}]}"#;

const NONE: &str =
    r#"{"schema":{"fields":[{"name":"n","nullable":true,"type":{"name":"int","bitWidth":8,"isSigned":true},"children":[]}]},"batches":[]}"#;

const CUT: &str = r#"{"schema":"#;

/// Counts the rows, and adds the numbers.
const SUM: &str = r#"{"aggs":[{"agg":"rows"},{"agg":"sum","column":"n"}]}"#;

static WORKERS: [&str; 4] = ["1", "2", "4", "64"];

/// What each of five files is, by a letter, and what is reported of them: s is seven, n has no batches, c is cut, and the source
/// of f fails.
static RUNS: [([u8; 5], &str); 18] = [
    (*b"sssss", "5 35\n"),
    (*b"snsns", "3 21\n"),
    (*b"nnnns", "1 7\n"),
    (*b"cssss", "arrowtab: A: J1 NotJson\n"),
    (*b"scsss", "arrowtab: B: J1 NotJson\n"),
    (*b"sscss", "arrowtab: C: J1 NotJson\n"),
    (*b"ssscs", "arrowtab: D: J1 NotJson\n"),
    (*b"ssssc", "arrowtab: E: J1 NotJson\n"),
    (*b"ccsss", "arrowtab: A: J1 NotJson\n"),
    (*b"ssccc", "arrowtab: C: J1 NotJson\n"),
    (*b"fssss", "arrowtab: A: cannot be read\n"),
    (*b"sfsss", "arrowtab: B: cannot be read\n"),
    (*b"ssfss", "arrowtab: C: cannot be read\n"),
    (*b"sssfs", "arrowtab: D: cannot be read\n"),
    (*b"ssssf", "arrowtab: E: cannot be read\n"),
    (*b"scfss", "arrowtab: B: J1 NotJson\n"),
    (*b"sfcss", "arrowtab: B: cannot be read\n"),
    (*b"cnsff", "arrowtab: A: J1 NotJson\n"),
];

#[test]
fn the_first_fault_is_reported(rt: HostRuntime) {
    for (files, wanted) in &RUNS {
        expect_by_each(&rt, rt.alloc(), files, *wanted);
    }
}

/// Asserts what each number of workers tells of five files.
fn expect_by_each(
    rt: &(impl Abort + Wait + Threads + Sync),
    alloc: Global,
    files: &[u8],
    wanted: &str,
) {
    for workers in &WORKERS {
        let words = [
            "arrowtab",
            "query",
            "--workers",
            *workers,
            "--query",
            SUM,
            "A",
            "B",
            "C",
            "D",
            "E",
        ];
        let is_right = is_reported(rt, alloc, &words, files, wanted);
        assert_case(rt, is_right, &words, wanted);
    }
}

/// Whether this is what the words of a run tell of files.
fn is_reported(
    rt: &(impl Wait + Threads + Sync),
    alloc: Global,
    words: &[&str],
    files: &[u8],
    wanted: &str,
) -> bool {
    let Ok(mut sources) = sources_of(alloc, files) else {
        return false;
    };
    match ran(rt, alloc, words, &mut sources, MemorySink::new(alloc)) {
        Some(came) => came.tells(wanted),
        None => false,
    }
}

/// The sources of files, by their letters.
fn sources_of(alloc: Global, files: &[u8]) -> Result<Vec<MemorySource>, AllocError>
    ensures { IfOk result (λ v. All (λ s. s.failures < 2 ^ 64 - 1) v.items) }
{
    let mut sources = Vec::new(alloc);
    for file in files {
        sources.push(source_of(alloc, *file)?)?;
    }
    Ok(sources)
}

/// The source of a file, by its letter.
fn source_of(alloc: Global, file: u8) -> Result<MemorySource, AllocError>
    ensures { IfOk result (λ s. s.failures ≡ 0) }
{
    match file {
        b'n' => source(alloc, NONE),
        b'c' => source(alloc, CUT),
        b'f' => Ok(source(alloc, SEVEN)?.failing(Plan::At(0))),
        _ => source(alloc, SEVEN),
    }
}
