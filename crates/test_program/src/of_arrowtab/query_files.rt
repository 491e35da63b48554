//! Queries in files: what is told where their file is read, and where it can't be.
ghost use Rattle.std.specs.Prelude.{◌≡◌, IfOk};

use super::runs::FILE;
use super::{Outcome, assert_case, ran_over};
use arrowtab::memory::{MemorySink, MemorySource, Plan};
use arrowtab::{Job, job, read_query_file};
use std::alloc::{AllocError, Global};
use std::sync::Wait;
use std::thread::Threads;

const OF_FILE: &[&str] = &["arrowtab", "query", "--query-file", "Q", "A"];

const OF_INPUT: &[&str] = &[
    "arrowtab",
    "query",
    "--output",
    "csv",
    "--query-file",
    "-",
    "A",
];

const OF_WORDS: &[&str] = &["arrowtab", "query", "--query", "{}", "A"];

const LINES: &str = "3 9223372036854775806\n";

const RECORDS: &str = "rows,sum(n)\r\n3,9223372036854775806\r\n";

const SUM: &[u8] = br#"{"aggs":[{"agg":"rows"},{"agg":"sum","column":"n"}]}"#;

/// Words, what the query's file holds, and what is told.
static READ: [(&[&str], &[u8], &str); 7] = [
    (OF_FILE, SUM, LINES),
    (OF_INPUT, SUM, RECORDS),
    (OF_FILE, b"", "arrowtab: query: J1 NotJson\n"),
    // Bytes that are no text.
    (
        OF_FILE,
        b"{\"by\":[\"\xff\"]}",
        "arrowtab: query: J1 NotJson\n",
    ),
    (
        OF_FILE,
        br#"{"by":[1]}"#,
        "arrowtab: query: J3 WrongMember at /by/0\n",
    ),
    (
        OF_FILE,
        br#"{"by":["w"]}"#,
        "arrowtab: query: Q1 NoColumn\n",
    ),
    // The query of the words is in no file.
    (OF_WORDS, SUM, "\n"),
];

#[test]
fn a_query_is_read_from_its_file(rt: HostRuntime) {
    for (words, text, wanted) in &READ {
        let is_right = tells(&rt, rt.alloc(), *words, *text, *wanted);
        assert_case(&rt, is_right, *words, *wanted);
    }
}

/// A query's file of these bytes.
fn query_of(alloc: Global, bytes: &[u8]) -> Result<MemorySource, AllocError>
    ensures { IfOk result (λ s. s.failures ≡ 0) }
{
    Ok(MemorySource::new(Vec::from_slice(alloc, bytes)?))
}

/// Whether a run of these words tells this, where the query's file holds that.
fn tells(
    rt: &(impl Wait + Threads + Sync),
    alloc: Global,
    words: &[&str],
    bytes: &[u8],
    wanted: &str,
) -> bool {
    let Ok(mut query) = query_of(alloc, bytes) else {
        return false;
    };
    match ran_over_query(rt, alloc, words, &mut query, MemorySink::new(alloc)) {
        Some(came) => came.tells(wanted) && query.failures() == 0,
        None => false,
    }
}

/// The words of a run, whether writes of its output fail or reads of its query's file, what is printed where none does, and what is reported.
static FAILING: [(&[&str], bool, &str, &str); 3] = [
    (OF_FILE, false, LINES, "arrowtab: Q: cannot be read\n"),
    (OF_INPUT, false, RECORDS, "arrowtab: -: cannot be read\n"),
    (OF_FILE, true, LINES, "arrowtab: output failed\n"),
];

#[test]
fn each_call_of_an_end_fails(rt: HostRuntime) {
    for (words, is_output, whole, line) in &FAILING {
        let is_right = all_fail(&rt, rt.alloc(), *words, *is_output, *whole, *line);
        assert_case(&rt, is_right, *words, *line);
    }
}

/// Whether each call that fails is reported by this line, and nothing is printed, or a front of all where it is of the output, until none does.
fn all_fail(
    rt: &(impl Wait + Threads + Sync),
    alloc: Global,
    words: &[&str],
    is_output: bool,
    whole: &str,
    line: &str,
) -> bool {
    for call in 0..1000 {
        match ran_failing(rt, alloc, words, is_output, Plan::At(call)) {
            Some((came, 0)) => return call > 1 && came.is(0, whole, ""),
            Some((came, _)) if came.tells_front(is_output, whole, line) => {}
            _ => return false,
        }
    }
    false
}

impl Outcome {
    /// Whether it reported this line, and printed nothing, or a front of this.
    fn tells_front(&self, is_front: bool, whole: &str, line: &str) -> bool {
        let (status, out, err) = self.parts();
        (status, err) == (1, line.as_bytes())
            && whole.as_bytes().starts_with(out)
            && (is_front || out.is_empty())
    }
}

/// A run in which a write of the output, or a read of the query's file, fails as planned, and how often it did. Ends take and give little at once.
fn ran_failing(
    rt: &(impl Wait + Threads + Sync),
    alloc: Global,
    words: &[&str],
    is_output: bool,
    plan: Plan,
) -> Option<(Outcome, u64)> {
    let (of_query, of_output) = if is_output {
        (Plan::Never, plan)
    } else {
        (plan, Plan::Never)
    };
    let query = query_of(alloc, SUM).ok()?;
    let mut query = query.in_pieces(20).failing(of_query);
    let out = MemorySink::new(alloc).in_pieces(5).failing(of_output);
    let came = ran_over_query(rt, alloc, words, &mut query, out)?;
    let failures = query.failures().max(came.out.failures());
    Some((came, failures))
}

/// A run over the numbers with this for the query's file, to this output.
fn ran_over_query(
    rt: &(impl Wait + Threads + Sync),
    alloc: Global,
    words: &[&str],
    query: &mut MemorySource,
    out: MemorySink,
) -> Option<Outcome>
    requires query { query.old.failures ≡ 0 }
    requires out { out.failures ≡ 0 }
{
    match job(alloc, words) {
        Ok(job) => ran_asked(rt, alloc, job, query, out),
        Err(_) => None,
    }
}

/// The same of a job whose query may be in that file.
fn ran_asked(
    rt: &(impl Wait + Threads + Sync),
    alloc: Global,
    asked: Job,
    query: &mut MemorySource,
    out: MemorySink,
) -> Option<Outcome>
    requires query { query.old.failures ≡ 0 }
    requires out { out.failures ≡ 0 }
{
    let mut err = MemorySink::new(alloc);
    match read_query_file(alloc, asked, query, &mut err) {
        Some(job) => ran_over(rt, alloc, &job, FILE, out),
        None => Some(Outcome {
            status: 1,
            out,
            err,
        }),
    }
}
