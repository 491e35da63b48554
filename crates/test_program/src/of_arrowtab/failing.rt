//! Each read of each source and each write of the output fails in turn, until a run meets no failure.
ghost use Rattle.std.specs.Prelude.{◌≡◌, ◌^◌, ◌-◌, ◌<◌, All, IfOk};

use super::{Outcome, assert_case, ran, source};
use arrowtab::memory::{MemorySink, MemorySource, Plan};
use std::alloc::{AllocError, Global};
use std::process::Abort;
use std::sync::Wait;
use std::thread::Threads;

/// Numbers, and in a file of its own a number more.
const NUMBERS: &str =
    r#"{"schema":{"fields":[{"name":"n","nullable":true,"type":{"name":"int","bitWidth":64,"isSigned":true},"children":[]}]},"batches":[{"count":3,"columns":[{"name":"n","count":3,"VALIDITY":[1,0,1],"DATA":["9223372036854775807","x",-1]}]}]}"#;

const NUMBER: &str =
    r#"{"schema":{"fields":[{"name":"n","nullable":true,"type":{"name":"int","bitWidth":64,"isSigned":true},"children":[]}]},"batches":[{"count":1,"columns":[{"name":"n","count":1,"DATA":[7]}]}]}"#;

const COLUMN: &str = r#"{"name":"m","nullable":true,"type":{"name":"utf8"}}"#;

const SUM: &str = r#"{"aggs":[{"agg":"rows"},{"agg":"sum","column":"n"}]}"#;

/// The words of runs over one file.
static ALONE: [&[&str]; 7] = [
    &["arrowtab", "stats", "A"],
    &["arrowtab", "stats", "--workers", "2", "A"],
    &["arrowtab", "schema", "A"],
    &["arrowtab", "export", "A"],
    &["arrowtab", "export", "--workers", "2", "A"],
    &["arrowtab", "query", "--query", SUM, "A"],
    &["arrowtab", "export", "--add-column", COLUMN, "A"],
];

/// The words of runs over two files, which print the same whichever worker is first.
static BESIDE: [&[&str]; 6] = [
    &["arrowtab", "stats", "A", "B"],
    &["arrowtab", "stats", "--workers", "2", "A", "B"],
    &["arrowtab", "export", "A", "B"],
    &["arrowtab", "query", "--query", SUM, "A", "B"],
    &[
        "arrowtab",
        "query",
        "--workers",
        "2",
        "--query",
        SUM,
        "A",
        "B",
    ],
    &[
        "arrowtab",
        "stats",
        "--workers",
        "2",
        "--add-column",
        COLUMN,
        "A",
        "B",
    ],
];

/// What fails.
#[derive(Clone, Copy, PartialEq, Eq)]
enum End {
    First,
    Second,
    Output,
}

impl End {
    /// When this end fails where that one does.
    fn plan(self, failing: End, plan: Plan) -> Plan {
        if self == failing { plan } else { Plan::Never }
    }

    /// The line of its fault.
    fn line(self) -> &'static str {
        match self {
            End::First => "arrowtab: A: cannot be read\n",
            End::Second => "arrowtab: B: cannot be read\n",
            End::Output => "arrowtab: output failed\n",
        }
    }
}

#[test]
fn each_call_of_an_end_fails(rt: HostRuntime) {
    for words in &ALONE {
        expect_all_fail(&rt, rt.alloc(), *words, None, End::First);
        expect_all_fail(&rt, rt.alloc(), *words, None, End::Output);
    }
    for words in &BESIDE {
        expect_all_fail(&rt, rt.alloc(), *words, Some(NUMBER), End::First);
        expect_all_fail(&rt, rt.alloc(), *words, Some(NUMBER), End::Second);
        expect_all_fail(&rt, rt.alloc(), *words, Some(NUMBER), End::Output);
    }
}

/// Asserts that each call of an end fails in turn.
fn expect_all_fail(
    rt: &(impl Abort + Wait + Threads + Sync),
    alloc: Global,
    words: &[&str],
    second: Option<&str>,
    end: End,
) {
    let is_right = all_fail(rt, alloc, words, second, end);
    assert_case(rt, is_right, words, end.line());
}

/// Whether each call of an end that fails is reported, and at last, where none does, what is printed without failures.
fn all_fail(
    rt: &(impl Wait + Threads + Sync),
    alloc: Global,
    words: &[&str],
    second: Option<&str>,
    end: End,
) -> bool {
    match ran_failing(rt, alloc, words, second, end, Plan::Never) {
        Some((whole, _)) => all_fail_before(rt, alloc, words, second, end, &whole),
        None => false,
    }
}

/// The same, where this is what comes without failures.
fn all_fail_before(
    rt: &(impl Wait + Threads + Sync),
    alloc: Global,
    words: &[&str],
    second: Option<&str>,
    end: End,
    whole: &Outcome,
) -> bool {
    for call in 0..1000 {
        match ran_failing(rt, alloc, words, second, end, Plan::At(call)) {
            Some((came, 0)) => return call > 0 && came.parts() == whole.parts(),
            Some((came, _)) if came.tells_failure(whole, end) => {}
            _ => return false,
        }
    }
    false
}

/// A run over the numbers, and a second file, in which an end fails as planned, and how often it did.
fn ran_failing(
    rt: &(impl Wait + Threads + Sync),
    alloc: Global,
    words: &[&str],
    second: Option<&str>,
    end: End,
    plan: Plan,
) -> Option<(Outcome, u64)> {
    match second {
        Some(text) => ran_beside(rt, alloc, words, text, end, plan),
        None => ran_alone(rt, alloc, words, end, plan),
    }
}

fn ran_alone(
    rt: &(impl Wait + Threads + Sync),
    alloc: Global,
    words: &[&str],
    end: End,
    plan: Plan,
) -> Option<(Outcome, u64)> {
    let out = slow_output(alloc, End::Output.plan(end, plan));
    match slow_source(alloc, NUMBERS, End::First.plan(end, plan)) {
        Ok(first) => ran_from(rt, alloc, words, &mut [first], out),
        Err(_) => None,
    }
}

fn ran_beside(
    rt: &(impl Wait + Threads + Sync),
    alloc: Global,
    words: &[&str],
    second: &str,
    end: End,
    plan: Plan,
) -> Option<(Outcome, u64)> {
    let out = slow_output(alloc, End::Output.plan(end, plan));
    let first = slow_source(alloc, NUMBERS, End::First.plan(end, plan));
    let second = slow_source(alloc, second, End::Second.plan(end, plan));
    match (first, second) {
        (Ok(first), Ok(second)) => ran_from(rt, alloc, words, &mut [first, second], out),
        _ => None,
    }
}

/// An output that takes little at once, and fails as planned.
fn slow_output(alloc: Global, plan: Plan) -> MemorySink
    ensures { result.failures ≡ 0 }
{
    MemorySink::new(alloc).in_pieces(30).failing(plan)
}

/// A source that gives little at once, and fails as planned.
fn slow_source(alloc: Global, text: &str, plan: Plan) -> Result<MemorySource, AllocError>
    ensures { IfOk result (λ s. s.failures ≡ 0) }
{
    Ok(source(alloc, text)?.in_pieces(50).failing(plan))
}

/// A run, and the most failures of an end.
fn ran_from(
    rt: &(impl Wait + Threads + Sync),
    alloc: Global,
    words: &[&str],
    sources: &mut [MemorySource],
    out: MemorySink,
) -> Option<(Outcome, u64)>
    requires sources { All (λ s. s.failures < 2 ^ 64 - 1) sources.old }
    requires out { out.failures < 2 ^ 64 - 1 }
{
    let came = ran(rt, alloc, words, sources, out)?;
    let mut failures = came.out.failures();
    for source in sources.iter() {
        failures = failures.max(source.failures());
    }
    Some((came, failures))
}

impl Outcome {
    /// Whether it tells that an end failed, and wrote nothing, or a front of all where the output failed.
    fn tells_failure(&self, whole: &Outcome, end: End) -> bool {
        let (status, out, err) = self.parts();
        (status, err) == (1, end.line().as_bytes())
            && whole.out.taken().starts_with(out)
            && (end == End::Output || out.is_empty())
    }
}
