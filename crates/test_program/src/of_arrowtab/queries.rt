//! Queries over memory: the status, what went to the output, and the line of the fault.

use super::{assert_case, expect, filled, ran, source};
use arrowtab::memory::{MemorySink, Plan};
use std::alloc::{AllocError, Global};
use std::process::Abort;
use std::sync::Wait;
use std::thread::Threads;

/// A file of the three numbers 9223372036854775807, null and -1.
const NUMBERS: &str =
    r#"{"schema":{"fields":[{"name":"n","nullable":true,"type":{"name":"int","bitWidth":64,"isSigned":true},"children":[]}]},"batches":[{"count":3,"columns":[{"name":"n","count":3,"VALIDITY":[1,0,1],"DATA":["9223372036854775807","x",-1]}]}]}"#;

/// Texts beside numbers: null and 1, "b" and 2, null and 3, "a" and null.
const PAIRS: &str =
    r#"{"schema":{"fields":[{"name":"k","nullable":true,"type":{"name":"utf8"},"children":[]},{"name":"v","nullable":true,"type":{"name":"int","bitWidth":32,"isSigned":true},"children":[]}]},"batches":[{"count":4,"columns":[{"name":"k","count":4,"VALIDITY":[0,1,0,1],"OFFSET":[0,0,1,1,2],"DATA":["","b","","a"]},{"name":"v","count":4,"VALIDITY":[1,1,1,0],"DATA":[1,2,3,0]}]}]}"#;

/// The same columns without a row.
const NO_ROWS: &str =
    r#"{"schema":{"fields":[{"name":"k","nullable":true,"type":{"name":"utf8"},"children":[]},{"name":"v","nullable":true,"type":{"name":"int","bitWidth":32,"isSigned":true},"children":[]}]},"batches":[]}"#;

/// Texts with offsets of 64 bits beside such of 32: "a" and "a", null and "b", "b" and "a".
const LARGE: &str =
    r#"{"schema":{"fields":[{"name":"k","nullable":true,"type":{"name":"largeutf8"},"children":[]},{"name":"u","nullable":true,"type":{"name":"utf8"},"children":[]}]},"batches":[{"count":3,"columns":[{"name":"k","count":3,"VALIDITY":[1,0,1],"DATA":["a","x","b"]},{"name":"u","count":3,"DATA":["a","b","a"]}]}]}"#;

/// Asserts what a query over a file tells.
fn expect_answer(
    rt: &(impl Abort + Wait + Threads + Sync),
    alloc: Global,
    file: &str,
    query: &str,
    wanted: &str,
) {
    let words = ["arrowtab", "query", "--query", query, "A"];
    expect(rt, alloc, &words, (file, None), wanted);
}

/// A file, a query, and what it tells.
static ASKED: [(&str, &str, &str); 20] = [
    (
        PAIRS,
        r#"{"by":["k"],"aggs":[{"agg":"sum","column":"v"}]}"#,
        "null 4\n\"b\" 2\n\"a\" null\n",
    ),
    // Keys of two columns, and no cells.
    (
        PAIRS,
        r#"{"by":["v","k"]}"#,
        "1 null\n2 \"b\"\n3 null\nnull \"a\"\n",
    ),
    (PAIRS, "{}", "\n"),
    (
        PAIRS,
        r#"{"filter":{"op":"eq","args":[{"column":"k"},{"text":"b"}]},"aggs":[{"agg":"rows"}]}"#,
        "1\n",
    ),
    // Literals beside one another are of 64 bits, signed.
    (
        PAIRS,
        r#"{"filter":{"op":"eq","args":[{"int":1},{"int":1}]},"aggs":[{"agg":"rows"}]}"#,
        "4\n",
    ),
    (
        PAIRS,
        r#"{"filter":{"op":"eq","args":[{"int":"18446744073709551615"},{"int":1}]},"aggs":[{"agg":"rows"}]}"#,
        "arrowtab: query: Q3 WrongKind\n",
    ),
    // Rows whose filter is null are dropped.
    (
        PAIRS,
        r#"{"filter":{"op":"ne","args":[{"column":"k"},{"text":"c"}]},"by":["k"],"aggs":[{"agg":"rows"},{"agg":"count","column":"v"}]}"#,
        "\"b\" 1 1\n\"a\" 1 0\n",
    ),
    // What is null there hides no overflow.
    (
        PAIRS,
        r#"{"filter":{"op":"or","args":[{"op":"is_null","args":[{"column":"v"}]},{"op":"gt","args":[{"op":"add","args":[{"column":"v"},{"int":2147483645}]},{"int":0}]}]},"aggs":[{"agg":"rows"}]}"#,
        "arrowtab: query: Q4 Overflow row=2\n",
    ),
    // The sum of the third row is past 32 bits.
    (
        PAIRS,
        r#"{"filter":{"op":"gt","args":[{"op":"add","args":[{"column":"v"},{"int":2147483645}]},{"int":0}]},"aggs":[{"agg":"rows"}]}"#,
        "arrowtab: query: Q4 Overflow row=2\n",
    ),
    (PAIRS, r#"{"by":["w"]}"#, "arrowtab: query: Q1 NoColumn\n"),
    // A number that no column of 32 bits is compared with.
    (
        PAIRS,
        r#"{"filter":{"op":"gt","args":[{"column":"v"},{"int":2147483648}]}}"#,
        "arrowtab: query: Q3 WrongKind\n",
    ),
    (
        PAIRS,
        r#"{"by":["k","v","k","v","k"]}"#,
        "arrowtab: query: J3 WrongMember at /by\n",
    ),
    (PAIRS, "{", "arrowtab: query: J1 NotJson\n"),
    // Texts of both widths compare.
    (
        LARGE,
        r#"{"filter":{"op":"eq","args":[{"column":"k"},{"column":"u"}]},"by":["k"],"aggs":[{"agg":"rows"},{"agg":"least","column":"k"},{"agg":"greatest","column":"u"}]}"#,
        "\"a\" 1 \"a\" \"a\"\n",
    ),
    (
        LARGE,
        r#"{"filter":{"op":"ge","args":[{"column":"k"},{"text":"b"}]},"aggs":[{"agg":"rows"}]}"#,
        "1\n",
    ),
    (
        LARGE,
        r#"{"by":["k"],"aggs":[{"agg":"rows"}]}"#,
        "\"a\" 1\nnull 1\n\"b\" 1\n",
    ),
    (
        LARGE,
        r#"{"filter":{"op":"is_null","args":[{"column":"k"}]},"aggs":[{"agg":"rows"}]}"#,
        "1\n",
    ),
    (
        NUMBERS,
        r#"{"aggs":[{"agg":"count","column":"n"},{"agg":"least","column":"n"},{"agg":"greatest","column":"n"}]}"#,
        "2 -1 9223372036854775807\n",
    ),
    // So many rows that nobody goes over them one by one.
    (
        r#"{"schema":{"fields":[]},"batches":[{"count":2147483647,"columns":[]},{"count":2147483647,"columns":[]}]}"#,
        r#"{"aggs":[{"agg":"rows"}]}"#,
        "4294967294\n",
    ),
    (
        NO_ROWS,
        r#"{"aggs":[{"agg":"rows"},{"agg":"sum","column":"v"}]}"#,
        "0 null\n",
    ),
];

/// A query that counts the rows where `k` is null, so often negated.
const NEGATED: &str =
    r#"{"filter":NOT{"op":"is_null","args":[{"column":"k"}]}END,"aggs":[{"agg":"rows"}]}"#;

fn negated(alloc: Global, times: usize) -> Result<String, AllocError> {
    let text = filled(alloc, NEGATED, "NOT", (r#"{"op":"not","args":["#, times))?;
    filled(alloc, text.as_str(), "END", ("]}", times))
}

#[test]
fn answers_queries(rt: HostRuntime) {
    for (file, query, wanted) in &ASKED {
        expect_answer(&rt, rt.alloc(), *file, *query, *wanted);
    }
    expect_negated(&rt, rt.alloc(), 30, "2\n");
    expect_negated(&rt, rt.alloc(), 31, "arrowtab: query: Q5 TooDeep\n");
}

/// Asserts what the query that is so often negated tells.
fn expect_negated(
    rt: &(impl Abort + Wait + Threads + Sync),
    alloc: Global,
    times: usize,
    wanted: &str,
) {
    match negated(alloc, times) {
        Ok(query) => expect_answer(rt, alloc, PAIRS, query.as_str(), wanted),
        Err(_) => assert_case(rt, false, &["no memory"], NEGATED),
    }
}

/// A query that isn't read is reported before a source is touched, one that doesn't resolve once all files are loaded: the query,
/// how often the source fails, and the line.
static READ_FIRST: [(&str, u64, &str); 2] = [
    ("[]", 0, "arrowtab: query: J3 WrongMember\n"),
    (r#"{"by":["w"]}"#, 1, "arrowtab: A: cannot be read\n"),
];

#[test]
fn reads_the_query_first(rt: HostRuntime) {
    for (query, failures, line) in &READ_FIRST {
        let is_right = fails_after(&rt, rt.alloc(), *query, *failures, *line);
        assert_case(&rt, is_right, &[*query], *line);
    }
}

/// Whether a query over a source that can't be read comes to this line, after so many failures of the source.
fn fails_after(
    rt: &(impl Wait + Threads + Sync),
    alloc: Global,
    query: &str,
    failures: u64,
    line: &str,
) -> bool {
    let Ok(source) = source(alloc, PAIRS) else {
        return false;
    };
    let mut sources = [source.failing(Plan::At(0))];
    let words = ["arrowtab", "query", "--query", query, "A"];
    match ran(rt, alloc, &words, &mut sources, MemorySink::new(alloc)) {
        Some(came) => came.is(1, "", line) && sources[0].failures() == failures,
        None => false,
    }
}
