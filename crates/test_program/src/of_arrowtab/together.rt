//! Runs of several workers: what they print doesn't depend on who was first.

use super::{Case, expect_all};

/// A file of the three numbers 9223372036854775807, null and -1.
const NUMBERS: &str =
    r#"{"schema":{"fields":[{"name":"n","nullable":true,"type":{"name":"int","bitWidth":64,"isSigned":true},"children":[]}]},"batches":[{"count":3,"columns":[{"name":"n","count":3,"VALIDITY":[1,0,1],"DATA":["9223372036854775807","x",-1]}]}]}"#;

/// The same under another name.
const OTHER: &str =
    r#"{"schema":{"fields":[{"name":"m","nullable":true,"type":{"name":"int","bitWidth":64,"isSigned":true},"children":[]}]},"batches":[{"count":3,"columns":[{"name":"m","count":3,"VALIDITY":[1,0,1],"DATA":["9223372036854775807","x",-1]}]}]}"#;

/// Texts beside numbers: null and 1, "b" and 2, null and 3, "a" and null.
const PAIRS: &str =
    r#"{"schema":{"fields":[{"name":"k","nullable":true,"type":{"name":"utf8"},"children":[]},{"name":"v","nullable":true,"type":{"name":"int","bitWidth":32,"isSigned":true},"children":[]}]},"batches":[{"count":4,"columns":[{"name":"k","count":4,"VALIDITY":[0,1,0,1],"OFFSET":[0,0,1,1,2],"DATA":["","b","","a"]},{"name":"v","count":4,"VALIDITY":[1,1,1,0],"DATA":[1,2,3,0]}]}]}"#;

/// Runs of several workers.
static RUNS: [Case; 6] = [
    (
        &["arrowtab", "stats", "--workers", "2", "A", "B"],
        NUMBERS,
        Some(NUMBERS),
        "rows 6\nworker 0 calls 1 rows 3\nworker 1 calls 1 rows 3\n\"n\" int64 rows=6 nulls=2 sum=18446744073709551612 least=-1 greatest=9223372036854775807\n",
    ),
    // A worker without a file has its line.
    (
        &["arrowtab", "stats", "--workers", "3", "A", "B"],
        NUMBERS,
        Some(NUMBERS),
        "rows 6\nworker 0 calls 1 rows 3\nworker 1 calls 1 rows 3\nworker 2 calls 0 rows 0\n\"n\" int64 rows=6 nulls=2 sum=18446744073709551612 least=-1 greatest=9223372036854775807\n",
    ),
    (
        &["arrowtab", "stats", "--workers", "2", "A", "Q"],
        NUMBERS,
        Some(PAIRS),
        "arrowtab: Q: batch 0: A1 SchemaDiffers column=0\n",
    ),
    (
        &["arrowtab", "stats", "--workers", "2", "A", "M"],
        NUMBERS,
        Some(OTHER),
        "arrowtab: M: batch 0: A1 SchemaDiffers column=0\n",
    ),
    // The file of a refusal is reported before any worker begins.
    (
        &["arrowtab", "stats", "--workers", "64", "A", "B"],
        NUMBERS,
        Some("{"),
        "arrowtab: B: J1 NotJson\n",
    ),
    (
        &[
            "arrowtab",
            "query",
            "--workers",
            "2",
            "--query",
            COUNTS,
            "A",
            "B",
        ],
        NUMBERS,
        Some(NUMBERS),
        "9223372036854775807 2\nnull 2\n-1 2\n",
    ),
];

/// Counts the rows of each number.
const COUNTS: &str = r#"{"by":["n"],"aggs":[{"agg":"rows"}]}"#;

#[test]
fn several_workers_print_what_one_would(rt: HostRuntime) {
    expect_all(&rt, rt.alloc(), &RUNS);
}

/// Adds the numbers beside each text.
const SUMS: &str = r#"{"by":["k"],"aggs":[{"agg":"sum","column":"v"}]}"#;

const SUMMED: &str = "null 4\n\"b\" 2\n\"a\" null\n";

/// Is past 32 bits at the third row.
const PAST: &str =
    r#"{"filter":{"op":"gt","args":[{"op":"add","args":[{"column":"v"},{"int":2147483645}]},{"int":0}]},"aggs":[{"agg":"rows"}]}"#;

const OVERFLOW: &str = "arrowtab: query: Q4 Overflow row=2\n";

/// Each query by so many workers, and pieces of the rows, which are four.
static ANSWERS: [Case; 8] = [
    (
        &["arrowtab", "query", "--workers", "1", "--query", SUMS, "A"],
        PAIRS,
        None,
        SUMMED,
    ),
    (
        &["arrowtab", "query", "--workers", "2", "--query", SUMS, "A"],
        PAIRS,
        None,
        SUMMED,
    ),
    (
        &["arrowtab", "query", "--workers", "4", "--query", SUMS, "A"],
        PAIRS,
        None,
        SUMMED,
    ),
    (
        &["arrowtab", "query", "--workers", "64", "--query", SUMS, "A"],
        PAIRS,
        None,
        SUMMED,
    ),
    (
        &["arrowtab", "query", "--workers", "1", "--query", PAST, "A"],
        PAIRS,
        None,
        OVERFLOW,
    ),
    (
        &["arrowtab", "query", "--workers", "2", "--query", PAST, "A"],
        PAIRS,
        None,
        OVERFLOW,
    ),
    (
        &["arrowtab", "query", "--workers", "4", "--query", PAST, "A"],
        PAIRS,
        None,
        OVERFLOW,
    ),
    (
        &["arrowtab", "query", "--workers", "64", "--query", PAST, "A"],
        PAIRS,
        None,
        OVERFLOW,
    ),
];

#[test]
fn an_answer_does_not_tell_the_workers(rt: HostRuntime) {
    expect_all(&rt, rt.alloc(), &ANSWERS);
}
