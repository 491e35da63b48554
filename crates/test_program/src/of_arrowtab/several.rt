//! Runs over two files: which faults name which file, and what is counted where.

use super::{Case, expect_all};

const STATS: &[&str] = &["arrowtab", "stats", "A", "B"];

/// A file of a column of numbers that may not be null: 5 and 7.
const FIVE_AND_SEVEN: &str =
    r#"{"schema":{"fields":[{"name":"n","nullable":false,"type":{"name":"int","bitWidth":8,"isSigned":true},"children":[]}]},"batches":[{"count":2,"columns":[{"name":"n","count":2,"DATA":[5,7]}]}]}"#;

/// The number -3.
const MINUS_THREE: &str =
    r#"{"schema":{"fields":[{"name":"n","nullable":false,"type":{"name":"int","bitWidth":8,"isSigned":true},"children":[]}]},"batches":[{"count":1,"columns":[{"name":"n","count":1,"DATA":[-3]}]}]}"#;

/// A null.
const NULL: &str =
    r#"{"schema":{"fields":[{"name":"n","nullable":false,"type":{"name":"int","bitWidth":8,"isSigned":true},"children":[]}]},"batches":[{"count":1,"columns":[{"name":"n","count":1,"VALIDITY":[0],"DATA":[0]}]}]}"#;

/// The number -3, and a null in a batch of its own.
const MINUS_THREE_AND_NULL: &str =
    r#"{"schema":{"fields":[{"name":"n","nullable":false,"type":{"name":"int","bitWidth":8,"isSigned":true},"children":[]}]},"batches":[{"count":1,"columns":[{"name":"n","count":1,"DATA":[-3]}]},{"count":1,"columns":[{"name":"n","count":1,"VALIDITY":[0],"DATA":[0]}]}]}"#;

/// The number -3 in a column of another name.
const OTHER: &str =
    r#"{"schema":{"fields":[{"name":"m","nullable":false,"type":{"name":"int","bitWidth":8,"isSigned":true},"children":[]}]},"batches":[{"count":1,"columns":[{"name":"n","count":1,"DATA":[-3]}]}]}"#;

/// The column of another name, and no batch.
const NO_OTHER: &str =
    r#"{"schema":{"fields":[{"name":"m","nullable":false,"type":{"name":"int","bitWidth":8,"isSigned":true},"children":[]}]},"batches":[]}"#;

/// The beginning of a file.
const CUT: &str =
    r#"{"schema":{"fields":[{"name":"n","nullable":false,"type":{"name":"int","bitWidth":8,"isSigned":true}"#;

/// Two files, and what is reported of them.
static RUNS: [Case; 6] = [
    (
        STATS,
        FIVE_AND_SEVEN,
        Some(MINUS_THREE),
        "rows 3\nworker 0 calls 2 rows 3\n\"n\" int8 rows=3 nulls=0 sum=9 least=-3 greatest=7\n",
    ),
    // Batches are counted within their file.
    (
        STATS,
        FIVE_AND_SEVEN,
        Some(MINUS_THREE_AND_NULL),
        "arrowtab: B: batch 1: A2 NullInNonNullable column=0 row=0\n",
    ),
    (
        STATS,
        FIVE_AND_SEVEN,
        Some(OTHER),
        "arrowtab: B: batch 0: A1 SchemaDiffers column=0\n",
    ),
    // Another schema without batches is none that differs.
    (
        STATS,
        FIVE_AND_SEVEN,
        Some(NO_OTHER),
        "rows 2\nworker 0 calls 1 rows 2\n\"n\" int8 rows=2 nulls=0 sum=12 least=5 greatest=7\n",
    ),
    // All files are read before a batch is added.
    (STATS, NULL, Some(CUT), "arrowtab: B: J1 NotJson\n"),
    // The first of two faults is reported.
    (STATS, CUT, Some("[]"), "arrowtab: A: J1 NotJson\n"),
];

#[test]
fn files_are_added_in_order(rt: HostRuntime) {
    expect_all(&rt, rt.alloc(), &RUNS);
}
