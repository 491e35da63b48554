//! Runs that add a column once the files are loaded.

use super::runs::FILE;
use super::{Case, expect, expect_all};
use std::alloc::Global;
use std::process::Abort;
use std::sync::Wait;
use std::thread::Threads;

/// The same column as the file's, and another behind it.
const WIDER: &str =
    r#"{"schema":{"fields":[{"name":"n","nullable":true,"type":{"name":"int","bitWidth":64,"isSigned":true},"children":[]},{"name":"m","nullable":true,"type":{"name":"int","bitWidth":16,"isSigned":true},"children":[]}]},"batches":[{"count":1,"columns":[{"name":"n","count":1,"DATA":[1]},{"name":"m","count":1,"DATA":[2]}]}]}"#;

/// The file's column without a batch.
const NO_BATCH: &str =
    r#"{"schema":{"fields":[{"name":"n","nullable":true,"type":{"name":"int","bitWidth":64,"isSigned":true},"children":[]}]},"batches":[]}"#;

const NUMBERS: &str =
    r#"{"name":"m","nullable":true,"type":{"name":"int","bitWidth":16,"isSigned":true}}"#;

const TEXTS: &str = r#"{"name":"m","nullable":true,"type":{"name":"utf8"}}"#;

/// A field that may hold no null.
const FULL: &str =
    r#"{"name":"m","nullable":false,"type":{"name":"int","bitWidth":16,"isSigned":true}}"#;

/// What `stats` tells of the file with a column of a field.
static STATISTICS: [Case; 5] = [
    (
        &["arrowtab", "stats", "--add-column", NUMBERS, "A"],
        FILE,
        None,
        "rows 3\nworker 0 calls 1 rows 3\n\"n\" int64 rows=3 nulls=1 sum=9223372036854775806 least=-1 greatest=9223372036854775807\n\"m\" int16 rows=3 nulls=3 sum=0 least=- greatest=-\n",
    ),
    (
        &["arrowtab", "stats", "--add-column", TEXTS, "A"],
        FILE,
        None,
        "rows 3\nworker 0 calls 1 rows 3\n\"n\" int64 rows=3 nulls=1 sum=9223372036854775806 least=-1 greatest=9223372036854775807\n\"m\" dictionary rows=3 nulls=3 sum=- least=- greatest=-\n",
    ),
    // The number of a dictionary is read, and not kept.
    (
        &[
            "arrowtab",
            "stats",
            "--add-column",
            r#"{"name":"m","nullable":true,"type":{"name":"utf8"},"dictionary":{"id":7,"indexType":{"name":"int","bitWidth":8,"isSigned":true},"isOrdered":false}}"#,
            "A",
        ],
        FILE,
        None,
        "rows 3\nworker 0 calls 1 rows 3\n\"n\" int64 rows=3 nulls=1 sum=9223372036854775806 least=-1 greatest=9223372036854775807\n\"m\" dictionary rows=3 nulls=3 sum=- least=- greatest=-\n",
    ),
    (
        &[
            "arrowtab",
            "stats",
            "--add-column",
            r#"{"name":"m","nullable":true,"type":{"name":"list"},"children":[{"name":"item","nullable":false,"type":{"name":"largelist"},"children":[{"name":"item","nullable":true,"type":{"name":"largeutf8"}}]}]}"#,
            "A",
        ],
        FILE,
        None,
        "rows 3\nworker 0 calls 1 rows 3\n\"n\" int64 rows=3 nulls=1 sum=9223372036854775806 least=-1 greatest=9223372036854775807\n\"m\" list<largelist<largeutf8>> rows=3 nulls=3 sum=- least=- greatest=-\n",
    ),
    // Two fields may have one name.
    (
        &["arrowtab", "stats", "--add-column", TRUTHS, "A"],
        FILE,
        None,
        "rows 3\nworker 0 calls 1 rows 3\n\"n\" int64 rows=3 nulls=1 sum=9223372036854775806 least=-1 greatest=9223372036854775807\n\"n\" bool rows=3 nulls=3 sum=- least=- greatest=-\n",
    ),
];

/// A field of the name that the file's column has.
const TRUTHS: &str = r#"{"name":"n","nullable":true,"type":{"name":"bool"}}"#;

#[test]
fn a_column_has_statistics(rt: HostRuntime) {
    expect_all(&rt, rt.alloc(), &STATISTICS);
}

/// A text of which no column is added, and why.
static FAULTS: [(&str, &str); 10] = [
    (FULL, "arrowtab: column: N1 NotNullable\n"),
    (
        r#"{"name":"m","nullable":true,"type":{"name":"date"}}"#,
        "arrowtab: column: J4 UnsupportedType at /type\n",
    ),
    ("", "arrowtab: column: J1 NotJson\n"),
    ("[]", "arrowtab: column: J3 WrongMember\n"),
    ("{}", "arrowtab: column: J2 MissingMember at /name\n"),
    ("{} {}", "arrowtab: column: J1 NotJson\n"),
    (
        r#"{"name":"m","nullable":1,"type":{"name":"bool"}}"#,
        "arrowtab: column: J3 WrongMember at /nullable\n",
    ),
    (
        r#"{"name":"m","nullable":true,"type":{"name":"bool"},"children":[{}]}"#,
        "arrowtab: column: J3 WrongMember at /children\n",
    ),
    // A dictionary in a list.
    (
        r#"{"name":"m","nullable":true,"type":{"name":"list"},"children":[{"name":"item","nullable":true,"type":{"name":"utf8"},"dictionary":{"id":0,"indexType":{"name":"int","bitWidth":8,"isSigned":true}}}]}"#,
        "arrowtab: column: J4 UnsupportedType at /children/0\n",
    ),
    (
        r#"{"name":"m","nullable":true,"type":{"name":"utf8"},"dictionary":{"indexType":{"name":"int","bitWidth":8,"isSigned":true}}}"#,
        "arrowtab: column: J2 MissingMember at /dictionary/id\n",
    ),
];

#[test]
fn a_column_may_not_be_added(rt: HostRuntime) {
    for (field, wanted) in &FAULTS {
        expect_fault(&rt, rt.alloc(), "stats", *field, *wanted);
        expect_fault(&rt, rt.alloc(), "export", *field, *wanted);
    }
}

/// Asserts what a command tells of a field of which no column is added.
fn expect_fault(
    rt: &(impl Abort + Wait + Threads + Sync),
    alloc: Global,
    command: &str,
    field: &str,
    wanted: &str,
) {
    let words = ["arrowtab", command, "--add-column", field, "A"];
    expect(rt, alloc, &words, (FILE, None), wanted);
}

/// Queries with fields, files, and which of their faults is reported: the query is read first, then the field, then the file, and
/// the column is added last.
static FIRST: [Case; 6] = [
    (
        &["arrowtab", "query", "--query", "{", "A"],
        "{",
        None,
        "arrowtab: query: J1 NotJson\n",
    ),
    (
        &[
            "arrowtab",
            "query",
            "--query",
            "{",
            "--add-column",
            "{",
            "A",
        ],
        "{",
        None,
        "arrowtab: query: J1 NotJson\n",
    ),
    // A query that is read and names no column, over a file that isn't.
    (
        &[
            "arrowtab",
            "query",
            "--query",
            BY_O,
            "--add-column",
            NUMBERS,
            "A",
        ],
        "{",
        None,
        "arrowtab: A: J1 NotJson\n",
    ),
    (
        &[
            "arrowtab",
            "query",
            "--query",
            "{}",
            "--add-column",
            "{",
            "A",
        ],
        "{",
        None,
        "arrowtab: column: J1 NotJson\n",
    ),
    (
        &[
            "arrowtab",
            "query",
            "--query",
            "{}",
            "--add-column",
            FULL,
            "A",
        ],
        "{",
        None,
        "arrowtab: A: J1 NotJson\n",
    ),
    (
        &[
            "arrowtab",
            "query",
            "--query",
            BY_O,
            "--add-column",
            FULL,
            "A",
        ],
        FILE,
        None,
        "arrowtab: column: N1 NotNullable\n",
    ),
];

/// A query by a column that isn't there.
const BY_O: &str = r#"{"by":["o"]}"#;

/// Queries over the file with a column of a field, and what they tell.
static ANSWERS: [Case; 5] = [
    (
        &[
            "arrowtab",
            "query",
            "--query",
            r#"{"by":["m"],"aggs":[{"agg":"rows"}]}"#,
            "--add-column",
            NUMBERS,
            "A",
        ],
        FILE,
        None,
        "null 3\n",
    ),
    (
        &[
            "arrowtab",
            "query",
            "--query",
            r#"{"filter":{"op":"is_null","args":[{"column":"m"}]},"by":["n"],"aggs":[{"agg":"count","column":"m"},{"agg":"sum","column":"m"}]}"#,
            "--add-column",
            NUMBERS,
            "A",
        ],
        FILE,
        None,
        "9223372036854775807 0 null\nnull 0 null\n-1 0 null\n",
    ),
    (
        &[
            "arrowtab",
            "query",
            "--query",
            r#"{"filter":{"op":"eq","args":[{"column":"m"},{"text":"x"}]},"aggs":[{"agg":"rows"}]}"#,
            "--add-column",
            TEXTS,
            "A",
        ],
        FILE,
        None,
        "0\n",
    ),
    (
        &[
            "arrowtab",
            "query",
            "--query",
            r#"{"aggs":[{"agg":"greatest","column":"o"}]}"#,
            "--add-column",
            NUMBERS,
            "A",
        ],
        FILE,
        None,
        "arrowtab: query: Q1 NoColumn\n",
    ),
    (
        &[
            "arrowtab",
            "query",
            "--query",
            r#"{"by":["n"]}"#,
            "--add-column",
            TRUTHS,
            "A",
        ],
        FILE,
        None,
        "arrowtab: query: Q2 AmbiguousColumn\n",
    ),
];

#[test]
fn a_query_may_name_the_column(rt: HostRuntime) {
    expect_all(&rt, rt.alloc(), &FIRST);
    expect_all(&rt, rt.alloc(), &ANSWERS);
}

/// The words of `stats` over two files with a column, by one worker and by two.
const BY_ONE: &[&str] = &[
    "arrowtab",
    "stats",
    "--workers",
    "1",
    "--add-column",
    NUMBERS,
    "A",
    "B",
];

const BY_TWO: &[&str] = &[
    "arrowtab",
    "stats",
    "--workers",
    "2",
    "--add-column",
    NUMBERS,
    "A",
    "B",
];

static TWO: [Case; 5] = [
    (
        BY_ONE,
        FILE,
        Some(FILE),
        "rows 6\nworker 0 calls 2 rows 6\n\"n\" int64 rows=6 nulls=2 sum=18446744073709551612 least=-1 greatest=9223372036854775807\n\"m\" int16 rows=6 nulls=6 sum=0 least=- greatest=-\n",
    ),
    (
        BY_TWO,
        FILE,
        Some(FILE),
        "rows 6\nworker 0 calls 1 rows 3\nworker 1 calls 1 rows 3\n\"n\" int64 rows=6 nulls=2 sum=18446744073709551612 least=-1 greatest=9223372036854775807\n\"m\" int16 rows=6 nulls=6 sum=0 least=- greatest=-\n",
    ),
    (
        BY_TWO,
        FILE,
        Some(NO_BATCH),
        "rows 3\nworker 0 calls 1 rows 3\nworker 1 calls 0 rows 0\n\"n\" int64 rows=3 nulls=1 sum=9223372036854775806 least=-1 greatest=9223372036854775807\n\"m\" int16 rows=3 nulls=3 sum=0 least=- greatest=-\n",
    ),
    // A batch that has the column already isn't of the files' table.
    (
        BY_ONE,
        FILE,
        Some(WIDER),
        "arrowtab: B: batch 0: A1 SchemaDiffers column=1\n",
    ),
    (
        BY_TWO,
        FILE,
        Some(WIDER),
        "arrowtab: B: batch 0: A1 SchemaDiffers column=1\n",
    ),
];

#[test]
fn a_column_comes_behind_all_files(rt: HostRuntime) {
    expect_all(&rt, rt.alloc(), &TWO);
}

/// What is exported with a column: texts have a dictionary without an entry.
static EXPORTED: [Case; 3] = [
    (
        &[
            "arrowtab",
            "export",
            "--workers",
            "64",
            "--add-column",
            TEXTS,
            "A",
        ],
        FILE,
        None,
        r#"{"batches":[{"columns":[{"DATA":["9223372036854775807","0","-1"],"VALIDITY":[1,0,1],"count":3,"name":"n"},{"DATA":[0,0,0],"VALIDITY":[0,0,0],"count":3,"name":"m"}],"count":3}],"dictionaries":[{"data":{"columns":[{"DATA":[],"OFFSET":[0],"VALIDITY":[],"count":0,"name":"m"}],"count":0},"id":1}],"schema":{"fields":[{"children":[],"name":"n","nullable":true,"type":{"bitWidth":64,"isSigned":true,"name":"int"}},{"children":[],"dictionary":{"id":1,"indexType":{"bitWidth":32,"isSigned":true,"name":"int"},"isOrdered":false},"name":"m","nullable":true,"type":{"name":"utf8"}}]}}
"#,
    ),
    (
        &[
            "arrowtab",
            "export",
            "--workers",
            "1",
            "--add-column",
            NUMBERS,
            "A",
        ],
        FILE,
        None,
        r#"{"batches":[{"columns":[{"DATA":["9223372036854775807","0","-1"],"VALIDITY":[1,0,1],"count":3,"name":"n"},{"DATA":[0,0,0],"VALIDITY":[0,0,0],"count":3,"name":"m"}],"count":3}],"schema":{"fields":[{"children":[],"name":"n","nullable":true,"type":{"bitWidth":64,"isSigned":true,"name":"int"}},{"children":[],"name":"m","nullable":true,"type":{"bitWidth":16,"isSigned":true,"name":"int"}}]}}
"#,
    ),
    (
        &[
            "arrowtab",
            "export",
            "--workers",
            "2",
            "--add-column",
            NUMBERS,
            "A",
        ],
        NO_BATCH,
        None,
        r#"{"batches":[],"schema":{"fields":[{"children":[],"name":"n","nullable":true,"type":{"bitWidth":64,"isSigned":true,"name":"int"}},{"children":[],"name":"m","nullable":true,"type":{"bitWidth":16,"isSigned":true,"name":"int"}}]}}
"#,
    ),
];

#[test]
fn a_column_is_exported(rt: HostRuntime) {
    expect_all(&rt, rt.alloc(), &EXPORTED);
}
