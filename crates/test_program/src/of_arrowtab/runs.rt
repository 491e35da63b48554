//! Runs over memory: the status, what went to the output, and the line of the fault.

use super::{assert_case, expect, filled};
use std::alloc::{AllocError, Global};
use std::process::Abort;
use std::sync::Wait;
use std::thread::Threads;

const STATS: &[&str] = &["arrowtab", "stats", "A"];

/// A file of the three numbers 9223372036854775807, null and -1.
pub(super) const FILE: &str =
    r#"{"schema":{"fields":[{"name":"n","nullable":true,"type":{"name":"int","bitWidth":64,"isSigned":true},"children":[]}]},"batches":[{"count":3,"columns":[{"name":"n","count":3,"VALIDITY":[1,0,1],"DATA":["9223372036854775807","x",-1]}]}]}"#;

const OUTPUT: &str =
    "rows 3\nworker 0 calls 1 rows 3\n\"n\" int64 rows=3 nulls=1 sum=9223372036854775806 least=-1 greatest=9223372036854775807\n";

/// A file of a field, and of batches.
const TEMPLATE: &str = r#"{"schema":{"fields":[FIELD]},"batches":[BATCHES]}"#;

/// Fields, batches, and what is printed of their file.
static PRINTED: [(&str, &str, &str); 15] = [
    // No batch.
    (
        r#"{"name":"n","nullable":true,"type":{"name":"int","bitWidth":8,"isSigned":false},"children":[]}"#,
        "",
        "rows 0\nworker 0 calls 0 rows 0\n\"n\" uint8 rows=0 nulls=0 sum=0 least=- greatest=-\n",
    ),
    (
        r#"{"name":"n","nullable":false,"type":{"name":"int","bitWidth":64,"isSigned":true},"children":[]}"#,
        "",
        "rows 0\nworker 0 calls 0 rows 0\n\"n\" int64 rows=0 nulls=0 sum=0 least=- greatest=-\n",
    ),
    // Rows without columns.
    (
        "",
        r#"{"count":2147483647,"columns":[]}"#,
        "rows 2147483647\nworker 0 calls 1 rows 2147483647\n",
    ),
    // A sum past 64 bits.
    (
        r#"{"name":"n","nullable":false,"type":{"name":"int","bitWidth":64,"isSigned":false},"children":[]}"#,
        r#"{"count":2,"columns":[{"name":"n","count":2,"DATA":["18446744073709551615","18446744073709551615"]}]}"#,
        "rows 2\nworker 0 calls 1 rows 2\n\"n\" uint64 rows=2 nulls=0 sum=36893488147419103230 least=18446744073709551615 greatest=18446744073709551615\n",
    ),
    // Nulls alone.
    (
        r#"{"name":"n","nullable":true,"type":{"name":"int","bitWidth":64,"isSigned":true},"children":[]}"#,
        r#"{"count":2,"columns":[{"name":"n","count":2,"VALIDITY":[0,0],"DATA":[0,0]}]}"#,
        "rows 2\nworker 0 calls 1 rows 2\n\"n\" int64 rows=2 nulls=2 sum=0 least=- greatest=-\n",
    ),
    // The least is of the second batch, the greatest of the first, and the third holds nulls alone.
    (
        r#"{"name":"n","nullable":true,"type":{"name":"int","bitWidth":64,"isSigned":true},"children":[]}"#,
        r#"{"count":2,"columns":[{"name":"n","count":2,"DATA":[5,7]}]},{"count":2,"columns":[{"name":"n","count":2,"VALIDITY":[1,0],"DATA":[-3,0]}]},{"count":2,"columns":[{"name":"n","count":2,"VALIDITY":[0,0],"DATA":[0,0]}]}"#,
        "rows 6\nworker 0 calls 3 rows 6\n\"n\" int64 rows=6 nulls=3 sum=9 least=-3 greatest=7\n",
    ),
    // Truth values.
    (
        r#"{"name":"b","nullable":true,"type":{"name":"bool"},"children":[]}"#,
        r#"{"count":3,"columns":[{"name":"b","count":3,"VALIDITY":[1,0,1],"DATA":[1,1,0]}]}"#,
        "rows 3\nworker 0 calls 1 rows 3\n\"b\" bool rows=3 nulls=1 sum=- least=false greatest=true\n",
    ),
    // Texts, which are stored by dictionary, over two batches.
    (
        r#"{"name":"s","nullable":true,"type":{"name":"utf8"},"children":[]}"#,
        r#"{"count":3,"columns":[{"name":"s","count":3,"VALIDITY":[1,0,1],"DATA":["pear","x","fig"]}]},{"count":2,"columns":[{"name":"s","count":2,"DATA":["pear","quince"]}]}"#,
        "rows 5\nworker 0 calls 2 rows 5\n\"s\" dictionary rows=5 nulls=1 sum=- least=\"fig\" greatest=\"quince\"\n",
    ),
    // Lists, of which a batch has none.
    (
        r#"{"name":"l","nullable":true,"type":{"name":"list"},"children":[{"name":"item","nullable":true,"type":{"name":"int","bitWidth":8,"isSigned":true},"children":[]}]}"#,
        r#"{"count":0,"columns":[{"name":"l","count":0,"VALIDITY":[],"OFFSET":[],"children":[{"name":"item","count":0,"VALIDITY":[],"DATA":[]}]}]}"#,
        "rows 0\nworker 0 calls 1 rows 0\n\"l\" list<int8> rows=0 nulls=0 sum=- least=- greatest=-\n",
    ),
    (
        r#"{"name":"l","nullable":true,"type":{"name":"list"},"children":[{"name":"item","nullable":true,"type":{"name":"int","bitWidth":8,"isSigned":true},"children":[]}]}"#,
        r#"{"count":0,"columns":[{"name":"l","count":0,"VALIDITY":[],"OFFSET":[0],"children":[{"name":"item","count":0,"VALIDITY":[],"DATA":[]}]}]}"#,
        "rows 0\nworker 0 calls 1 rows 0\n\"l\" list<int8> rows=0 nulls=0 sum=- least=- greatest=-\n",
    ),
    // Lists in lists: of two lists and of none, and null.
    (
        r#"{"name":"l","nullable":true,"type":{"name":"list"},"children":[{"name":"item","nullable":true,"type":{"name":"list"},"children":[{"name":"item","nullable":true,"type":{"name":"utf8"},"children":[]}]}]}"#,
        r#"{"count":3,"columns":[{"name":"l","count":3,"VALIDITY":[1,0,1],"OFFSET":[0,2,2,2],"children":[{"name":"item","count":2,"VALIDITY":[1,1],"OFFSET":[0,1,2],"children":[{"name":"item","count":2,"VALIDITY":[1,1],"OFFSET":[0,1,2],"DATA":["a","b"]}]}]}]}"#,
        "rows 3\nworker 0 calls 1 rows 3\n\"l\" list<list<utf8>> rows=3 nulls=1 sum=- least=- greatest=-\n",
    ),
    // Texts with offsets of 64 bits, which have no dictionary.
    (
        r#"{"name":"s","nullable":true,"type":{"name":"largeutf8"},"children":[]}"#,
        r#"{"count":3,"columns":[{"name":"s","count":3,"VALIDITY":[1,0,1],"DATA":["pear","x","fig"]}]},{"count":2,"columns":[{"name":"s","count":2,"DATA":["pear","quince"]}]}"#,
        "rows 5\nworker 0 calls 2 rows 5\n\"s\" largeutf8 rows=5 nulls=1 sum=- least=\"fig\" greatest=\"quince\"\n",
    ),
    // Lists with such offsets, in both spellings.
    (
        r#"{"name":"l","nullable":true,"type":{"name":"largelist"},"children":[{"name":"item","nullable":true,"type":{"name":"int","bitWidth":8,"isSigned":true},"children":[]}]}"#,
        r#"{"count":2,"columns":[{"name":"l","count":2,"VALIDITY":[1,0],"OFFSET":[0,"2",2],"children":[{"name":"item","count":2,"VALIDITY":[1,1],"DATA":[1,2]}]}]}"#,
        "rows 2\nworker 0 calls 1 rows 2\n\"l\" largelist<int8> rows=2 nulls=1 sum=- least=- greatest=-\n",
    ),
    // Lists of both kinds in one another.
    (
        r#"{"name":"l","nullable":true,"type":{"name":"list"},"children":[{"name":"item","nullable":true,"type":{"name":"largelist"},"children":[{"name":"item","nullable":true,"type":{"name":"largeutf8"},"children":[]}]}]}"#,
        r#"{"count":2,"columns":[{"name":"l","count":2,"OFFSET":[0,2,2],"children":[{"name":"item","count":2,"OFFSET":["0",1,"2"],"children":[{"name":"item","count":2,"DATA":["a","b"]}]}]}]}"#,
        "rows 2\nworker 0 calls 1 rows 2\n\"l\" list<largelist<largeutf8>> rows=2 nulls=0 sum=- least=- greatest=-\n",
    ),
    // Truth values and texts that are reported as JSON spells them.
    (
        r#"{"name":"b","nullable":false,"type":{"name":"bool"},"children":[]},{"name":"\"s\"","nullable":false,"type":{"name":"utf8"},"children":[]}"#,
        r#"{"count":1,"columns":[{"name":"b","count":1,"DATA":[true]},{"name":"s","count":1,"DATA":["a\"b\n"]}]}"#,
        "rows 1\nworker 0 calls 1 rows 1\n\"b\" bool rows=1 nulls=0 sum=- least=true greatest=true\n\"\\\"s\\\"\" dictionary rows=1 nulls=0 sum=- least=\"a\\\"b\\n\" greatest=\"a\\\"b\\n\"\n",
    ),
];

#[test]
fn prints_the_statistics(rt: HostRuntime) {
    expect(&rt, rt.alloc(), STATS, (FILE, None), OUTPUT);
    for (field, batches, output) in &PRINTED {
        let text = file_of(rt.alloc(), *field, *batches);
        expect_made(&rt, rt.alloc(), text, *output);
    }
}

/// The file of a field, and of batches.
fn file_of(alloc: Global, field: &str, batches: &str) -> Result<String, AllocError> {
    let text = TEMPLATE.replace(alloc, "FIELD", field)?;
    text.as_str().replace(alloc, "BATCHES", batches)
}

/// Asserts what a run over a text that was made for it tells.
fn expect_made(
    rt: &(impl Abort + Wait + Threads + Sync),
    alloc: Global,
    text: Result<String, AllocError>,
    wanted: &str,
) {
    match text {
        Ok(text) => expect(rt, alloc, STATS, (text.as_str(), None), wanted),
        Err(_) => assert_case(rt, false, STATS, "no memory"),
    }
}

/// What stands in the file, what is put for it, and the line of the fault.
static CHANGED: [(&str, &str, &str); 5] = [
    (
        "807\"",
        "808\"",
        "arrowtab: A: J5 BadNumber at /batches/0/columns/0/DATA/0\n",
    ),
    (
        "\"nullable\":true",
        "\"nullable\":false",
        "arrowtab: A: batch 0: A2 NullInNonNullable column=0 row=1\n",
    ),
    (
        "\"int\",\"bitWidth\":64,\"isSigned\":true",
        "\"date\"",
        "arrowtab: A: J4 UnsupportedType at /schema/fields/0/type\n",
    ),
    (
        "\"count\":3",
        "\"count\":2147483647",
        "arrowtab: A: J7 CountDiffers at /batches/0/columns/0/VALIDITY\n",
    ),
    (
        FILE,
        r#"{"schema":{"fields":[]},"batches":[{"count":2147483647,"columns":[{}]}]}"#,
        "arrowtab: A: J7 CountDiffers at /batches/0/columns\n",
    ),
];

#[test]
fn tells_the_fault(rt: HostRuntime) {
    for (found, put, line) in &CHANGED {
        let text = FILE.replace(rt.alloc(), *found, *put);
        expect_made(&rt, rt.alloc(), text, *line);
    }
}

#[test]
fn tells_each_cut(rt: HostRuntime) {
    for size in 0..FILE.len() {
        // The whole file, which isn't refused, where that were no text.
        let cut = str::from_utf8(&FILE.as_bytes()[..size]).unwrap_or(FILE);
        let line = "arrowtab: A: J1 NotJson\n";
        expect(&rt, rt.alloc(), STATS, (cut, None), line);
    }
}

/// How many arrays stand in one another, and what is told of them.
static LEVELS: [(usize, &str); 2] = [
    (127, "arrowtab: A: J3 WrongMember\n"),
    (128, "arrowtab: A: J1 NotJson\n"),
];

#[test]
fn reads_127_levels(rt: HostRuntime) {
    for (depth, line) in &LEVELS {
        let text = levels(rt.alloc(), *depth);
        expect_made(&rt, rt.alloc(), text, *line);
    }
}

/// Arrays within one another.
fn levels(alloc: Global, depth: usize) -> Result<String, AllocError> {
    let text = filled(alloc, "BEGINEND", "BEGIN", ("[", depth))?;
    filled(alloc, text.as_str(), "END", ("]", depth))
}

#[test]
fn refuses_the_513th_large_batch(rt: HostRuntime) {
    // Batches that are as large as they may be.
    let file = r#"{"schema":{"fields":[]},"batches":[BATCHES{"count":2147483647,"columns":[]}]}"#;
    let batch = r#"{"count":2147483647,"columns":[]},"#;
    let text = filled(rt.alloc(), file, "BATCHES", (batch, 512));
    let line = "arrowtab: A: batch 512: A3 TableFull\n";
    expect_made(&rt, rt.alloc(), text, line);
}
