//! The first rows of files.

use super::runs::FILE;
use super::{Case, expect_all};

const TEN: &[&str] = &["arrowtab", "head", "A"];

const TWO: &[&str] = &["arrowtab", "head", "-n", "2", "A"];

const NONE: &[&str] = &["arrowtab", "head", "-n0", "A"];

const OF_TWO: &[&str] = &["arrowtab", "head", "--workers=2", "A", "B", "-n", "4"];

const WIDER: &[&str] = &[
    "arrowtab",
    "head",
    "--add-column",
    r#"{"name":"n","nullable":true,"type":{"name":"bool"}}"#,
    "A",
    "-n",
    "1",
];

/// Two columns of one name, one of truth values, and rows in two batches.
const ROWS: &str =
    r#"{"schema":{"fields":[{"name":"k\"","nullable":true,"type":{"name":"utf8"}},{"name":"k\"","nullable":true,"type":{"name":"largeutf8"}},{"name":"b","nullable":true,"type":{"name":"bool"}}]},"batches":[{"count":1,"columns":[{"name":"k","count":1,"VALIDITY":[1],"DATA":["a\n"]},{"name":"k","count":1,"VALIDITY":[0],"DATA":[""]},{"name":"b","count":1,"VALIDITY":[1],"DATA":[1]}]},{"count":2,"columns":[{"name":"k","count":2,"VALIDITY":[1,0],"DATA":["","x"]},{"name":"k","count":2,"VALIDITY":[1,1],"DATA":["é","\\"]},{"name":"b","count":2,"VALIDITY":[0,1],"DATA":[1,0]}]}]}"#;

/// Lists of lists: one of three lists, of which one is null and one empty, one of none, and null.
const LISTS: &str =
    r#"{"schema":{"fields":[{"name":"l","nullable":true,"type":{"name":"list"},"children":[{"name":"item","nullable":true,"type":{"name":"largelist"},"children":[{"name":"item","nullable":true,"type":{"name":"int","bitWidth":64,"isSigned":false},"children":[]}]}]}]},"batches":[{"count":3,"columns":[{"name":"l","count":3,"VALIDITY":[1,1,0],"OFFSET":[0,3,3,3],"children":[{"name":"item","count":3,"VALIDITY":[1,0,1],"OFFSET":["0","2","2","2"],"children":[{"name":"item","count":2,"VALIDITY":[1,0],"DATA":["18446744073709551615","0"]}]}]}]}]}"#;

/// A command, one file or two, and what is printed.
static LOOKED: [Case; 8] = [
    (
        TEN,
        FILE,
        None,
        "{\"n\":9223372036854775807}\n{\"n\":null}\n{\"n\":-1}\n",
    ),
    (
        TEN,
        ROWS,
        None,
        "{\"k\\\"\":\"a\\n\",\"k\\\"\":null,\"b\":true}\n{\"k\\\"\":\"\",\"k\\\"\":\"é\",\"b\":null}\n{\"k\\\"\":null,\"k\\\"\":\"\\\\\",\"b\":false}\n",
    ),
    (
        TWO,
        ROWS,
        None,
        "{\"k\\\"\":\"a\\n\",\"k\\\"\":null,\"b\":true}\n{\"k\\\"\":\"\",\"k\\\"\":\"é\",\"b\":null}\n",
    ),
    (NONE, ROWS, None, ""),
    (
        TEN,
        LISTS,
        None,
        "{\"l\":[[18446744073709551615,null],null,[]]}\n{\"l\":[]}\n{\"l\":null}\n",
    ),
    (
        OF_TWO,
        FILE,
        Some(FILE),
        "{\"n\":9223372036854775807}\n{\"n\":null}\n{\"n\":-1}\n{\"n\":9223372036854775807}\n",
    ),
    (
        WIDER,
        FILE,
        None,
        "{\"n\":9223372036854775807,\"n\":null}\n",
    ),
    (TEN, "{", None, "arrowtab: A: J1 NotJson\n"),
];

#[test]
fn first_rows_are_printed(rt: HostRuntime) {
    expect_all(&rt, rt.alloc(), &LOOKED);
}
