//! How the name of a file is reported.

use super::{Case, expect_all};

/// A file with a null where none may be.
const NULL: &str =
    r#"{"schema":{"fields":[{"name":"n","nullable":false,"type":{"name":"int","bitWidth":8,"isSigned":true},"children":[]}]},"batches":[{"count":1,"columns":[{"name":"n","count":1,"VALIDITY":[0],"DATA":[0]}]}]}"#;

/// Files by their names, and the line of the fault of each.
static NAMED: [Case; 10] = [
    (
        &["arrowtab", "stats", "A"],
        "{",
        None,
        "arrowtab: A: J1 NotJson\n",
    ),
    (
        &["arrowtab", "stats", "A\nB"],
        "{",
        None,
        "arrowtab: A\\nB: J1 NotJson\n",
    ),
    (
        &["arrowtab", "stats", "\tA"],
        "{",
        None,
        "arrowtab: \\tA: J1 NotJson\n",
    ),
    (
        &["arrowtab", "stats", "A\\n"],
        "{",
        None,
        "arrowtab: A\\\\n: J1 NotJson\n",
    ),
    (
        &["arrowtab", "stats", "A\u{7}"],
        "{",
        None,
        "arrowtab: A\\u0007: J1 NotJson\n",
    ),
    (
        &["arrowtab", "stats", "\u{1b}[2J"],
        "{",
        None,
        "arrowtab: \\u001b[2J: J1 NotJson\n",
    ),
    (
        &["arrowtab", "stats", "A\u{7f}"],
        "{",
        None,
        "arrowtab: A\\u007f: J1 NotJson\n",
    ),
    (
        &["arrowtab", "stats", "\"A\""],
        "{",
        None,
        "arrowtab: \"A\": J1 NotJson\n",
    ),
    (
        &["arrowtab", "stats", "A é"],
        "{",
        None,
        "arrowtab: A é: J1 NotJson\n",
    ),
    (
        &["arrowtab", "stats", "A\r\nB"],
        NULL,
        None,
        "arrowtab: A\\r\\nB: batch 0: A2 NullInNonNullable column=0 row=0\n",
    ),
];

#[test]
fn a_name_is_reported_in_one_line(rt: HostRuntime) {
    expect_all(&rt, rt.alloc(), &NAMED);
}
