//! The fields of files, and whether files make one table.

use super::runs::FILE;
use super::{Case, expect_all};

const SCHEMA: &[&str] = &["arrowtab", "schema", "A"];

const VALIDATE: &[&str] = &["arrowtab", "validate", "A"];

const VALIDATE_TWO: &[&str] = &["arrowtab", "validate", "A", "B"];

/// Fields of several types, and no batch.
const FIELDS: &str =
    r#"{"schema":{"fields":[{"name":"k\n","nullable":true,"type":{"name":"utf8"}},{"name":"b","nullable":false,"type":{"name":"bool"}},{"name":"l","nullable":true,"type":{"name":"list"},"children":[{"name":"item","nullable":true,"type":{"name":"int","bitWidth":8,"isSigned":false}}]},{"name":"s","nullable":false,"type":{"name":"largeutf8"}}]},"batches":[]}"#;

const LINES: &str =
    "\"k\\n\" dictionary nullable=true\n\"b\" bool nullable=false\n\"l\" list<uint8> nullable=true\n\"s\" largeutf8 nullable=false\n";

/// A command, one file or two, and what is printed.
static LOOKED: [Case; 7] = [
    (SCHEMA, FIELDS, None, LINES),
    (SCHEMA, FILE, None, "\"n\" int64 nullable=true\n"),
    (SCHEMA, "{", None, "arrowtab: A: J1 NotJson\n"),
    (VALIDATE, FILE, None, ""),
    (VALIDATE_TWO, FILE, Some(FILE), ""),
    (VALIDATE_TWO, FILE, Some("{"), "arrowtab: B: J1 NotJson\n"),
    (
        VALIDATE_TWO,
        FIELDS,
        Some(FILE),
        "arrowtab: B: batch 0: A1 SchemaDiffers column=0\n",
    ),
];

#[test]
fn fields_are_printed_and_files_validated(rt: HostRuntime) {
    expect_all(&rt, rt.alloc(), &LOOKED);
}
