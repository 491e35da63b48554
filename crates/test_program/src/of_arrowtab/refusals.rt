//! How refusals are reported.

use super::assert_case;
use arrowtab::Refusal;
use arrowtab::refusal::refusal_text;
use std::alloc::Global;

/// Each refusal, and how it is reported.
static TOLD: [(Refusal, &str); 6] = [
    (
        Refusal::SchemaDiffers { column: 2 },
        "A1 SchemaDiffers column=2",
    ),
    (
        Refusal::NullInNonNullable { column: 0, row: 1 },
        "A2 NullInNonNullable column=0 row=1",
    ),
    (Refusal::TableFull, "A3 TableFull"),
    (Refusal::BookFull, "A4 BookFull"),
    (Refusal::TextsFull { column: 3 }, "A5 TextsFull column=3"),
    (Refusal::NoMemory, "A6 NoMemory"),
];

#[test]
fn refusals_are_reported(rt: HostRuntime) {
    for (refusal, wanted) in &TOLD {
        let is_right = is_reported(rt.alloc(), *refusal, *wanted);
        assert_case(&rt, is_right, &["refusal"], *wanted);
    }
}

/// Whether a refusal is reported and shown as this.
fn is_reported(alloc: Global, refusal: Refusal, wanted: &str) -> bool {
    let Ok(report) = refusal_text(alloc, refusal) else {
        return false;
    };
    let Ok(shown) = format!(in alloc; "{refusal}") else {
        return false;
    };
    report.as_str() == wanted && shown.as_str() == wanted
}
