//! The output of `schema`.
ghost use Rattle.std.specs.Prelude.{◌≡◌, IfOk, string_bytes};
ghost use Rattle.reports.specs.Fields.{schema_lines};

use crate::text::schema_line;
use arrays::NoMemory;
use std::alloc::Global;
use table::Version;

/// What `schema` prints for a version of the table: a line for each field, as the table stores it.
pub fn schema_text(alloc: Global, version: &Version) -> Result<String, NoMemory>
    ensures { IfOk result (λ text. string_bytes text ≡ schema_lines version.now.fields) }
{
    let mut text = String::new(alloc);
    let fields = version.schema().fields();
    for field in fields {
        let line = schema_line(alloc, field)?;
        text.push_str(&line)?;
    }
    Ok(text)
}
