//! The output of `export`.
ghost use Rattle.std.specs.Prelude.{◌≡◌, OnOk, IfOk, string_bytes};
ghost use Rattle.reports.specs.Exported.{exported};
ghost use Rattle.table.specs.Cause.{IsLegal};

use arrays::NoMemory;
use arrow_json::print_file;
use std::alloc::Global;
use table::Version;

/// What `export` prints for a version of the table.
pub fn export_text(alloc: Global, version: &Version) -> Result<String, NoMemory>
    ensures legal { OnOk result (IsLegal version.now.fields version.now.history) }
    ensures output { IfOk result (λ text. string_bytes text ≡ exported version.now.fields version.now.history) }
{
    let file = version.export(alloc)?;
    let mut text = print_file(alloc, &file)?;
    text.push_str("\n")?;
    Ok(text)
}
