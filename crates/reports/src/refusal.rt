//! Refusals as they are reported.
ghost use Rattle.std.specs.Prelude.{◌≡◌, IfOk, string_bytes};
ghost use Rattle.reports.specs.Lines.{refusal_text};

use arrays::NoMemory;
use std::alloc::Global;
pub use table::Refusal;

/// The refusal as it is reported: its number and name, then each of its fields.
pub fn refusal_text(alloc: Global, refusal: Refusal) -> Result<String, NoMemory>
    ensures { IfOk result (λ text. string_bytes text ≡ refusal_text refusal) }
{
    match refusal {
        Refusal::SchemaDiffers { column } => {
            Ok(format!(in alloc; "A1 SchemaDiffers column={column}")?)
        }
        Refusal::NullInNonNullable { column, row } => {
            Ok(format!(in alloc; "A2 NullInNonNullable column={column} row={row}")?)
        }
        Refusal::TableFull => Ok(String::from_str(alloc, "A3 TableFull")?),
        Refusal::BookFull => Ok(String::from_str(alloc, "A4 BookFull")?),
        Refusal::TextsFull { column } => Ok(format!(in alloc; "A5 TextsFull column={column}")?),
        Refusal::NoMemory => Ok(String::from_str(alloc, "A6 NoMemory")?),
    }
}
