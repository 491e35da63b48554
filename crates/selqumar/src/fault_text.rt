//! What is told of faults of columns that are lent.
ghost use Rattle.std.specs.Prelude.{◌≡◌, IfOk, string_bytes};
ghost use Rattle.embed.specs.Prelude.{message};
ghost use Rattle.selqumar.specs.FaultText.{batch_fault_text, flat_fault_text, intake_fault_text, layout_fault_text, schema_fault_text};

use arrays::{BatchFault, LayoutFault, NoMemory, SchemaFault};
use embed::{ColumnFault, RunFault};
use intake::{FlatFault, IntakeFault};
use reports::refusal::refusal_text;
use std::alloc::Global;

/// The line of a fault.
pub(crate) fn line_of(alloc: Global, fault: IntakeFault) -> Result<String, NoMemory>
    ensures { IfOk result (λ text. string_bytes text ≡ message (intake_fault_text fault)) }
{
    match fault {
        IntakeFault::Flat { fault } => message(alloc, flat_fault_text(alloc, fault)?.as_str()),
        IntakeFault::Refused { refusal } => message(alloc, refusal_text(alloc, refusal)?.as_str()),
        IntakeFault::NotOneColumn { columns } => {
            Ok(format!(in alloc; "arrowtab: column: I1 NotOneColumn columns={columns}\n")?)
        }
        IntakeFault::Column { fault } => {
            embed::line_of(alloc, &RunFault::OfColumn(ColumnFault::Refused(fault)))
        }
    }
}

/// The line of what is told.
fn message(alloc: Global, what: &str) -> Result<String, NoMemory>
    ensures { IfOk result (λ text. string_bytes text ≡ message what.now) }
{
    let mut line = String::from_str(alloc, "arrowtab: ")?;
    line.push_str(what)?;
    line.push_str("\n")?;
    Ok(line)
}

/// What is told of nodes that are no batch, or no schema.
fn flat_fault_text(alloc: Global, fault: FlatFault) -> Result<String, NoMemory>
    ensures { IfOk result (λ text. string_bytes text ≡ flat_fault_text fault) }
{
    match fault {
        FlatFault::NameNotUtf8 { column } => {
            Ok(format!(in alloc; "X1 NameNotUtf8 column={column}")?)
        }
        FlatFault::UnknownFormat { column } => {
            Ok(format!(in alloc; "X2 UnknownFormat column={column}")?)
        }
        FlatFault::ChildrenDiffer { column } => {
            Ok(format!(in alloc; "X3 ChildrenDiffer column={column}")?)
        }
        FlatFault::MissingNode { column } => {
            Ok(format!(in alloc; "X4 MissingNode column={column}")?)
        }
        FlatFault::TooDeep { column } => Ok(format!(in alloc; "X5 TooDeep column={column}")?),
        FlatFault::Layout { column, fault } => {
            let what = layout_fault_text(alloc, fault)?;
            Ok(format!(in alloc; "X6 Layout column={column}: {what}")?)
        }
        FlatFault::Schema { fault } => schema_fault_text(alloc, fault),
        FlatFault::Batch { fault } => batch_fault_text(alloc, fault),
        FlatFault::NoMemory => Ok(String::from_str(alloc, "X7 NoMemory")?),
    }
}

/// What is told of buffers that are no array.
fn layout_fault_text(alloc: Global, fault: LayoutFault) -> Result<String, NoMemory>
    ensures { IfOk result (λ text. string_bytes text ≡ layout_fault_text fault) }
{
    match fault {
        LayoutFault::MissingBuffer => Ok(String::from_str(alloc, "V1 MissingBuffer")?),
        LayoutFault::ExtraBuffer => Ok(String::from_str(alloc, "V2 ExtraBuffer")?),
        LayoutFault::BufferTooShort => Ok(String::from_str(alloc, "V3 BufferTooShort")?),
        LayoutFault::OffsetNegative => Ok(String::from_str(alloc, "V4 OffsetNegative")?),
        LayoutFault::OffsetDecreases { row } => {
            Ok(format!(in alloc; "V5 OffsetDecreases row={row}")?)
        }
        LayoutFault::OffsetPastEnd => Ok(String::from_str(alloc, "V6 OffsetPastEnd")?),
        LayoutFault::NullCountDiffers => Ok(String::from_str(alloc, "V7 NullCountDiffers")?),
        LayoutFault::NotUtf8 { row } => Ok(format!(in alloc; "V8 NotUtf8 row={row}")?),
        LayoutFault::IndexPastDictionary { row } => {
            Ok(format!(in alloc; "V9 IndexPastDictionary row={row}")?)
        }
        LayoutFault::ChildDiffers => Ok(String::from_str(alloc, "V10 ChildDiffers")?),
        LayoutFault::TooLong => Ok(String::from_str(alloc, "V11 TooLong")?),
        LayoutFault::TooDeep => Ok(String::from_str(alloc, "V12 TooDeep")?),
        LayoutFault::NoMemory => Ok(String::from_str(alloc, "V13 NoMemory")?),
    }
}

/// What is told of fields that are no schema.
fn schema_fault_text(alloc: Global, fault: SchemaFault) -> Result<String, NoMemory>
    ensures { IfOk result (λ text. string_bytes text ≡ schema_fault_text fault) }
{
    match fault {
        SchemaFault::TooDeep { column } => Ok(format!(in alloc; "C1 TooDeep column={column}")?),
        SchemaFault::DictInList { column } => {
            Ok(format!(in alloc; "C2 DictInList column={column}")?)
        }
    }
}

/// What is told of columns that are no batch.
fn batch_fault_text(alloc: Global, fault: BatchFault) -> Result<String, NoMemory>
    ensures { IfOk result (λ text. string_bytes text ≡ batch_fault_text fault) }
{
    match fault {
        BatchFault::LengthsDiffer { column } => {
            Ok(format!(in alloc; "B1 LengthsDiffer column={column}")?)
        }
        BatchFault::TypeDiffers { column } => {
            Ok(format!(in alloc; "B2 TypeDiffers column={column}")?)
        }
        BatchFault::ColumnCount => Ok(String::from_str(alloc, "B3 ColumnCount")?),
    }
}
