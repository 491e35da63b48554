//! Faults as lines.
ghost use Rattle.std.specs.Prelude.{◌≡◌, ◌++◌, IfOk, codes, string_bytes};
ghost use Rattle.reports.specs.Lines.{column_fault_line, unread_line, file_line, query_line, refusal_line};
ghost use Rattle.reports.specs.FaultLine.{add_fault_text, column_fault_text, fault_line, line_under};

use crate::name::push_name;
use crate::refusal::refusal_text;
use crate::run_fault::{ColumnFault, FileFault, RunFault};
use arrays::NoMemory;
use arrow_json::{JsonFault, fault_text};
use std::alloc::Global;
use table::{AddFault, Refusal, query_fault_text};

/// The line of a fault, with the name of its file where it is one of a file; that memory ran out has one that takes none.
pub fn line_of(alloc: Global, name: &str, fault: &RunFault) -> Result<String, NoMemory>
    ensures { IfOk result (λ text. string_bytes text ≡ line_under name.now fault.now) }
{
    match fault {
        RunFault::NoMemory => Err(NoMemory),
        RunFault::OfFile { file: _, fault } => fault_line(alloc, name, fault),
        RunFault::QueryUnread(fault) => query_line(alloc, fault_text(alloc, fault)?.as_str()),
        RunFault::QueryRefused(fault) => {
            query_line(alloc, query_fault_text(alloc, *fault)?.as_str())
        }
        RunFault::OfColumn(fault) => column_fault_line(alloc, fault),
    }
}

/// The line of a file's fault.
fn fault_line(alloc: Global, name: &str, fault: &FileFault) -> Result<String, NoMemory>
    ensures { IfOk result (λ text. string_bytes text ≡ fault_line name.now fault.now) }
{
    match fault {
        FileFault::CannotRead => unread_line(alloc, name),
        FileFault::Json(fault) => file_line(alloc, name, fault),
        FileFault::Refused { batch, refusal } => refusal_line(alloc, name, *batch, *refusal),
    }
}

fn unread_line(alloc: Global, name: &str) -> Result<String, NoMemory>
    ensures { IfOk result (λ text. string_bytes text ≡ unread_line name.now) }
{
    let mut text = String::from_str(alloc, "arrowtab: ")?;
    push_name(&mut text, name)?;
    text.push_str(": cannot be read")?;
    text.push_str("\n")?;
    Ok(text)
}

fn file_line(alloc: Global, name: &str, fault: &JsonFault) -> Result<String, NoMemory>
    ensures { IfOk result (λ text. string_bytes text ≡ file_line name.now fault.now.kind fault.now.path) }
{
    let what = fault_text(alloc, fault)?;
    let mut text = String::from_str(alloc, "arrowtab: ")?;
    push_name(&mut text, name)?;
    text.push_str(": ")?;
    text.push_str(&what)?;
    text.push_str("\n")?;
    Ok(text)
}

fn refusal_line(
    alloc: Global,
    name: &str,
    batch: usize,
    refusal: Refusal,
) -> Result<String, NoMemory>
    ensures { IfOk result (λ text. string_bytes text ≡ refusal_line name.now batch refusal) }
{
    let what = refusal_text(alloc, refusal)?;
    let mut text = String::from_str(alloc, "arrowtab: ")?;
    push_name(&mut text, name)?;
    text.push_str(": batch ")?;
    write!(text, "{batch}")?;
    text.push_str(": ")?;
    text.push_str(&what)?;
    text.push_str("\n")?;
    Ok(text)
}

/// The line that says what is wrong with the query.
fn query_line(alloc: Global, what: &str) -> Result<String, NoMemory>
    ensures { IfOk result (λ text. string_bytes text ≡ query_line what.now) }
{
    line_behind(alloc, "arrowtab: query: ", what)
}

/// The line of a fault of the column.
fn column_fault_line(alloc: Global, fault: &ColumnFault) -> Result<String, NoMemory>
    ensures { IfOk result (λ text. string_bytes text ≡ column_fault_line (column_fault_text fault.now)) }
{
    match fault {
        ColumnFault::Unread(fault) => column_line(alloc, fault_text(alloc, fault)?.as_str()),
        ColumnFault::Refused(fault) => column_line(alloc, add_fault_text(*fault)),
    }
}

/// The line that says what is wrong with the column.
fn column_line(alloc: Global, what: &str) -> Result<String, NoMemory>
    ensures { IfOk result (λ text. string_bytes text ≡ column_fault_line what.now) }
{
    line_behind(alloc, "arrowtab: column: ", what)
}

/// A line of two texts.
fn line_behind(alloc: Global, head: &str, what: &str) -> Result<String, NoMemory>
    ensures { IfOk result (λ text. string_bytes text ≡ head.now ++ what.now ++ codes "\n") }
{
    let mut text = String::from_str(alloc, head)?;
    text.push_str(what)?;
    text.push_str("\n")?;
    Ok(text)
}

/// Why no column is added, as it is reported.
fn add_fault_text(fault: AddFault) -> &'static str
    ensures { result.now ≡ add_fault_text fault }
{
    match fault {
        AddFault::NotNullable => "N1 NotNullable",
        AddFault::TooDeep => "N2 TooDeep",
        AddFault::DictInList => "N3 DictInList",
        AddFault::NoMemory => "N4 NoMemory",
    }
}
