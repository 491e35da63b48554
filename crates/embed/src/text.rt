//! What is printed of files.
ghost use Rattle.std.specs.Prelude.{◌≡◌, IfErr, IfOk, OnOk, map, string_bytes};
ghost use Rattle.embed.specs.Output.{AreLoadable, IsAnswered, IsExport, IsSchema, IsStats, StopsQuery, line_of_fault};
ghost use Rattle.embed.specs.Refused.{StopsTexts};
ghost use Rattle.reports.specs.OrMemory.{OrMemory};

use crate::loaded::Loaded;
use arrays::NoMemory;
use reports::{RunFault, read_query_text};
use std::alloc::Global;

/// What `stats` prints of the files of these texts: how many rows they have, and the statistics of each column.
pub fn stats(alloc: Global, texts: &[&[u8]]) -> Result<String, RunFault>
    ensures ok { IfOk result (λ text. IsStats (map (λ t. t.now) texts.now) (string_bytes text)) }
    ensures err { IfErr result (OrMemory (StopsTexts (map (λ t. t.now) texts.now))) }
{
    Loaded::open(alloc, texts)?.stats(alloc, 1)
}

/// What `schema` prints of the files of these texts: the fields of their table.
pub fn schema(alloc: Global, texts: &[&[u8]]) -> Result<String, RunFault>
    ensures ok { IfOk result (λ text. IsSchema (map (λ t. t.now) texts.now) (string_bytes text)) }
    ensures err { IfErr result (OrMemory (StopsTexts (map (λ t. t.now) texts.now))) }
{
    Loaded::open(alloc, texts)?.schema(alloc)
}

/// What `export` prints of the files of these texts: one file with all their batches.
pub fn export(alloc: Global, texts: &[&[u8]]) -> Result<String, RunFault>
    ensures ok { IfOk result (λ text. IsExport (map (λ t. t.now) texts.now) (string_bytes text)) }
    ensures err { IfErr result (OrMemory (StopsTexts (map (λ t. t.now) texts.now))) }
{
    Loaded::open(alloc, texts)?.export(alloc)
}

/// What `query` prints of the files of these texts: a line for each group. The query's text is read before any file is.
pub fn query(alloc: Global, query_text: &[u8], texts: &[&[u8]]) -> Result<String, RunFault>
    ensures ok { IfOk result (λ text. IsAnswered query_text.now (map (λ t. t.now) texts.now) (string_bytes text)) }
    ensures err { IfErr result (OrMemory (StopsQuery query_text.now (map (λ t. t.now) texts.now))) }
{
    let read = read_query_text(alloc, query_text)?;
    Loaded::open(alloc, texts)?.groups(alloc, &read)
}

/// Whether the files of these texts can be loaded into one table, or the first fault that stands in the way.
pub fn validate(alloc: Global, texts: &[&[u8]]) -> Result<(), RunFault>
    ensures ok { OnOk result (AreLoadable (map (λ t. t.now) texts.now)) }
    ensures err { IfErr result (OrMemory (StopsTexts (map (λ t. t.now) texts.now))) }
{
    Loaded::open(alloc, texts)?;
    Ok(())
}

/// The line of a fault, as the program would report it of files whose names are their numbers, from 0. That memory ran out has
/// one that takes none.
pub fn line_of(alloc: Global, fault: &RunFault) -> Result<String, NoMemory>
    ensures { IfOk result (λ text. string_bytes text ≡ line_of_fault fault.now) }
{
    match fault {
        RunFault::OfFile { file, fault: _ } => {
            let name = format!(in alloc; "{file}")?;
            reports::line_of(alloc, name.as_str(), fault)
        }
        _ => reports::line_of(alloc, "", fault),
    }
}
