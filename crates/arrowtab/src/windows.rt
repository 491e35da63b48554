//! Files that are read from their texts, side by side.
ghost use Rattle.std.specs.Prelude.{IfErr, IfOk, OnOk, length, map};
ghost use Rattle.std.specs.List.{AllZip};
ghost use Rattle.reports.specs.Prelude.{AddsFiles, IsParsed, OrMemory, StopsParsing};

use arrays::{File, NoMemory};
use arrow_json::{JsonFault, read_file_from_vec};
use reports::{RunFault, text_fault};
use std::alloc::Global;
use std::thread::{Threads, map_vec};

/// Adds the file of each text, in order, up to the first text that is none, whose fault is reported. All texts are parsed at
/// once.
pub(crate) fn add_files<T: Threads + Sync>(
    threads: &T,
    alloc: Global,
    texts: Vec<Vec<u8>>,
    files: &mut Vec<File>,
) -> Result<(), RunFault>
    ensures ok { OnOk result (AddsFiles (map (λ t. t.items) texts.items) files.old.items files.new.items) }
    ensures err { IfErr result (OrMemory (StopsParsing (map (λ t. t.items) texts.items) (length files.old.items))) }
{
    for parsed in parse_all(threads, alloc, texts)? {
        match parsed {
            Ok(file) => files.push(file)?,
            Err(fault) => return Err(text_fault(files.len(), fault)),
        }
    }
    Ok(())
}

/// The file of each text, or what is wrong with it. Each is parsed in a thread of its own; where no thread can be started,
/// behind another.
fn parse_all<T: Threads + Sync>(
    threads: &T,
    alloc: Global,
    texts: Vec<Vec<u8>>,
) -> Result<Vec<Result<File, JsonFault>>, NoMemory>
    ensures { IfOk result (λ parsed. AllZip IsParsed (map (λ t. t.items) texts.items) parsed.items) }
{
    let parsed = map_vec(
        threads,
        texts,
        &|text: Vec<u8>| -> Result<File, JsonFault>
            ensures { IsParsed text.items result }
        { read_file_from_vec(alloc, text) },
    )?;
    Ok(parsed)
}
