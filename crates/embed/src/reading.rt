//! Files that are read from their bytes, one after the other.
ghost use Rattle.std.specs.Prelude.{All, IfErr, IfOk, map};
ghost use Rattle.std.specs.List.{AllZip};
ghost use Rattle.arrow_json.specs.Prelude.{AreUnder, Reads, file_of};
ghost use Rattle.embed.specs.Refused.{StopsReading};
ghost use Rattle.reports.specs.Prelude.{OrMemory};

use arrays::File;
use arrow_json::read_file;
use reports::{RunFault, text_fault};
use std::alloc::Global;

/// The file of each text, in order, or the fault of the first text that is none.
pub(crate) fn read_files(alloc: Global, texts: &[&[u8]]) -> Result<Vec<File>, RunFault>
    ensures read { IfOk result (λ files. AllZip Reads (map (λ t. t.now) texts.now) (map file_of files.items)) }
    ensures under { IfOk result (λ files. All (λ f. AreUnder f.fields f.batches) files.items) }
    ensures err { IfErr result (OrMemory (StopsReading (map (λ t. t.now) texts.now))) }
{
    let mut files = Vec::new(alloc);
    for place in 0..texts.len() {
        match read_file(alloc, texts[place]) {
            Ok(file) => files.push(file)?,
            Err(fault) => return Err(text_fault(place, fault)),
        }
    }
    Ok(files)
}
