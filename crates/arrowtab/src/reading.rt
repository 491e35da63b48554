//! The files of a job, window after window.
ghost use Rattle.std.specs.Prelude.{◌≡◌, ◌⊎◌, ◌^◌, ◌-◌, ◌<◌, All, IfErr, IfOk, OnOk, map};
ghost use Rattle.std.specs.List.{AllByRecursion};
ghost use Rattle.arrow_json.specs.Prelude.{AreUnder, file_of};
ghost use Rattle.reports.specs.OrMemory.{OrMemory};
ghost use Rattle.arrowtab.specs.Run.{AreRead, IsOfFiles};

use crate::windows::add_files;
use arrays::File;
use ends::{Source, SourceFault, read_whole};
use reports::{FileFault, RunFault};
use std::alloc::Global;
use std::thread::Threads;

/// The file of each source, in order. Windows of so many sources are read, one source after the other, and then parsed at
/// once; the bytes of one window are gone before the next is read. The first fault in the order of the sources ends it.
pub(crate) fn read_files<T: Threads + Sync, S: Source>(
    threads: &T,
    alloc: Global,
    workers: u32,
    sources: &mut [S],
) -> Result<Vec<File>, RunFault>
    requires { All (λ s. S.failures s < 2 ^ 64 - 1) sources.old }
    ensures read { IfOk result (λ files. AreRead (map S.remaining sources.old) (map file_of files.items)) }
    ensures under { IfOk result (λ files. AllByRecursion (λ f. AreUnder f.fields f.batches) files.items) }
    ensures unfailed { OnOk result (map S.failures sources.new ≡ map S.failures sources.old) }
    ensures err { IfErr result (OrMemory (IsOfFiles workers (map S.remaining sources.old) (map S.failures sources.old) (map S.failures sources.new))) }
{
    let mut files = Vec::new(alloc);
    let mut texts = Vec::new(alloc);
    for number in 0..sources.len() {
        match read_whole(alloc, &mut sources[number]) {
            Ok(text) => texts.push(text)?,
            Err(fault) => {
                add_files(threads, alloc, texts, &mut files)?;
                return Err(source_fault(number, fault));
            }
        }
        if texts.len() >= workers as usize {
            add_files(threads, alloc, texts, &mut files)?;
            texts = Vec::new(alloc);
        }
    }
    add_files(threads, alloc, texts, &mut files)?;
    Ok(files)
}

/// The fault of a source that isn't read to its end.
fn source_fault(number: usize, fault: SourceFault) -> RunFault
    ensures { (result ≡ RunFault.NoMemory) ⊎ ((fault ≡ SourceFault.ReadFailed) × (result ≡ RunFault.OfFile number FileFault.CannotRead)) }
{
    match fault {
        SourceFault::ReadFailed => RunFault::OfFile {
            file: number,
            fault: FileFault::CannotRead,
        },
        SourceFault::NoMemory => RunFault::NoMemory,
    }
}
