//! The table of files that workers load together.
ghost use Rattle.std.specs.Prelude.{◌≡◌, ◌<◌, ◌≤◌, IfErr, IfOk, OnOk, length};
ghost use Rattle.std.specs.Arc.{arc_value};
ghost use Rattle.reports.specs.OrMemory.{OrMemory};
ghost use Rattle.arrowtab.specs.Worked.{Holds, IsFileRefused, IsGathered};
ghost use Rattle.loads.specs.Loaded.{AllLoaded, batches_of_files, fields_for};
ghost use Rattle.loads.specs.Report.{StandsAgainstLoading};
ghost use Rattle.shared.specs.Prelude.{AllThere, AreNew, IsNamed, IsWorkerCount};

use arrays::File;
use loads::{LoadFault, load_all};
use reports::{FileFault, RunFault};
use shared::{GatherCause, Naming, Opening, Publish, SharedTable, Shown, Worker, open};
use std::alloc::Global;
use std::marker::Brand;
use std::sync::{Arc, Wait};
use std::thread::Threads;
use table::{OpenGate, Version};

/// The table of the files, which so many workers load at once: it has the first file's schema.
pub(crate) fn load_together<W: Wait + Sync, T: Threads + Sync>(
    wait: &W,
    threads: &T,
    alloc: Global,
    workers: u32,
    files: Vec<File>,
) -> Result<Arc<Version>, RunFault>
    requires some { 0 < length files.items }
    requires worker { 1 ≤ workers }
    requires few { workers ≤ 64 }
    ensures ok { IfOk result (λ v. Holds workers files.items (arc_value v)) }
    ensures err { IfErr result (OrMemory (IsFileRefused workers files.items)) }
{
    let schema = files[0].schema().copy(alloc)?;
    let opening = Opening::new(alloc, schema, workers)?;
    load_under::<Brand, W, T>(wait, threads, alloc, opening, &files)
}

/// The same, under the table's name.
fn load_under<N: Naming + Send + Sync, W: Wait + Sync, T: Threads + Sync>(
    wait: &W,
    threads: &T,
    alloc: Global,
    opening: Opening,
    files: &[File],
) -> Result<Arc<Version>, RunFault>
    requires count { IsWorkerCount opening.workers }
    requires named { IsNamed N.book N.fields N.calls N.rows N.columns N.workers opening }
    requires fields { opening.fields ≡ fields_for files.now }
    ensures ok { IfOk result (λ v. Holds opening.workers files.now (arc_value v)) }
    ensures err { IfErr result (OrMemory (IsFileRefused opening.workers files.now)) }
{
    match open::<N, &W>(wait, alloc, opening, 0) {
        Ok((table, hands, _readers)) => load_by(wait, threads, alloc, table, hands, files),
        Err(_) => Err(RunFault::NoMemory),
    }
}

/// The same, by the workers of a new table. A table that isn't gathered is closed.
fn load_by<
    N: Naming + Send + Sync,
    P: Publish<Item = Shown<N>> + Send,
    W: Wait + Sync,
    T: Threads + Sync,
>(
    wait: &W,
    threads: &T,
    alloc: Global,
    table: SharedTable<N, P>,
    hands: Vec<Worker<N>>,
    files: &[File],
) -> Result<Arc<Version>, RunFault>
    requires worker { 1 ≤ table }
    requires count { length hands.items ≡ table }
    requires new { AreNew N.fields 0 hands.items }
    requires fields { N.fields ≡ fields_for files.now }
    ensures ok { IfOk result (λ v. Holds table files.now (arc_value v)) }
    ensures err { IfErr result (OrMemory (IsFileRefused table files.now)) }
{
    let mut hands = hands;
    match load_into(wait, threads, alloc, &table, &mut hands, files) {
        Ok(()) => gather_all(wait, table, hands),
        Err(LoadFault::NoMemory) => {
            table.close(wait);
            Err(RunFault::NoMemory)
        }
        Err(
            LoadFault::Refused {
                file,
                batch,
                refusal,
            },
        ) => {
            // What its worker had seen is legal, and has all of its own batches; the one history has those of the others.
            hands[file % hands.len()].tell();
            gather_all(wait, table, hands)?;
            Err(RunFault::OfFile {
                file,
                fault: FileFault::Refused { batch, refusal },
            })
        }
    }
}

/// Has the workers load the files.
fn load_into<
    N: Naming + Send + Sync,
    P: Publish<Item = Shown<N>> + Send,
    W: Wait + Sync,
    T: Threads + Sync,
>(
    wait: &W,
    threads: &T,
    alloc: Global,
    table: &SharedTable<N, P>,
    hands: &mut Vec<Worker<N>>,
    files: &[File],
) -> Result<(), LoadFault>
    requires { 0 < length hands.old.items }
    ensures ok { OnOk result (AllLoaded (batches_of_files files.now) hands.old.items hands.new.items) }
    ensures err { IfErr result (λ e. StandsAgainstLoading e (batches_of_files files.now) hands.old.items hands.new.items) }
{
    let hands = hands.as_mut_slice();
    load_all(wait, threads, alloc, table, hands, files, &OpenGate)?;
    Ok(())
}

/// All that the workers of a table appended. As all of them are there, only want of memory can stand against it.
fn gather_all<N: Naming, P: Publish<Item = Shown<N>>, W: Wait>(
    wait: &W,
    table: SharedTable<N, P>,
    hands: Vec<Worker<N>>,
) -> Result<Arc<Version>, RunFault>
    requires { AllThere table hands.items }
    ensures ok { IfOk result (λ v. IsGathered table N.fields hands.items (arc_value v)) }
    ensures err { IfErr result (λ e. e ≡ RunFault.NoMemory) }
{
    match table.gather(wait, hands) {
        Ok(gathered) => Ok(gathered.version),
        Err(fault) => match fault.cause {
            GatherCause::NoMemory => {
                fault.table.close(wait);
                Err(RunFault::NoMemory)
            }
            GatherCause::WorkerMissing { .. } => unreachable!(),
        },
    }
}
