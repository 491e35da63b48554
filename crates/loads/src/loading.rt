//! Files loaded by workers, side by side.

ghost use Rattle.std.specs.Prelude.{◌<◌, IfErr, IfOk, OnOk, length};
ghost use Rattle.loads.specs.Loaded.{AllLoaded, batches_of_files};
ghost use Rattle.loads.specs.Report.{AreNewest, AreReceipts, StandsAgainstLoading};

use crate::appending::Gated;
use crate::fault::LoadFault;
use crate::file_loading::run_files;
use crate::outcomes::receipts_of;
use arrays::File;
use crews::Gate;
use shared::{Naming, Publish, Receipt, SharedTable, Shown, Worker};
use std::alloc::Global;
use std::sync::Wait;
use std::thread::Threads;

/// Loads files into the table of the workers, each worker in a thread of its own: file f by the worker at the place that f
/// leaves as remainder by the number of workers, file after file, and in each file batch after batch. Before its append number
/// n of this call, counted from 0, a worker passes the gate with its place and n. A worker stops at its first refusal; the
/// others go on.
///
/// The answer has the receipt of the last batch of each worker that appended any, in the order of the workers. What was left
/// with the workers before is gone.
///
/// # Errors
/// `Refused` with the least file, where any worker was stopped by another refusal than want of memory; `NoMemory` where workers
/// were stopped by that alone. What was appended stays, and nothing is left with the workers. `NoMemory` too where there was no
/// room for the answer, and then nothing was begun.
pub fn load_all<
    N: Naming + Send + Sync,
    P: Publish<Item = Shown<N>> + Send,
    W: Wait + Sync,
    T: Threads + Sync,
    G: Gate,
>(
    wait: &W,
    threads: &T,
    alloc: Global,
    table: &SharedTable<N, P>,
    workers: &mut [Worker<N>],
    files: &[File],
    gate: &G,
) -> Result<Vec<Receipt<N>>, LoadFault>
    requires some { 0 < length workers.old }
    ensures loaded { OnOk result (AllLoaded (batches_of_files files.now) workers.old workers.new) }
    ensures receipts { IfOk result (λ v. AreReceipts v.items (batches_of_files files.now) workers.old workers.new) }
    ensures newest { IfOk result (λ v. AreNewest v.items workers.old workers.new) }
    ensures err { IfErr result (λ e. StandsAgainstLoading e (batches_of_files files.now) workers.old workers.new) }
{
    let count = workers.len();
    let receipts = Vec::with_capacity(alloc, count)?;
    let mut outcomes = Vec::with_capacity(alloc, count)?;
    let gated = Gated { wait, table, gate };
    run_files(threads, &gated, files, workers, &mut outcomes);
    receipts_of(&outcomes, receipts)
}
