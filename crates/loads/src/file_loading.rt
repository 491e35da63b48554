//! Files that are appended by all workers.

ghost use Rattle.std.specs.Prelude.{◌≡◌, ◌≤◌, [], length, vec_capacity};
ghost use Rattle.loads.specs.Loaded.{AreRun, batches_of_files};

use crate::appending::Append;
use crate::outcomes::take_outcomes;
use crate::work::work;
use arrays::File;
use crews::{Task, run_all};
use shared::{Naming, Outcome, Worker};
use std::thread::Threads;

/// Files to be appended to a table by so many workers.
#[derive(Drop)]
pub(crate) struct FileLoading<'a, A> {
    table: &'a A,
    files: &'a [File],
    count: usize,
}

impl<'a, N: Naming, A: Append<N>> Task<Worker<N>> for FileLoading<'a, A> {
    ghost use Rattle.loads.specs.Loaded.{IsRun, batches_of_files, outcome_of};

    ghost count = { λ l. l.count };

    ghost does = { λ l place old new. IsRun (batches_of_files l.files.now) l.count place old new (outcome_of new) };

    fn work(&self, place: usize, worker: &mut Worker<N>) {
        work(self.table, self.files, self.count, place, worker);
    }
}

/// Has each worker append its files, all of them at once, and takes what was left with each, in order, into a list that is empty
/// and has room for it.
pub(crate) fn run_files<N: Naming + Send + Sync, T: Threads + Sync, A: Append<N> + Sync>(
    threads: &T,
    table: &A,
    files: &[File],
    workers: &mut [Worker<N>],
    outcomes: &mut Vec<Outcome<N>>,
)
    requires empty { outcomes.old.items ≡ [] }
    requires room { length workers.old ≤ vec_capacity outcomes.old }
    ensures { AreRun (batches_of_files files.now) workers.old workers.new outcomes.new.items }
{
    let count = workers.len();
    let loading = FileLoading {
        table,
        files,
        count,
    };
    run_all(threads, workers, &loading);
    take_outcomes(workers, outcomes);
}
