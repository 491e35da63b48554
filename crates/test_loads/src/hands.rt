//! Those who are at work on a table, each in a thread of its own.

ghost use Rattle.std.specs.Prelude.{◌≡◌, length};

use loads::{Task, run_all};
use shared::{Naming, Reader, Worker};
use std::alloc::Global;
use std::test::Fail;
use std::thread::Threads;

/// A worker that appends, one that joins what was appended, or a reader.
#[derive(Drop)]
pub(crate) enum Hand<N: Naming> {
    Appends(Worker<N>),
    Joins(Worker<N>),
    Reads(Reader<N>),
}

/// All workers, of whom so many append and the others join, and behind them all readers.
pub(crate) fn all_hands<N: Naming>(
    alloc: Global,
    workers: Vec<Worker<N>>,
    count: u32,
    readers: Vec<Reader<N>>,
) -> Result<Vec<Hand<N>>, Fail> {
    let mut hands = Vec::new(alloc);
    for worker in workers {
        let hand = if worker.number() < count {
            Hand::Appends(worker)
        } else {
            Hand::Joins(worker)
        };
        hands.push(hand)?;
    }
    for reader in readers {
        hands.push(Hand::Reads(reader))?;
    }
    Ok(hands)
}

/// The workers among them.
pub(crate) fn workers_of<N: Naming>(
    alloc: Global,
    hands: Vec<Hand<N>>,
) -> Result<Vec<Worker<N>>, Fail> {
    let mut workers = Vec::new(alloc);
    for hand in hands {
        match hand {
            Hand::Appends(worker) => workers.push(worker)?,
            Hand::Joins(worker) => workers.push(worker)?,
            Hand::Reads(_reader) => {}
        }
    }
    Ok(workers)
}

/// Has all of them do their parts of a task at once.
pub(crate) fn work_at_once<N: Naming + Send + Sync, T: Threads + Sync, J: Task<Hand<N>> + Sync>(
    threads: &T,
    hands: &mut [Hand<N>],
    task: &J,
)
    requires { length hands.old ≡ J.count task.now }
{
    run_all(threads, hands, task);
}
