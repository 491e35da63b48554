//! Why a table isn't opened, or isn't gathered.

ghost use Rattle.std.specs.Prelude.{◌≡◌};
ghost use Rattle.shared.specs.declared.fault.OpenFault.TheVariants as faults;

use crate::naming::Naming;
use crate::shared_table::SharedTable;
use crate::shown::{Publish, Shown};
use crate::worker::Worker;
use arrays::NoMemory;
use std::alloc::{AllocError, AllocFailed};
use thiserror::Error;

/// Why a table isn't opened.
#[derive(Clone, Copy, Debug, PartialEq, Eq, Error)]
pub enum OpenFault {
    /// There is to be no worker.
    #[error("O1 NoWorkers")]
    NoWorkers,
    /// There are to be over 64 workers, or over 64 readers.
    #[error("O2 TooMany")]
    TooMany,
    /// A growth was refused.
    #[error("O3 NoMemory")]
    NoMemory,
    /// There was no place for a reader.
    #[error("O4 NoPlace")]
    NoPlace,
}

impl From<NoMemory> for OpenFault {
    ghost from_gives = { λ _ e. e ≡ faults.NoMemory };

    fn from(_: NoMemory) -> OpenFault {
        OpenFault::NoMemory
    }
}

impl From<AllocError> for OpenFault {
    ghost from_gives = { λ _ e. e ≡ faults.NoMemory };

    fn from(_: AllocError) -> OpenFault {
        OpenFault::NoMemory
    }
}

impl<T: Drop> From<AllocFailed<T>> for OpenFault {
    ghost from_gives = { λ _ e. e ≡ faults.NoMemory };

    fn from(_: AllocFailed<T>) -> OpenFault {
        OpenFault::NoMemory
    }
}

/// What stands against gathering a table.
#[derive(Clone, Copy, Debug, PartialEq, Eq, Error)]
pub enum GatherCause {
    /// A worker of the table isn't there: the one with the least number.
    #[error("G1 WorkerMissing number={number}")]
    WorkerMissing { number: u32 },
    /// A growth was refused.
    #[error("G2 NoMemory")]
    NoMemory,
}

/// Why a table isn't gathered, with the table and the workers as they were handed in.
#[derive(Drop)]
pub struct GatherFault<N: Naming, P: Publish<Item = Shown<N>>> {
    pub cause: GatherCause,
    pub table: SharedTable<N, P>,
    pub workers: Vec<Worker<N>>,
}
