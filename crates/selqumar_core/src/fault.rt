//! One fault for all that a program does with the library.

ghost use Rattle.std.specs.Prelude.{◌≡◌};
ghost use Rattle.selqumar_core.specs.declared.fault.Fault.TheVariants as faults;

use arrays::{BatchFault, BuildFault, NoMemory, SchemaFault};
use arrow_json::JsonFault;
use loads::LoadFault;
use shared::{AddFault, GatherCause, OpenFault, QueryFault, Refusal};
use std::alloc::{AllocError, AllocFailed};
use std::io;
use thiserror::Error;

/// What went wrong. Each fault of the library becomes one of these by `?`, and prints as it does by itself.
#[derive(Debug, Drop, Error)]
pub enum Fault {
    /// A growth was refused.
    #[error("no memory")]
    NoMemory,
    /// The fields are no schema.
    #[error("{0}")]
    Schema(#[from] SchemaFault),
    /// A column can't be built.
    #[error("{0}")]
    Build(#[from] BuildFault),
    /// The columns are no batch of the schema.
    #[error("{0}")]
    Batch(#[from] BatchFault),
    /// A table can't be opened.
    #[error("{0}")]
    Open(#[from] OpenFault),
    /// The table doesn't take the batch.
    #[error("{0}")]
    Refused(#[from] Refusal),
    /// The table doesn't take the column.
    #[error("{0}")]
    Column(#[from] AddFault),
    /// Files weren't loaded whole.
    #[error("{0}")]
    Load(#[from] LoadFault),
    /// The table isn't gathered.
    #[error("{0}")]
    Gather(#[from] GatherCause),
    /// A text isn't read: `fault_text` has the place.
    #[error("{}", .0.kind)]
    Unread(#[from] JsonFault),
    /// A query isn't placed or answered.
    #[error("{0}")]
    Query(#[from] QueryFault),
    /// The output failed.
    #[error("{0}")]
    Output(#[from] io::Error),
}

impl From<NoMemory> for Fault {
    ghost from_gives = { λ _ e. e ≡ faults.NoMemory };

    fn from(_: NoMemory) -> Fault {
        Fault::NoMemory
    }
}

impl From<AllocError> for Fault {
    ghost from_gives = { λ _ e. e ≡ faults.NoMemory };

    fn from(_: AllocError) -> Fault {
        Fault::NoMemory
    }
}

impl<T: Drop> From<AllocFailed<T>> for Fault {
    ghost from_gives = { λ _ e. e ≡ faults.NoMemory };

    fn from(_: AllocFailed<T>) -> Fault {
        Fault::NoMemory
    }
}
