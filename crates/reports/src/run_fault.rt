//! Why there is no output.
ghost use Rattle.std.specs.Prelude.{◌≡◌, ◌≢◌, ◌⊎◌};

use arrays::NoMemory;
use arrow_json::{JsonFault, JsonFaultKind};
use std::alloc::AllocFailed;
use table::{AddFault, QueryFault, Refusal};

/// Why there is no output.
#[derive(Debug, Drop)]
pub enum RunFault {
    NoMemory,
    /// A fault of the file at this place.
    OfFile { file: usize, fault: FileFault },
    /// The query isn't read.
    QueryUnread(JsonFault),
    /// The query is refused over the table.
    QueryRefused(QueryFault),
    /// A fault of the column that is to be added.
    OfColumn(ColumnFault),
}

/// Why no column is added.
#[derive(Debug, Drop)]
pub enum ColumnFault {
    /// Its text is no field.
    Unread(JsonFault),
    /// No column of the field may be added.
    Refused(AddFault),
}

/// Why a file can't be loaded.
#[derive(Debug, Drop)]
pub enum FileFault {
    /// Its source failed.
    CannotRead,
    /// Its bytes are no file.
    Json(JsonFault),
    /// A batch of it is refused: the batch by its place in the file.
    Refused { batch: usize, refusal: Refusal },
}

impl From<NoMemory> for RunFault {
    ghost use Rattle.std.specs.Prelude.{◌≡◌};
    ghost use Rattle.reports.specs.declared.run_fault.RunFault.TheVariants as fault;

    ghost from_gives = { λ _ e. e ≡ fault.NoMemory };

    fn from(_: NoMemory) -> RunFault {
        RunFault::NoMemory
    }
}

impl<T: Drop> From<AllocFailed<T>> for RunFault {
    ghost use Rattle.std.specs.Prelude.{◌≡◌};
    ghost use Rattle.reports.specs.declared.run_fault.RunFault.TheVariants as fault;

    ghost from_gives = { λ _ e. e ≡ fault.NoMemory };

    fn from(_: AllocFailed<T>) -> RunFault {
        RunFault::NoMemory
    }
}

/// A query is refused, or memory ran out.
impl From<QueryFault> for RunFault {
    ghost use Rattle.std.specs.Prelude.{◌≡◌, ◌≢◌, ◌⊎◌};
    ghost use Rattle.reports.specs.declared.run_fault.RunFault.TheVariants as fault;
    ghost use Rattle.table.specs.QueryFaults as query;

    ghost from_gives = { λ q e. ((q ≡ query.NoMemory) × (e ≡ fault.NoMemory)) ⊎ ((q ≢ query.NoMemory) × (e ≡ fault.QueryRefused q)) };

    fn from(fault: QueryFault) -> RunFault {
        match fault {
            QueryFault::NoMemory => RunFault::NoMemory,
            _ => RunFault::QueryRefused(fault),
        }
    }
}

/// The fault of the file at a place, whose text isn't read.
pub fn text_fault(place: usize, fault: JsonFault) -> RunFault
    ensures { (result ≡ RunFault.NoMemory) ⊎ ((fault.kind ≢ JsonFaultKind.NoMemory) × (result ≡ RunFault.OfFile place (FileFault.Json fault))) }
{
    match fault.kind {
        JsonFaultKind::NoMemory => RunFault::NoMemory,
        _ => RunFault::OfFile {
            file: place,
            fault: FileFault::Json(fault),
        },
    }
}
