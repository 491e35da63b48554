ghost use Rattle.std.specs.Prelude.{◌≡◌, IfOk, string_bytes};
ghost use Rattle.query.specs.declared.fault.QueryFault.TheVariants as faults;
ghost use Rattle.query.specs.FaultText.{query_fault_text};

use colbits::NoMemory;
use std::alloc::{AllocError, AllocFailed, Global};
use thiserror::Error;

/// Why a query has no answer.
#[derive(Clone, Copy, Debug, PartialEq, Eq, Error)]
pub enum QueryFault {
    /// No field has a column's name, or a column's position is past the fields.
    #[error("Q1 NoColumn")]
    NoColumn,
    /// Several fields have a column's name.
    #[error("Q2 AmbiguousColumn")]
    AmbiguousColumn,
    /// A filter, a key, an aggregate or an operator isn't over columns or operands of the kinds that it takes, or a number
    /// doesn't fit the type that what stands beside it gives it.
    #[error("Q3 WrongKind")]
    WrongKind,
    /// An arithmetic part of the filter is outside its type: the least such row of all rows.
    #[error("Q4 Overflow row={row}")]
    Overflow { row: u64 },
    /// The longest path of the filter has more than 32 expressions.
    #[error("Q5 TooDeep")]
    TooDeep,
    /// A growth was refused.
    #[error("Q6 NoMemory")]
    NoMemory,
}

impl From<NoMemory> for QueryFault {
    ghost from_gives = { λ _ e. e ≡ faults.NoMemory };

    fn from(_: NoMemory) -> QueryFault {
        QueryFault::NoMemory
    }
}

impl From<AllocError> for QueryFault {
    ghost from_gives = { λ _ e. e ≡ faults.NoMemory };

    fn from(_: AllocError) -> QueryFault {
        QueryFault::NoMemory
    }
}

impl<T: Drop> From<AllocFailed<T>> for QueryFault {
    ghost from_gives = { λ _ e. e ≡ faults.NoMemory };

    fn from(_: AllocFailed<T>) -> QueryFault {
        QueryFault::NoMemory
    }
}

/// The fault as it is reported: its number and name, then its field.
pub fn query_fault_text(alloc: Global, fault: QueryFault) -> Result<String, NoMemory>
    ensures { IfOk result (λ text. string_bytes text ≡ query_fault_text fault) }
{
    match fault {
        QueryFault::NoColumn => Ok(String::from_str(alloc, "Q1 NoColumn")?),
        QueryFault::AmbiguousColumn => Ok(String::from_str(alloc, "Q2 AmbiguousColumn")?),
        QueryFault::WrongKind => Ok(String::from_str(alloc, "Q3 WrongKind")?),
        QueryFault::Overflow { row } => Ok(format!(in alloc; "Q4 Overflow row={row}")?),
        QueryFault::TooDeep => Ok(String::from_str(alloc, "Q5 TooDeep")?),
        QueryFault::NoMemory => Ok(String::from_str(alloc, "Q6 NoMemory")?),
    }
}
