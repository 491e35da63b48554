ghost use Rattle.std.specs.Prelude.{◌≡◌};
ghost use Rattle.table.specs.declared.add_fault.AddFault.TheVariants as faults;

use arrays::NoMemory;
use std::alloc::{AllocError, AllocFailed};
use thiserror::Error;

/// Why a column isn't added to a table. The first one that stands is reported, in this order.
#[derive(Clone, Copy, Debug, PartialEq, Eq, Error)]
pub enum AddFault {
    /// The field isn't nullable: rows that are there would have no value.
    #[error("N1 NotNullable")]
    NotNullable,
    /// More than 8 lists in one another.
    #[error("N2 TooDeep")]
    TooDeep,
    /// A dictionary inside a list.
    #[error("N3 DictInList")]
    DictInList,
    /// A growth was refused.
    #[error("N4 NoMemory")]
    NoMemory,
}

impl From<NoMemory> for AddFault {
    ghost from_gives = { λ _ e. e ≡ faults.NoMemory };

    fn from(_: NoMemory) -> AddFault {
        AddFault::NoMemory
    }
}

impl From<AllocError> for AddFault {
    ghost from_gives = { λ _ e. e ≡ faults.NoMemory };

    fn from(_: AllocError) -> AddFault {
        AddFault::NoMemory
    }
}

impl<T: Drop> From<AllocFailed<T>> for AddFault {
    ghost from_gives = { λ _ e. e ≡ faults.NoMemory };

    fn from(_: AllocFailed<T>) -> AddFault {
        AddFault::NoMemory
    }
}
