ghost use Rattle.std.specs.Prelude.{◌≡◌};
ghost use Rattle.flat.specs.declared.fault.FlatFault.TheVariants as faults;

use arrays::{BatchFault, LayoutFault, NoMemory, SchemaFault};
use std::alloc::{AllocError, AllocFailed};
use thiserror::Error;

/// Why nodes are no record batch, or no schema. Columns are counted from 0; what lies in a column has its number.
#[derive(Clone, Copy, Debug, PartialEq, Eq, Error)]
pub enum FlatFault {
    /// A name isn't UTF-8.
    #[error("X1 NameNotUtf8 column={column}")]
    NameNotUtf8 { column: usize },
    /// A format names no type that a table has.
    #[error("X2 UnknownFormat column={column}")]
    UnknownFormat { column: usize },
    /// A list hasn't exactly one child, another type has some, what has a dictionary is no integer, or a dictionary has other
    /// values than texts with offsets of 32 bits.
    #[error("X3 ChildrenDiffer column={column}")]
    ChildrenDiffer { column: usize },
    /// The node of a child or of a dictionary isn't there.
    #[error("X4 MissingNode column={column}")]
    MissingNode { column: usize },
    /// More than 8 lists in one another.
    #[error("X5 TooDeep column={column}")]
    TooDeep { column: usize },
    /// The buffers of a column are no Arrow array.
    #[error("X6 Layout column={column}: {fault}")]
    Layout { column: usize, fault: LayoutFault },
    /// The fields are no schema.
    #[error("{fault}")]
    Schema { fault: SchemaFault },
    /// The columns are no batch.
    #[error("{fault}")]
    Batch { fault: BatchFault },
    /// A growth was refused.
    #[error("X7 NoMemory")]
    NoMemory,
}

impl From<NoMemory> for FlatFault {
    ghost from_gives = { λ _ e. e ≡ faults.NoMemory };

    fn from(_: NoMemory) -> FlatFault {
        FlatFault::NoMemory
    }
}

impl From<AllocError> for FlatFault {
    ghost from_gives = { λ _ e. e ≡ faults.NoMemory };

    fn from(_: AllocError) -> FlatFault {
        FlatFault::NoMemory
    }
}

impl<T: Drop> From<AllocFailed<T>> for FlatFault {
    ghost from_gives = { λ _ e. e ≡ faults.NoMemory };

    fn from(_: AllocFailed<T>) -> FlatFault {
        FlatFault::NoMemory
    }
}
