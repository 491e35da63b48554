ghost use Rattle.std.specs.Prelude.{◌≡◌};
ghost use Rattle.select.specs.declared.fault.SelectFault.TheVariants as faults;

use arrays::{BuildFault, NoMemory};
use std::alloc::{AllocError, AllocFailed};
use thiserror::Error;

/// Why rows can't be selected. Where several stand, the first in this order is reported; want of memory may come at
/// any point where a growth is refused.
#[derive(Clone, Copy, Debug, PartialEq, Eq, Error)]
pub enum SelectFault {
    /// Indices that are no integers, or a mask that isn't of truth values.
    #[error("S5 WrongKind")]
    WrongKind,
    /// Views that aren't of one type.
    #[error("S3 TypesDiffer")]
    TypesDiffer,
    /// A mask that isn't as long as the view.
    #[error("S2 LengthsDiffer")]
    LengthsDiffer,
    /// An index that names no slot; the least such row of the indices.
    #[error("S1 IndexOutOfRange row={row}")]
    IndexOutOfRange { row: usize },
    /// The result would have over 2^31 - 1 slots, bytes of text or items of lists.
    #[error("S4 OffsetsFull")]
    OffsetsFull,
    /// A growth was refused.
    #[error("S6 NoMemory")]
    NoMemory,
}

impl From<NoMemory> for SelectFault {
    ghost from_gives = { λ _ e. e ≡ faults.NoMemory };

    fn from(_: NoMemory) -> SelectFault {
        SelectFault::NoMemory
    }
}

impl From<AllocError> for SelectFault {
    ghost from_gives = { λ _ e. e ≡ faults.NoMemory };

    fn from(_: AllocError) -> SelectFault {
        SelectFault::NoMemory
    }
}

impl<T: Drop> From<AllocFailed<T>> for SelectFault {
    ghost from_gives = { λ _ e. e ≡ faults.NoMemory };

    fn from(_: AllocFailed<T>) -> SelectFault {
        SelectFault::NoMemory
    }
}

impl From<BuildFault> for SelectFault {
    ghost use Rattle.std.specs.Prelude.{◌≡◌};
    ghost use Rattle.select.specs.Fault.{of_build};

    ghost from_gives = { λ b e. e ≡ of_build b };

    fn from(fault: BuildFault) -> SelectFault {
        match fault {
            BuildFault::OffsetsFull => SelectFault::OffsetsFull,
            BuildFault::NoMemory => SelectFault::NoMemory,
        }
    }
}
