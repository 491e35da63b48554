ghost use Rattle.std.specs.Prelude.{◌≡◌};
ghost use Rattle.arrays.specs.declared.builder.fault.BuildFault.TheVariants as faults;

use colbits::NoMemory;
use std::alloc::{AllocError, AllocFailed};
use thiserror::Error;

/// Why a column in the making can't have one slot more. It is as it was then.
#[derive(Clone, Copy, Debug, PartialEq, Eq, Error)]
pub enum BuildFault {
    /// The bytes of the texts, or the items of the lists, would be over 2^31 - 1 together.
    #[error("the offsets are full")]
    OffsetsFull,
    /// A growth was refused.
    #[error("no memory")]
    NoMemory,
}

impl From<NoMemory> for BuildFault {
    ghost from_gives = { λ _ e. e ≡ faults.NoMemory };

    fn from(_: NoMemory) -> BuildFault {
        BuildFault::NoMemory
    }
}

impl From<AllocError> for BuildFault {
    ghost from_gives = { λ _ e. e ≡ faults.NoMemory };

    fn from(_: AllocError) -> BuildFault {
        BuildFault::NoMemory
    }
}

impl<T: Drop> From<AllocFailed<T>> for BuildFault {
    ghost from_gives = { λ _ e. e ≡ faults.NoMemory };

    fn from(_: AllocFailed<T>) -> BuildFault {
        BuildFault::NoMemory
    }
}
