ghost use Rattle.std.specs.Prelude.{◌≡◌};
ghost use Rattle.kernels.specs.declared.fault.KernelFault.TheVariants as faults;

use colbits::NoMemory;
use std::alloc::{AllocError, AllocFailed};
use thiserror::Error;

/// Why a kernel gives no array. Where several stand, types come before lengths, and lengths before rows.
#[derive(Clone, Copy, Debug, PartialEq, Eq, Error)]
pub enum KernelFault {
    /// The kernel has no meaning at these types, or at these two together.
    #[error("K1 TypesDiffer")]
    TypesDiffer,
    /// The views aren't of one length.
    #[error("K2 LengthsDiffer")]
    LengthsDiffer,
    /// An exact result is outside the columns' type; the least such row.
    #[error("K3 Overflow row={row}")]
    Overflow { row: usize },
    /// A growth was refused.
    #[error("K4 NoMemory")]
    NoMemory,
}

impl From<NoMemory> for KernelFault {
    ghost from_gives = { λ _ e. e ≡ faults.NoMemory };

    fn from(_: NoMemory) -> KernelFault {
        KernelFault::NoMemory
    }
}

impl From<AllocError> for KernelFault {
    ghost from_gives = { λ _ e. e ≡ faults.NoMemory };

    fn from(_: AllocError) -> KernelFault {
        KernelFault::NoMemory
    }
}

impl<T: Drop> From<AllocFailed<T>> for KernelFault {
    ghost from_gives = { λ _ e. e ≡ faults.NoMemory };

    fn from(_: AllocFailed<T>) -> KernelFault {
        KernelFault::NoMemory
    }
}
