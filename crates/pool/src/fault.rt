ghost use Rattle.std.specs.Prelude.{◌≡◌};
ghost use Rattle.pool.specs.declared.fault.PoolFault.TheVariants as faults;

use arrays::NoMemory;
use std::alloc::{AllocError, AllocFailed};
use thiserror::Error;

/// Why texts can't be pooled.
#[derive(Clone, Copy, Debug, PartialEq, Eq, Error)]
pub enum PoolFault {
    /// The pool would have over 2^31 - 1 texts, or over 2^31 - 1 bytes together.
    #[error("P1 TextsFull")]
    TextsFull,
    /// A growth was refused.
    #[error("P2 NoMemory")]
    NoMemory,
}

impl From<NoMemory> for PoolFault {
    ghost from_gives = { λ _ e. e ≡ faults.NoMemory };

    fn from(_: NoMemory) -> PoolFault {
        PoolFault::NoMemory
    }
}

impl From<AllocError> for PoolFault {
    ghost from_gives = { λ _ e. e ≡ faults.NoMemory };

    fn from(_: AllocError) -> PoolFault {
        PoolFault::NoMemory
    }
}

impl<T: Drop> From<AllocFailed<T>> for PoolFault {
    ghost from_gives = { λ _ e. e ≡ faults.NoMemory };

    fn from(_: AllocFailed<T>) -> PoolFault {
        PoolFault::NoMemory
    }
}
