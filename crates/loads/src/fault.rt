use shared::Refusal;
use std::alloc::AllocError;
use thiserror::Error;

/// Why files aren't loaded as a whole.
#[derive(Clone, Copy, Debug, PartialEq, Eq, Error)]
pub enum LoadFault {
    /// A batch of a file was refused: of those that were met, and not for want of memory, the one in the least file.
    #[error("L1 Refused file={file} batch={batch} refusal={refusal}")]
    Refused {
        file: usize,
        batch: usize,
        refusal: Refusal,
    },
    /// A growth was refused.
    #[error("L2 NoMemory")]
    NoMemory,
}

impl From<AllocError> for LoadFault {
    ghost use Rattle.std.specs.Prelude.{◌≡◌};
    ghost use Rattle.loads.specs.declared.fault.LoadFault.TheVariants as fault;

    ghost from_gives = { λ _ e. e ≡ fault.NoMemory };

    fn from(_: AllocError) -> LoadFault {
        LoadFault::NoMemory
    }
}
