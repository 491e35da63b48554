//! Why a text isn't read.

ghost use Rattle.std.specs.Prelude.{◌≡◌, ◌∷◌, ◌++◌, [], OnOk};

use crate::space::Placed;

/// Why a text isn't read here. Another reader tells whether it is at fault, and where.
#[derive(Clone, Copy, Debug, Drop, PartialEq, Eq)]
pub enum Miss {
    Unread,
    NoMemory,
}

/// What is read at a place, or why it isn't.
pub type ScanResult<T> = Result<Placed<T>, Miss>;

/// Adds a value at the end.
pub fn push<T: Drop>(values: &mut Vec<T>, value: T) -> Result<(), Miss>
    ensures { OnOk result (values.new.items ≡ values.old.items ++ value ∷ []) }
{
    values.push(value).map_err(|_| Miss::NoMemory)
}
