ghost use Rattle.std.specs.Prelude.{◌≡◌};
ghost use Rattle.table.specs.declared.refusal.Refusal.TheVariants as refusals;

use arrays::NoMemory;
use std::alloc::{AllocError, AllocFailed};
use thiserror::Error;

/// Why a table doesn't take a batch. The first one that stands is reported; want of memory may come before any.
#[derive(Clone, Copy, Debug, PartialEq, Eq, Error)]
pub enum Refusal {
    /// A column's name or stored type isn't the table's: the least such column. Where there are more columns than
    /// the table has, or fewer, and all others agree, the smaller number.
    #[error("A1 SchemaDiffers column={column}")]
    SchemaDiffers { column: usize },
    /// A column whose field isn't nullable holds a null: the least such column, and its least such row.
    #[error("A2 NullInNonNullable column={column} row={row}")]
    NullInNonNullable { column: usize, row: usize },
    /// There would be more than 2^40 rows.
    #[error("A3 TableFull")]
    TableFull,
    /// There are 2^32 - 1 batches already.
    #[error("A4 BookFull")]
    BookFull,
    /// A text column would have over 2^31 - 1 distinct texts, or over 2^31 - 1 bytes of them: the least such column.
    #[error("A5 TextsFull column={column}")]
    TextsFull { column: usize },
    /// A growth was refused.
    #[error("A6 NoMemory")]
    NoMemory,
}

impl From<NoMemory> for Refusal {
    ghost from_gives = { λ _ e. e ≡ refusals.NoMemory };

    fn from(_: NoMemory) -> Refusal {
        Refusal::NoMemory
    }
}

impl From<AllocError> for Refusal {
    ghost from_gives = { λ _ e. e ≡ refusals.NoMemory };

    fn from(_: AllocError) -> Refusal {
        Refusal::NoMemory
    }
}

impl<T: Drop> From<AllocFailed<T>> for Refusal {
    ghost from_gives = { λ _ e. e ≡ refusals.NoMemory };

    fn from(_: AllocFailed<T>) -> Refusal {
        Refusal::NoMemory
    }
}
