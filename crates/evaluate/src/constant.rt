//! Columns that have one value at each row.

ghost use Rattle.std.specs.Prelude.{◌≡◌, ◌≤◌, IfOk, replicate};
ghost use Rattle.arrays.specs.Kind as kind;
ghost use Rattle.arrays.specs.Prelude.{IsOfType, most_slots, shown};
ghost use Rattle.arrays.specs.Item as item;

use arrays::{Array, BoolBuilder, IntBuilder, IntType, NoMemory};
use std::alloc::Global;

/// The number at each of so many rows.
pub(crate) fn repeated_number(
    alloc: Global,
    ty: IntType,
    number: i128,
    len: usize,
) -> Result<Array, NoMemory>
    requires short { len ≤ most_slots }
    requires of_type { IsOfType ty number }
    ensures { IfOk result (λ a. a ≡ shown (kind.int ty) (replicate len (item.int number))) }
{
    let mut column = IntBuilder::with_capacity(alloc, ty, len)?;
    for _row in 0..len {
        column.push(Some(number))?;
    }
    column.finish()
}

/// The truth value at each of so many rows.
pub(crate) fn repeated_truth(alloc: Global, value: bool, len: usize) -> Result<Array, NoMemory>
    requires { len ≤ most_slots }
    ensures { IfOk result (λ a. a ≡ shown kind.boolean (replicate len (item.boolean value))) }
{
    let mut column = BoolBuilder::with_capacity(alloc, len)?;
    for _row in 0..len {
        column.push(Some(value))?;
    }
    column.finish()
}
