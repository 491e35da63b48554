//! Nulls where none may be.

ghost use Rattle.std.specs.Prelude.{◌≡◌, length, position};
ghost use Rattle.arrays.specs.Prelude.{Table, field_of, fields_of, is_null};
ghost use Rattle.table.specs.Cause.{null_cause, null_row};
ghost use Rattle.table.specs.Columns.{HasColumns};

use crate::refusal::Refusal;
use arrays::{Array, Field, View};

/// The least column with a null item that its field may not hold, with its least such row.
pub(crate) fn null_refusal(fields: &[Field], columns: &[Array]) -> Option<Refusal>
    requires { length columns.now ≡ length fields.now }
    ensures { (t : Table) → HasColumns t columns.now → result ≡ null_cause (fields_of fields.now) t }
{
    for column in 0..columns.len() {
        if let Some(row) = null_row(&fields[column], &columns[column]) {
            return Some(Refusal::NullInNonNullable { column, row });
        }
    }
    None
}

/// The least row of a column with a null item that its field may not hold.
fn null_row(field: &Field, column: &Array) -> Option<usize>
    ensures { result ≡ null_row (field_of field.now) column.now.items }
{
    if field.nullable {
        None
    } else {
        first_null(&column.view())
    }
}

/// The least slot that holds no item.
fn first_null(view: &View<'_>) -> Option<usize>
    ensures { result ≡ position is_null view.now.items }
{
    for i in 0..view.len() {
        if !view.holds(i) {
            return Some(i);
        }
    }
    None
}
