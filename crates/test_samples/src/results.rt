//! Results of kernels and selections, which have a bitmap only where a slot is null.

use crate::slots::{shows_bools, shows_numbers};
use arrays::{Array, View};

/// Whether a result holds these numbers.
pub fn is_result_of_numbers(column: &Array, numbers: &[Option<i128>]) -> bool {
    shows_numbers(&column.view(), numbers) && has_validity_only_where_null(&column.view())
}

/// Whether a result holds these truth values.
pub fn is_result_of_bools(column: &Array, bools: &[Option<bool>]) -> bool {
    shows_bools(&column.view(), bools) && has_validity_only_where_null(&column.view())
}

/// Whether there is a bitmap only where a slot is null.
pub fn has_validity_only_where_null(view: &View<'_>) -> bool {
    view.validity().is_some() == (view.null_count() > 0)
}
