//! Picked truth values.

ghost use Rattle.std.specs.Prelude.{◌≡◌, IfOk, length};
ghost use Rattle.std.specs.List.{All};
ghost use Rattle.arrays.specs.Kind as kind;
ghost use Rattle.arrays.specs.Shown.{shown};
ghost use Rattle.select.specs.Picked.{IsPick, picked};

use super::bits::{picked_bits, picked_validity};
use crate::rows::Rows;
use arrays::{Array, NoMemory, View};
use std::alloc::Global;

/// The picked rows of a view of truth values.
pub(super) fn gather<R: Rows>(alloc: Global, view: &View<'_>, rows: &R) -> Result<Array, NoMemory>
    requires kind { view.now.kind ≡ kind.boolean }
    requires within { All (IsPick (length view.now.items)) (R.picks rows.now) }
    ensures { IfOk result (λ r. r ≡ shown kind.boolean (picked view.now.items (R.picks rows.now))) }
{
    let bools = view.bools();
    let validity = picked_validity(alloc, &bools.validity, rows)?;
    let values = picked_bits(alloc, &Some(bools.values), rows)?;
    Array::from_bits(alloc, rows.slots(), validity, values)
}
