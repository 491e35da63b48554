//! The rows of a view, as an array of their own.

ghost use Rattle.std.specs.Prelude.{◌≡◌, IfErr, IfOk};
ghost use Rattle.select.specs.Chosen.{chosen};

use crate::fault::SelectFault;
use crate::gather::gather;
use crate::rows::FirstRows;
use arrays::{Array, NoMemory, View};
use std::alloc::Global;

/// The items of a view as an array in memory of its own, save that a dictionary-encoded view shares its dictionary.
/// `NoMemory` where a growth was refused: what lies in one array fits one.
pub fn copy(alloc: Global, view: &View<'_>) -> Result<Array, NoMemory>
    ensures { IfOk result (λ r. r ≡ chosen view.now.kind (λ items. items) view.now) }
{
    each_row(alloc, view).map_err(|_| NoMemory)
}

/// The same, by the rows, each picked once.
fn each_row(alloc: Global, view: &View<'_>) -> Result<Array, SelectFault>
    ensures ok { IfOk result (λ r. r ≡ chosen view.now.kind (λ items. items) view.now) }
    ensures err { IfErr result (λ e. e ≡ SelectFault.NoMemory) }
{
    view.tell_items();
    gather(alloc, view, &FirstRows::new(view.slots()))
}
