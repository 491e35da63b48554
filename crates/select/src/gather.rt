//! The picked rows of a view, as an array: one module for each layout.

ghost use Rattle.std.specs.Prelude.{◌≡◌, IfErr, IfOk, length, false, true};
ghost use Rattle.std.specs.List.{All};
ghost use Rattle.arrays.specs.Kind as kind;
ghost use Rattle.arrays.specs.Prelude.{is_list, is_too_big, same_kind};
ghost use Rattle.select.specs.Chosen.{chosen};
ghost use Rattle.select.specs.Fault.{IsFull};
ghost use Rattle.select.specs.Picked.{IsPick, picked};

mod bits;
mod bools;
mod lists;
mod numbers;
mod texts;

use crate::fault::SelectFault;
use crate::picks::Picks;
use crate::rows::Rows;
use arrays::{Array, View, ViewType};
pub(crate) use lists::spread_out;
use std::alloc::Global;

/// The array of the picked rows. Of a dictionary-encoded view it shares the dictionary.
pub(crate) fn gather<R: Rows>(
    alloc: Global,
    view: &View<'_>,
    rows: &R,
) -> Result<Array, SelectFault>
    requires { All (IsPick (length view.now.items)) (R.picks rows.now) }
    ensures ok { IfOk result (λ r. r ≡ chosen view.now.kind (λ items. picked items (R.picks rows.now)) view.now) }
    ensures codes { IfOk result (λ r. same_kind view.now.kind kind.dict ≡ true → length view.now.codes ≡ length view.now.items) }
    ensures err { IfErr result (IsFull (is_too_big view.now.kind (picked view.now.items (R.picks rows.now)))) }
{
    match view.ty() {
        ViewType::List(width, item) => {
            let lists = view.lists();
            let spread = spread_out(alloc, width, &lists, rows)?;
            let child = gather_picks(alloc, &lists.child, &spread.rows)?;
            Ok(spread.lists.finish(item.copy(alloc)?, child)?)
        }
        ViewType::Int(_) | ViewType::Bool | ViewType::Text(_) | ViewType::Dict => {
            gather_plain(alloc, view, rows)
        }
    }
}

/// The same of a list of rows, as lists of lists need it: however deep they are, the rows of a child are of this type.
pub(crate) fn gather_picks(
    alloc: Global,
    view: &View<'_>,
    picks: &Picks,
) -> Result<Array, SelectFault>
    requires { All (IsPick (length view.now.items)) picks.now }
    ensures ok { IfOk result (λ r. r ≡ chosen view.now.kind (λ items. picked items picks.now) view.now) }
    ensures err { IfErr result (IsFull (is_too_big view.now.kind (picked view.now.items picks.now))) }
{
    match view.ty() {
        ViewType::List(width, item) => {
            let lists = view.lists();
            let spread = spread_out(alloc, width, &lists, picks)?;
            let child = gather_picks(alloc, &lists.child, &spread.rows)?;
            Ok(spread.lists.finish(item.copy(alloc)?, child)?)
        }
        ViewType::Int(_) | ViewType::Bool | ViewType::Text(_) | ViewType::Dict => {
            gather_plain(alloc, view, picks)
        }
    }
}

/// The same of a view of no lists.
fn gather_plain<R: Rows>(alloc: Global, view: &View<'_>, rows: &R) -> Result<Array, SelectFault>
    requires plain { is_list view.now.kind ≡ false }
    requires within { All (IsPick (length view.now.items)) (R.picks rows.now) }
    ensures ok { IfOk result (λ r. r ≡ chosen view.now.kind (λ items. picked items (R.picks rows.now)) view.now) }
    ensures codes { IfOk result (λ r. same_kind view.now.kind kind.dict ≡ true → length view.now.codes ≡ length view.now.items) }
    ensures err { IfErr result (IsFull (is_too_big view.now.kind (picked view.now.items (R.picks rows.now)))) }
{
    match view.ty() {
        ViewType::Int(ty) => Ok(numbers::gather_numbers(alloc, ty, view, rows)?),
        ViewType::Bool => Ok(bools::gather(alloc, view, rows)?),
        ViewType::Text(width) => texts::gather(alloc, width, view, rows),
        ViewType::List(_, _) => unreachable!(),
        ViewType::Dict => {
            let codes = numbers::gather::<i32, R>(alloc, &view.codes(), rows)?;
            Ok(Array::dict(codes, view.dictionary().clone()?))
        }
    }
}
