//! The statistics of the slots of a view.

ghost use Rattle.std.specs.Prelude.{◌≡◌, IfOk, option_map, true};
ghost use Rattle.arrays.specs.Prelude.{boolean, int, is_list, is_text, text};
ghost use Rattle.arrays.specs.Kind as kind;
ghost use Rattle.group.specs.Summary.{AreStats, scalar_item};

use crate::number::Number;
use crate::stats::{ColumnStats, Scalar};
use crate::tally::{Tally, greater, lesser};
use arrays::validity::is_valid;
use arrays::{IntType, Integer, NoMemory, View, ViewType, with_integer};
use std::alloc::Global;

/// The statistics of a column.
///
/// Of `[3, null, -1]` they are 3 rows, 1 null, the sum 2, the least number -1 and the greatest 3.
pub fn stats_of(alloc: Global, view: &View<'_>) -> Result<ColumnStats, NoMemory>
    ensures { IfOk result (λ s. AreStats s view.now.kind view.now.items) }
{
    match view.ty() {
        ViewType::Int(ty) => Ok(int_stats(ty, view)),
        ViewType::Bool => Ok(truth_stats(view)),
        ViewType::List(_, _) => Ok(list_stats(view)),
        _ => text_stats(alloc, view),
    }
}

/// The statistics of a column of an integer type.
fn int_stats(ty: IntType, view: &View<'_>) -> ColumnStats
    requires { view.now.kind ≡ kind.int ty }
    ensures { AreStats result view.now.kind view.now.items }
{
    with_integer!(ty, number_stats::<_>(view))
}

/// The statistics of a column of numbers of type `T`.
fn number_stats<T: Integer>(view: &View<'_>) -> ColumnStats
    requires { view.now.kind ≡ kind.int T.ty }
    ensures { AreStats result view.now.kind view.now.items }
{
    let column = view.ints::<T>();
    let slots = column.slots;
    let mut tally = Tally::new();
    let mut sum: i128 = 0;
    for i in 0..slots as usize {
        if is_valid(&column.validity, i) {
            let number = column.read(i);
            sum += number.wide();
            tally = tally.with_value(Number { number });
        } else {
            tally = tally.with_null();
        }
    }
    ColumnStats {
        rows: u64::from(slots),
        nulls: tally.nulls,
        sum: Some(sum),
        least: number_scalar(tally.least),
        greatest: number_scalar(tally.greatest),
    }
}

/// The statistics of a column of truth values.
fn truth_stats(view: &View<'_>) -> ColumnStats
    requires { view.now.kind ≡ kind.boolean }
    ensures { AreStats result view.now.kind view.now.items }
{
    let column = view.bools();
    let slots = column.slots;
    let mut tally = Tally::new();
    for i in 0..slots as usize {
        if is_valid(&column.validity, i) {
            tally = tally.with_value(column.values.get(i));
        } else {
            tally = tally.with_null();
        }
    }
    ColumnStats {
        rows: u64::from(slots),
        nulls: tally.nulls,
        sum: None,
        least: bool_scalar(tally.least),
        greatest: bool_scalar(tally.greatest),
    }
}

/// The statistics of a column of texts, dictionary-encoded or not.
fn text_stats(alloc: Global, view: &View<'_>) -> Result<ColumnStats, NoMemory>
    requires { is_text view.now.kind ≡ true }
    ensures { IfOk result (λ s. AreStats s view.now.kind view.now.items) }
{
    let slots = view.slots();
    let mut nulls = 0;
    let mut least = None;
    let mut greatest = None;
    for i in 0..slots as usize {
        match view.text_at(i) {
            Some(text) => {
                least = Some(lesser(least, text));
                greatest = Some(greater(greatest, text));
            }
            None => nulls += 1,
        }
    }
    Ok(ColumnStats {
        rows: u64::from(slots),
        nulls,
        sum: None,
        least: text_scalar(alloc, least)?,
        greatest: text_scalar(alloc, greatest)?,
    })
}

/// The statistics of a column of lists.
fn list_stats(view: &View<'_>) -> ColumnStats
    requires { is_list view.now.kind ≡ true }
    ensures { AreStats result view.now.kind view.now.items }
{
    let slots = view.slots();
    let mut nulls = 0;
    for i in 0..slots as usize {
        if !view.holds(i) {
            nulls += 1;
        }
    }
    ColumnStats {
        rows: u64::from(slots),
        nulls,
        sum: None,
        least: None,
        greatest: None,
    }
}

/// A number as a value, if there is one.
fn number_scalar<T: Integer>(number: Option<Number<T>>) -> Option<Scalar>
    ensures { option_map scalar_item result ≡ option_map (λ n. int (T.value n.number)) number }
{
    match number {
        Some(Number { number }) => Some(Scalar::Int(number.wide())),
        None => None,
    }
}

/// A truth value as a value, if there is one.
fn bool_scalar(truth: Option<bool>) -> Option<Scalar>
    ensures { option_map scalar_item result ≡ option_map boolean truth }
{
    match truth {
        Some(truth) => Some(Scalar::Bool(truth)),
        None => None,
    }
}

/// A copy of a text as a value, if there is one.
fn text_scalar(alloc: Global, best: Option<&str>) -> Result<Option<Scalar>, NoMemory>
    ensures { IfOk result (λ s. option_map scalar_item s ≡ option_map (λ t. text t.now) best.entry) }
{
    match best {
        Some(best) => Ok(Some(Scalar::Text(String::from_str(alloc, best)?))),
        None => Ok(None),
    }
}
