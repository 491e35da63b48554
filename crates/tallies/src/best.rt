//! The least and the greatest of items that come one by one.

ghost use Rattle.std.specs.Prelude.{◌≡◌, OnOk, not, option_map};
ghost use Rattle.std.specs.Ordering.{is_gt};
ghost use Rattle.arrays.specs.Prelude.{is_null, order};
ghost use Rattle.group.specs.Prelude.{item_of_ref, scalar_item};
ghost use Rattle.tallies.specs.Ends.{is_better, is_further, with_item};

use crate::end::End;
use arrays::NoMemory;
use group::{Scalar, ScalarRef};
use std::alloc::Global;

/// Keeps a copy of the item, if it is the first one or further to the end than the best one so far.
pub(crate) fn put_better(
    alloc: Global,
    best: &mut Option<Scalar>,
    end: End,
    value: ScalarRef<'_>,
) -> Result<(), NoMemory>
    ensures { OnOk result (option_map scalar_item best.new ≡ with_item end (option_map scalar_item best.old) (item_of_ref value.entry)) }
{
    if is_better(best, end, value) {
        *best = value.to_scalar(alloc)?;
    }
    Ok(())
}

/// Whether the item is the first one, or further to the end than the best one so far.
fn is_better(best: &Option<Scalar>, end: End, value: ScalarRef<'_>) -> bool
    ensures { result ≡ is_better end (option_map scalar_item best.now) (item_of_ref value.entry) }
{
    match best {
        Some(best) => is_further(best, end, value),
        None => is_item(value),
    }
}

/// Whether the item is further to the end than the best one.
fn is_further(best: &Scalar, end: End, value: ScalarRef<'_>) -> bool
    ensures { result ≡ is_further end (scalar_item best.now) (item_of_ref value.entry) }
{
    match end {
        End::Least => exceeds(best, value),
        End::Greatest => is_exceeded(best, value),
    }
}

fn is_item(value: ScalarRef<'_>) -> bool
    ensures { result ≡ not (is_null (item_of_ref value.entry)) }
{
    match value {
        ScalarRef::Null => false,
        _ => true,
    }
}

/// Whether the best one comes behind the item.
fn exceeds(best: &Scalar, value: ScalarRef<'_>) -> bool
    ensures { result ≡ is_gt (order (scalar_item best.now) (item_of_ref value.entry)) }
{
    match (best, value) {
        (Scalar::Int(x), ScalarRef::Int(y)) => *x > y,
        (Scalar::Bool(x), ScalarRef::Bool(y)) => *x & !y,
        (Scalar::Text(x), ScalarRef::Text(y)) => x.as_str().cmp(&y).is_gt(),
        _ => false,
    }
}

/// Whether the item comes behind the best one.
fn is_exceeded(best: &Scalar, value: ScalarRef<'_>) -> bool
    ensures { result ≡ is_gt (order (item_of_ref value.entry) (scalar_item best.now)) }
{
    match (best, value) {
        (Scalar::Int(x), ScalarRef::Int(y)) => y > *x,
        (Scalar::Bool(x), ScalarRef::Bool(y)) => y & !*x,
        (Scalar::Text(x), ScalarRef::Text(y)) => y.cmp(x.as_str()).is_gt(),
        _ => false,
    }
}
