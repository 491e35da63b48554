//! The kinds that the parts of a query must have, and how deep its filter may be.

ghost use Rattle.std.specs.Prelude.{◌≡◌, map, option_map, Some, None, if◌then◌else◌};
ghost use Rattle.std.specs.Result.{result_err};
ghost use Rattle.types.specs.First.{first};
ghost use Rattle.query.specs.declared.fault.QueryFault.TheVariants.{WrongKind};
ghost use Rattle.query.specs.FirstFault.{agg_fault, filter_fault, is_too_deep, key_fault, query_fault};
ghost use Rattle.query.specs.Tree.{tree_of};

use crate::check::{Column, checked};
use crate::expr::{Agg, Expr};
use crate::fault::QueryFault;
use types::Schema;

/// How many expressions may stand on a path of a filter.
const MOST_LEVELS: u8 = 32;

/// Whether the filter has a longer path than it may have.
pub(crate) fn is_too_deep<C>(filter: &Option<Expr<C>>) -> bool
    ensures { result ≡ is_too_deep (option_map tree_of filter.now) }
{
    match filter {
        Some(expr) => expr.is_deeper_than(MOST_LEVELS),
        None => false,
    }
}

/// Tells the first fault of a query's parts: the filter, then the keys, then the aggregates.
pub(crate) fn check_parts<C: Column>(
    filter: &Option<Expr<C>>,
    by: &[C],
    aggs: &[Agg<C>],
    schema: &Schema,
) -> Result<(), QueryFault>
    ensures { result_err result ≡ query_fault (C.sort_in schema.now)
        (record { filter = option_map tree_of filter.now; by = by.now; aggs = aggs.now }) }
{
    check_filter(filter, schema)?;
    check_keys(by, schema)?;
    check_aggs(aggs, schema)
}

fn check_filter<C: Column>(filter: &Option<Expr<C>>, schema: &Schema) -> Result<(), QueryFault>
    ensures { result_err result ≡ filter_fault (C.sort_in schema.now) (option_map tree_of filter.now) }
{
    match filter {
        Some(expr) => right(checked(expr, schema)?.is_truth()),
        None => Ok(()),
    }
}

fn check_keys<C: Column>(by: &[C], schema: &Schema) -> Result<(), QueryFault>
    ensures { result_err result ≡ first (map (key_fault (C.sort_in schema.now)) by.now) }
{
    for column in by {
        right(column.sort_in(schema)?.is_plain())?;
    }
    Ok(())
}

fn check_aggs<C: Column>(aggs: &[Agg<C>], schema: &Schema) -> Result<(), QueryFault>
    ensures { result_err result ≡ first (map (agg_fault (C.sort_in schema.now)) aggs.now) }
{
    for agg in aggs {
        check_agg(agg, schema)?;
    }
    Ok(())
}

fn check_agg<C: Column>(agg: &Agg<C>, schema: &Schema) -> Result<(), QueryFault>
    ensures { result_err result ≡ agg_fault (C.sort_in schema.now) agg.now }
{
    match agg {
        Agg::Rows => Ok(()),
        Agg::Count(column) => {
            column.sort_in(schema)?;
            Ok(())
        }
        Agg::Sum(column) => right(column.sort_in(schema)?.is_int()),
        Agg::Least(column) => right(column.sort_in(schema)?.is_plain()),
        Agg::Greatest(column) => right(column.sort_in(schema)?.is_plain()),
    }
}

/// A wrong kind, unless the kind is right.
fn right(is_right: bool) -> Result<(), QueryFault>
    ensures { result_err result ≡ (if is_right then None else Some WrongKind) }
{
    if is_right {
        Ok(())
    } else {
        Err(QueryFault::WrongKind)
    }
}
