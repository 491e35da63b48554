//! Filters at the rows of a slice, and the least row where one is bad.

ghost use Rattle.std.specs.Prelude.{◌≡◌, ◌<◌, true, None, is_ok, IfOk, IfErr};
ghost use Rattle.query.specs.Prelude.{checked, fits, query_shape, sort_at, tree_of};
ghost use Rattle.evaluate.specs.Value.{value};
ghost use Rattle.evaluate.specs.Slices.{AreFilterValues, AreValues, IsFilterStop, IsLeastStop, row_in};

use crate::evaluation::evaluate;
use crate::slice::Slice;
use crate::stop::Stop;
use crate::values::Values;
use query::{Expr, Query};
use std::alloc::Global;

/// The truth values of a query's filter at the rows of a slice; none, where the query has no filter. `Bad` at the least of
/// these rows where any arithmetic part of the filter is outside its type, whatever stands round that part. `NoMemory`
/// where a growth was refused. It goes down as deep as the filter is: 32 levels at most, since the query fits.
pub fn evaluate_filter<'a>(
    alloc: Global,
    query: &'a Query,
    slice: Slice<'a>,
) -> Result<Option<Values<'a>>, Stop>
    requires { fits slice.batch.now.fields (query_shape query.now) ≡ true }
    ensures ok { IfOk result (AreFilterValues slice.entry.batch.now slice.entry.start slice.entry.len (query_shape query.now).filter) }
    ensures err { IfErr result (IsFilterStop slice.entry.batch.now slice.entry.start slice.entry.len (query_shape query.now).filter) }
{
    match &query.filter {
        None => Ok(None),
        Some(filter) => Ok(Some(evaluate_all(alloc, filter, slice)?)),
    }
}

/// The values of an expression at the rows of a slice, or the least of them where it is bad.
fn evaluate_all<'a>(
    alloc: Global,
    expr: &'a Expr<u32>,
    slice: Slice<'a>,
) -> Result<Values<'a>, Stop>
    requires { is_ok (checked (sort_at slice.batch.now.fields) (tree_of expr.now)) ≡ true }
    ensures ok { IfOk result (AreValues slice.entry.batch.now slice.entry.start slice.entry.len (tree_of expr.now)) }
    ensures err { IfErr result (IsLeastStop slice.entry.batch.now slice.entry.start slice.entry.len (tree_of expr.now)) }
{
    match evaluate(alloc, expr, slice) {
        Ok(values) => Ok(values),
        Err(Stop::Bad(row)) => Err(least_bad(alloc, expr, slice, row)),
        Err(Stop::NoMemory) => Err(Stop::NoMemory),
    }
}

/// The least bad row of a slice in which this row is one: those before it are evaluated anew until none is bad.
fn least_bad(alloc: Global, expr: &Expr<u32>, slice: Slice<'_>, bad: usize) -> Stop
    requires fits { is_ok (checked (sort_at slice.batch.now.fields) (tree_of expr.now)) ≡ true }
    requires within { bad < slice.len }
    requires bad { value slice.batch.now.fields (row_in slice.batch.now slice.start bad) (tree_of expr.now) ≡ None }
    ensures { IsLeastStop slice.entry.batch.now slice.entry.start slice.entry.len (tree_of expr.now) result }
{
    let mut least = bad;
    loop {
        let before = Slice {
            batch: slice.batch,
            start: slice.start,
            len: least,
        };
        match evaluate(alloc, expr, before) {
            Ok(_) => return Stop::Bad(least),
            Err(Stop::Bad(earlier)) => least = earlier,
            Err(Stop::NoMemory) => return Stop::NoMemory,
        }
    }
}
