//! Queries by name become queries by position.

ghost use Rattle.std.specs.Prelude.{◌≡◌, ◌⊎◌, true, map, option_map, IfOk, IfErr, IsOk, Ok, Err};
ghost use Rattle.types.specs.Shape.{fields_of};
ghost use Rattle.query.specs.QueryShape.{query_shape};
ghost use Rattle.query.specs.CalledColumns.{place_of};
ghost use Rattle.query.specs.FirstFault.{fits};
ghost use Rattle.query.specs.Resolved.{named, place_in, renamed, renamed_agg, renamed_query, resolved, written};
ghost use Rattle.query.specs.Tree.{tree_of};

use crate::columns::place_of;
use crate::expr::{Agg, Expr};
use crate::fault::QueryFault;
use crate::kinds::{check_parts, is_too_deep};
use crate::queries::{Query, QueryText};
use arrayvec::ArrayVec;
use colbits::NoMemory;
use std::alloc::Global;
use types::{Field, Schema};

/// The query over the fields of a schema that the text asks for. A filter that is too deep is reported first; then the walk
/// goes through the filter, the keys and the aggregates, operands before their operator and from left to right, and tells the
/// first fault that it meets. Want of memory is reported only where there is no fault: where a growth was refused, and where 2^32
/// fields or more come before a column, since a query's positions have 32 bits. It goes down 33 levels at most.
pub fn resolve(alloc: Global, text: &QueryText, schema: &Schema) -> Result<Query, QueryFault>
    ensures ok { IfOk result (λ q. resolved schema.now (named text.now) ≡ Ok (query_shape q)) }
    ensures fits { IfOk result (λ q. fits schema.now (query_shape q) ≡ true) }
    ensures err { IfErr result (λ e. (resolved schema.now (named text.now) ≡ Err e)
        ⊎ ((e ≡ QueryFault.NoMemory) × IsOk (resolved schema.now (named text.now)))) }
{
    if is_too_deep(&text.filter) {
        return Err(QueryFault::TooDeep);
    }
    check_parts(&text.filter, &text.by, &text.aggs, schema)?;
    Ok(placed_query(alloc, text, schema.fields())?)
}

/// The query with each name replaced by its column's position.
fn placed_query(alloc: Global, text: &QueryText, fields: &[Field]) -> Result<Query, NoMemory>
    ensures { IfOk result (λ q. query_shape q ≡ renamed_query (place_in (fields_of fields.now))
        (written text.now)) }
{
    Ok(Query {
        filter: placed_filter(alloc, &text.filter, fields)?,
        by: placed_keys(&text.by, fields)?,
        aggs: placed_aggs(alloc, &text.aggs, fields)?,
    })
}

/// The position of the field of the name, as queries have it. Memory is too small for more fields than 32 bits count.
fn position(fields: &[Field], name: &str) -> Result<u32, NoMemory>
    ensures { IfOk result (λ place. place ≡ place_of (fields_of fields.now) name.now) }
{
    u32::try_from(place_of(fields, name)).map_err(|_| NoMemory)
}

/// The expression with each name replaced by its column's position.
#[cycle(place)]
fn placed(alloc: Global, expr: &Expr<String>, fields: &[Field]) -> Result<Expr<u32>, NoMemory>
    ensures { IfOk result (λ e. tree_of e ≡ renamed (place_in (fields_of fields.now))
        (tree_of expr.now)) }
{
    match expr {
        Expr::Column(name) => Ok(Expr::Column(position(fields, name)?)),
        Expr::Int(number) => Ok(Expr::Int(*number)),
        Expr::Text(text) => Ok(Expr::Text(text.clone()?)),
        Expr::Op(op, operands) => Ok(Expr::Op(*op, all_placed(alloc, operands, fields)?)),
    }
}

/// The same of operands.
#[cycle(place)]
fn all_placed(
    alloc: Global,
    operands: &[Expr<String>],
    fields: &[Field],
) -> Result<Vec<Expr<u32>>, NoMemory>
    ensures { IfOk result (λ v. map tree_of v.items
        ≡ map (renamed (place_in (fields_of fields.now))) (map tree_of operands.now)) }
{
    let mut placed_operands = Vec::with_capacity(alloc, operands.len())?;
    for operand in operands {
        placed_operands.push(placed(alloc, operand, fields)?)?;
    }
    Ok(placed_operands)
}

/// The keys with each name replaced by its column's position.
fn placed_keys(
    by: &ArrayVec<String, 4, Global>,
    fields: &[Field],
) -> Result<ArrayVec<u32, 4>, NoMemory>
    ensures { IfOk result (λ v. v.items ≡ map (place_in (fields_of fields.now)) by.now.items) }
{
    let names = by.as_slice();
    let mut keys = ArrayVec::new();
    for name in names {
        keys.push(position(fields, name)?);
    }
    Ok(keys)
}

/// The aggregate with its name replaced by its column's position.
fn placed_agg(agg: &Agg<String>, fields: &[Field]) -> Result<Agg<u32>, NoMemory>
    ensures { IfOk result (λ a. a ≡ renamed_agg (place_in (fields_of fields.now)) agg.now) }
{
    match agg {
        Agg::Rows => Ok(Agg::Rows),
        Agg::Count(name) => Ok(Agg::Count(position(fields, name)?)),
        Agg::Sum(name) => Ok(Agg::Sum(position(fields, name)?)),
        Agg::Least(name) => Ok(Agg::Least(position(fields, name)?)),
        Agg::Greatest(name) => Ok(Agg::Greatest(position(fields, name)?)),
    }
}

/// The same of all.
fn placed_aggs(
    alloc: Global,
    aggs: &[Agg<String>],
    fields: &[Field],
) -> Result<Vec<Agg<u32>>, NoMemory>
    ensures { IfOk result (λ v. v.items
        ≡ map (renamed_agg (place_in (fields_of fields.now))) aggs.now) }
{
    let mut placed_aggs = Vec::with_capacity(alloc, aggs.len())?;
    for agg in aggs {
        placed_aggs.push(placed_agg(agg, fields)?)?;
    }
    Ok(placed_aggs)
}

/// The filter with each name replaced by its column's position.
fn placed_filter(
    alloc: Global,
    filter: &Option<Expr<String>>,
    fields: &[Field],
) -> Result<Option<Expr<u32>>, NoMemory>
    ensures { IfOk result (λ o. option_map tree_of o
        ≡ option_map (renamed (place_in (fields_of fields.now))) (option_map tree_of filter.now)) }
{
    match filter {
        Some(expr) => Ok(Some(placed(alloc, expr, fields)?)),
        None => Ok(None),
    }
}
