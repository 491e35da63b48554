//! Of which types the columns of an answer are.
ghost use Rattle.std.specs.Prelude.{◌≡◌, ◌++◌, IfOk, map};
ghost use Rattle.arrays.specs.Prelude.{kind_of};
ghost use Rattle.answers.specs.Prelude.{query_shape};
ghost use Rattle.results.specs.Types.{result_types, type_at, type_of_agg, type_of_kind};

use answers::{Agg, Query};
use arrays::{DataType, INT64, IntType, NoMemory, Schema};
use std::alloc::Global;

/// The type of a column of an answer.
#[derive(Clone, Copy, Debug, PartialEq, Eq)]
pub enum ResultType {
    /// Integers: of a column's own type, and counts and sums of 64 bits.
    Int(IntType),
    Bool,
    /// Texts with offsets of 64 bits.
    Text,
}

/// The types of the columns that a query over the fields of a schema gives.
pub fn result_types(
    alloc: Global,
    schema: &Schema,
    query: &Query,
) -> Result<Vec<ResultType>, NoMemory>
    ensures { IfOk result (λ types. types.items ≡ result_types schema.now (query_shape query.now)) }
{
    let mut types = types_of_keys(alloc, schema, &query.by)?;
    for agg in &query.aggs {
        types.push(type_of_agg(schema, agg))?;
    }
    Ok(types)
}

/// The types of the columns at these places.
fn types_of_keys(
    alloc: Global,
    schema: &Schema,
    places: &[u32],
) -> Result<Vec<ResultType>, NoMemory>
    ensures { IfOk result (λ types. types.items ≡ map (type_at schema.now) places.now) }
{
    let mut types = Vec::new(alloc);
    for place in places {
        types.push(type_at(schema, *place))?;
    }
    Ok(types)
}

/// The type of an aggregate.
fn type_of_agg(schema: &Schema, agg: &Agg<u32>) -> ResultType
    ensures { result ≡ type_of_agg schema.now agg.now }
{
    match agg {
        Agg::Rows | Agg::Count(_) | Agg::Sum(_) => ResultType::Int(INT64),
        Agg::Least(place) | Agg::Greatest(place) => type_at(schema, *place),
    }
}

/// The type of the column at a place.
fn type_at(schema: &Schema, place: u32) -> ResultType
    ensures { result ≡ type_at schema.now place }
{
    match schema.fields().get(place as usize) {
        Some(field) => type_of(&field.ty),
        None => ResultType::Text,
    }
}

/// The type of a column of a type.
fn type_of(ty: &DataType) -> ResultType
    ensures { result ≡ type_of_kind (kind_of ty.now) }
{
    match ty {
        DataType::Int(int) => ResultType::Int(*int),
        DataType::Bool => ResultType::Bool,
        DataType::Utf8
        | DataType::LargeUtf8
        | DataType::Dict
        | DataType::List(_)
        | DataType::LargeList(_) => ResultType::Text,
    }
}
