//! What tests make queries of.

use answers::{Agg, Expr, Op, QueryText};
use arrays::{DataType, Field, INT32, IntType, Schema, Width};
use arrayvec::ArrayVec;
use std::alloc::{AllocError, Global};
use std::test::Fail;

const UINT64: IntType = IntType {
    bits: Width::W64,
    signed: false,
};

/// A field of each kind, and two of one name.
pub(crate) fn schema(alloc: Global) -> Result<Schema, Fail> {
    let item = field(alloc, "item", DataType::Bool)?;
    let list = DataType::List(Box::new(alloc, item)?);
    let mut fields = Vec::new(alloc);
    for (name, ty) in [
        ("k", DataType::Utf8),
        ("v", DataType::Int(INT32)),
        ("u", DataType::Int(UINT64)),
        ("b", DataType::Bool),
        ("d", DataType::Dict),
        ("l", list),
        ("two", DataType::Bool),
        ("two", DataType::Bool),
    ] {
        fields.push(field(alloc, name, ty)?)?;
    }
    Ok(Schema::new(fields)?)
}

fn field(alloc: Global, name: &str, ty: DataType) -> Result<Field, AllocError> {
    Ok(Field {
        name: String::from_str(alloc, name)?,
        nullable: true,
        ty,
    })
}

/// The column of the name.
pub(crate) fn column(alloc: Global, name: &str) -> Result<Expr<String>, AllocError> {
    Ok(Expr::Column(String::from_str(alloc, name)?))
}

/// An operator over columns.
pub(crate) fn over(alloc: Global, op: Op, names: &[&str]) -> Result<Expr<String>, AllocError> {
    let mut operands = Vec::new(alloc);
    for name in names {
        operands.push(column(alloc, name)?)?;
    }
    Ok(Expr::Op(op, operands))
}

/// How many rows there are where the filter is true.
pub(crate) fn rows_where(alloc: Global, filter: Expr<String>) -> Result<QueryText, AllocError> {
    Ok(QueryText {
        filter: Some(filter),
        by: ArrayVec::new_in(alloc),
        aggs: vec![in alloc; Agg::Rows]?,
    })
}
