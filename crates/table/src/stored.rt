//! How a table keeps its columns.

ghost use Rattle.std.specs.Prelude.{◌≡◌, IfOk};
ghost use Rattle.arrays.specs.Prelude.{field_of, fields_of, shape_of};
ghost use Rattle.table.specs.Stored.{stored_field, stored_fields, stored_shape};

use arrays::{DataType, Field, NoMemory, Schema};
use std::alloc::Global;

/// The schema of a table's columns as they are stored: each top-level text gets a dictionary.
pub(crate) fn stored_schema(alloc: Global, schema: Schema) -> Result<Schema, NoMemory>
    ensures { IfOk result (λ s. s ≡ stored_fields schema) }
{
    match Schema::new(stored_all(alloc, schema.fields())?) {
        Ok(schema) => Ok(schema),
        // A schema stays one: no list gets deeper, and no list gets a dictionary.
        Err(_) => unreachable!(),
    }
}

/// Each field as it is stored.
fn stored_all(alloc: Global, fields: &[Field]) -> Result<Vec<Field>, NoMemory>
    ensures { IfOk result (λ v. fields_of v.items ≡ stored_fields (fields_of fields.now)) }
{
    let mut stored = Vec::with_capacity(alloc, fields.len())?;
    for field in fields {
        stored.push(stored_one(alloc, field)?)?;
    }
    Ok(stored)
}

/// A field as it is stored.
pub(crate) fn stored_one(alloc: Global, field: &Field) -> Result<Field, NoMemory>
    ensures { IfOk result (λ f. field_of f ≡ stored_field (field_of field.now)) }
{
    Ok(Field {
        name: field.name.clone()?,
        nullable: field.nullable,
        ty: stored_type(alloc, &field.ty)?,
    })
}

/// A type as it is stored at the top.
fn stored_type(alloc: Global, ty: &DataType) -> Result<DataType, NoMemory>
    ensures { IfOk result (λ t. shape_of t ≡ stored_shape (shape_of ty.now)) }
{
    match ty {
        DataType::Utf8 => Ok(DataType::Dict),
        _ => ty.copy(alloc),
    }
}
