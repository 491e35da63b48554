//! Fields, and the types of lists.

ghost use Rattle.std.specs.Prelude.{◌≡◌, IfOk};

use crate::widths::Widths;
use arrays::{DataType, Field, OffsetWidth};
use std::alloc::Global;
use std::test::Fail;

/// A field.
pub fn field(alloc: Global, name: &str, nullable: bool, ty: DataType) -> Result<Field, Fail>
    ensures { IfOk result (λ f. f.ty ≡ ty) }
{
    Ok(Field {
        name: String::from_str(alloc, name)?,
        nullable,
        ty,
    })
}

/// A nullable field that is named `item`.
pub fn item(alloc: Global, ty: DataType) -> Result<Field, Fail>
    ensures { IfOk result (λ f. f.ty ≡ ty) }
{
    Ok(Field::nullable(alloc, "item", ty)?)
}

/// Lists with offsets of a width, over a type. Their items are nullable, and named `item`.
pub fn list_of(alloc: Global, width: OffsetWidth, ty: DataType) -> Result<DataType, Fail> {
    Ok(DataType::of_lists(width, Box::new(alloc, item(alloc, ty)?)?))
}

/// So many of them in one another.
pub fn lists_of(
    alloc: Global,
    widths: Widths,
    lists: usize,
    ty: DataType,
) -> Result<DataType, Fail> {
    let mut outer = ty;
    for list in 0..lists {
        outer = list_of(alloc, widths.of_lists(list + 1), outer)?;
    }
    Ok(outer)
}
