//! Types of columns, and the fields that name them.

ghost use Rattle.std.specs.Prelude.{◌≡◌, IfOk, option_map, true};
ghost use Rattle.types.specs.Kind as kind;
ghost use Rattle.types.specs.Shape as shape;
ghost use Rattle.types.specs.Shape.{field_of, shape_of};
ghost use Rattle.types.specs.Kind.{item_kind, kind_of, list_width, offset_width, same_kind, text_width};

use crate::int_type::IntType;
use crate::offset_width::OffsetWidth;
use colbits::NoMemory;
use std::alloc::Global;

/// The logical type of a column.
///
/// Two types are the *same* if kinds, widths, signs and item types are; the names and nullability of
/// list items aren't compared.
#[cycle(types)]
#[derive(Debug)]
pub enum DataType {
    Int(IntType),
    Bool,
    /// Texts, with offsets of 32 bits.
    Utf8,
    /// Texts, with offsets of 64 bits.
    LargeUtf8,
    /// A list of items of the field's type, with offsets of 32 bits.
    List(Box<Field>),
    /// The same with offsets of 64 bits.
    LargeList(Box<Field>),
    /// Text kept once in a dictionary and named by 32-bit indices.
    Dict,
}

/// A column's name, type, and whether it may hold nulls.
#[cycle(types)]
#[derive(Debug, Drop)]
pub struct Field {
    pub name: String,
    pub nullable: bool,
    pub ty: DataType,
}

/// A type is taken apart list by list in a loop: one from a stranger may have more lists in one another than the
/// stack has room for.
impl Drop for DataType {
    fn drop(mut self) {
        loop {
            match self {
                DataType::List(item) | DataType::LargeList(item) => {
                    let Field {
                        name,
                        nullable: _,
                        ty,
                    } = Box::into_inner(item);
                    drop(name);
                    self = ty;
                }
                DataType::Int(_)
                | DataType::Bool
                | DataType::Utf8
                | DataType::LargeUtf8
                | DataType::Dict => return,
            }
        }
    }
}

impl Field {
    /// A field of the name and the type that may hold null.
    pub fn nullable(alloc: Global, name: &str, ty: DataType) -> Result<Field, NoMemory>
        ensures ty { IfOk result (λ f. f.ty ≡ ty) }
        ensures shape { IfOk result (λ f. field_of f ≡ shape.field name.now true (shape_of ty)) }
    {
        Ok(Field {
            name: String::from_str(alloc, name)?,
            nullable: true,
            ty,
        })
    }

    /// A copy of the field, its item's fields too.
    #[cycle(copy)]
    pub fn copy(&self, alloc: Global) -> Result<Field, NoMemory>
        ensures { IfOk result (λ f. field_of f ≡ field_of self.now) }
    {
        Ok(Field {
            name: self.name.clone()?,
            nullable: self.nullable,
            ty: self.ty.copy(alloc)?,
        })
    }
}

impl DataType {
    /// A copy of the type, the fields of its items too.
    #[cycle(copy)]
    pub fn copy(&self, alloc: Global) -> Result<DataType, NoMemory>
        ensures { IfOk result (λ t. shape_of t ≡ shape_of self.now) }
    {
        match self {
            DataType::Int(int) => Ok(DataType::Int(*int)),
            DataType::Bool => Ok(DataType::Bool),
            DataType::Utf8 => Ok(DataType::Utf8),
            DataType::LargeUtf8 => Ok(DataType::LargeUtf8),
            DataType::List(item) => {
                let item = item.copy(alloc)?;
                Ok(DataType::List(Box::new(alloc, item)?))
            }
            DataType::LargeList(item) => {
                let item = item.copy(alloc)?;
                Ok(DataType::LargeList(Box::new(alloc, item)?))
            }
            DataType::Dict => Ok(DataType::Dict),
        }
    }

    /// The type of texts whose offsets are of this width.
    pub fn of_texts(width: OffsetWidth) -> DataType
        ensures kind { kind_of result ≡ kind.texts width }
        ensures shape { shape_of result ≡ shape.texts width }
    {
        match width {
            OffsetWidth::Narrow => DataType::Utf8,
            OffsetWidth::Wide => DataType::LargeUtf8,
        }
    }

    /// The type of lists of the field's items whose offsets are of this width.
    pub fn of_lists(width: OffsetWidth, item: Box<Field>) -> DataType
        ensures kind { kind_of result ≡ kind.lists width (kind_of item.value.ty) }
        ensures shape { shape_of result ≡ shape.lists width (field_of item.value) }
    {
        match width {
            OffsetWidth::Narrow => DataType::List(item),
            OffsetWidth::Wide => DataType::LargeList(item),
        }
    }

    /// The width of the offsets of texts that have no dictionary, none of another type.
    pub fn text_width(&self) -> Option<OffsetWidth>
        ensures { result ≡ text_width (kind_of self.now) }
    {
        match self {
            DataType::Utf8 => Some(OffsetWidth::Narrow),
            DataType::LargeUtf8 => Some(OffsetWidth::Wide),
            DataType::Int(_)
            | DataType::Bool
            | DataType::List(_)
            | DataType::LargeList(_)
            | DataType::Dict => None,
        }
    }

    /// The width of a list's offsets and the field of its items, none of another type.
    pub fn as_list(&self) -> Option<(OffsetWidth, &Field)>
        ensures width { option_map (λ l. l.0) result ≡ list_width (kind_of self.now) }
        ensures item { option_map (λ l. kind_of l.1.now.ty) result ≡ item_kind (kind_of self.now) }
    {
        match self {
            DataType::List(item) => Some((OffsetWidth::Narrow, item)),
            DataType::LargeList(item) => Some((OffsetWidth::Wide, item)),
            DataType::Int(_)
            | DataType::Bool
            | DataType::Utf8
            | DataType::LargeUtf8
            | DataType::Dict => None,
        }
    }

    /// The width of the offsets of texts or lists, none of another type.
    pub fn offset_width(&self) -> Option<OffsetWidth>
        ensures { result ≡ offset_width (kind_of self.now) }
    {
        match self {
            DataType::Utf8 | DataType::List(_) => Some(OffsetWidth::Narrow),
            DataType::LargeUtf8 | DataType::LargeList(_) => Some(OffsetWidth::Wide),
            DataType::Int(_) | DataType::Bool | DataType::Dict => None,
        }
    }
}

/// Whether two types are the same. It ends where the shallower one does.
pub fn is_same(ty: &DataType, other: &DataType) -> bool
    ensures { result ≡ same_kind (kind_of ty.now) (kind_of other.now) }
{
    match ty {
        DataType::Int(int) => match other {
            DataType::Int(other) => int == other,
            DataType::Bool
            | DataType::Utf8
            | DataType::LargeUtf8
            | DataType::List(_)
            | DataType::LargeList(_)
            | DataType::Dict => false,
        },
        DataType::Bool => matches!(other, DataType::Bool),
        DataType::Utf8 => matches!(other, DataType::Utf8),
        DataType::LargeUtf8 => matches!(other, DataType::LargeUtf8),
        DataType::List(item) => match other {
            DataType::List(other) => is_same(&item.ty, &other.ty),
            DataType::Int(_)
            | DataType::Bool
            | DataType::Utf8
            | DataType::LargeUtf8
            | DataType::LargeList(_)
            | DataType::Dict => false,
        },
        DataType::LargeList(item) => match other {
            DataType::LargeList(other) => is_same(&item.ty, &other.ty),
            DataType::Int(_)
            | DataType::Bool
            | DataType::Utf8
            | DataType::LargeUtf8
            | DataType::List(_)
            | DataType::Dict => false,
        },
        DataType::Dict => matches!(other, DataType::Dict),
    }
}
