//! How deep a type goes, and where a dictionary stands in it.

ghost use Rattle.std.specs.Prelude.{◌≡◌, ◌≤◌, nat_lt, option_map};
ghost use Rattle.types.specs.Kind.{kind_of, depth, item_kind, ends_in_dict, has_dict_in_list};

use crate::data_type::DataType;

/// The item's type of a list, else none.
fn item_type(ty: &DataType) -> Option<&DataType>
    ensures { option_map (λ t. kind_of t.now) result ≡ item_kind (kind_of ty.now) }
{
    let (_width, item) = ty.as_list()?;
    Some(&item.ty)
}

/// Whether more than 8 lists stand in one another. It goes down 9 levels at most.
pub fn is_too_deep(ty: &DataType) -> bool
    ensures { result ≡ nat_lt 8 (depth (kind_of ty.now)) }
{
    let mut inner = ty;
    for _level in 0..9u8 {
        match item_type(inner) {
            Some(item) => inner = item,
            None => return false,
        }
    }
    true
}

/// Whether the type is a dictionary or a list of such. It goes down as many levels as the type has.
fn ends_in_dict(ty: &DataType) -> bool
    requires { depth (kind_of ty.now) ≤ 8 }
    ensures { result ≡ ends_in_dict (kind_of ty.now) }
{
    match ty {
        DataType::List(item) | DataType::LargeList(item) => ends_in_dict(&item.ty),
        DataType::Dict => true,
        _ => false,
    }
}

/// Whether a dictionary stands inside a list.
pub fn has_dict_in_list(ty: &DataType) -> bool
    requires { depth (kind_of ty.now) ≤ 8 }
    ensures { result ≡ has_dict_in_list (kind_of ty.now) }
{
    match ty {
        DataType::List(item) | DataType::LargeList(item) => ends_in_dict(&item.ty),
        _ => false,
    }
}
