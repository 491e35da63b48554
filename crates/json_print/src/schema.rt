//! The schema of a file as text.

ghost use Rattle.std.specs.Prelude.{OnOk, string_bytes};
ghost use Rattle.arrays.specs.Prelude.{field_of, fields_of, out-Field, shape_of};
ghost use Rattle.json_print.specs.Written.{Adds, AddsItems, AddsMembers};
ghost use Rattle.json_print.specs.SchemaData.{children_data, dictionary_data, field_data, fields_data, int_type, named_members, named_type, other_members, schema_data, type_data};

use crate::output::Output;
use arrays::{DataType, Field, INT32, IntType, NoMemory, Schema};

/// Writes an integer type.
fn write_int_type(out: &mut Output, ty: IntType) -> Result<(), NoMemory>
    ensures { OnOk result (Adds (int_type ty) out.old out.new) }
{
    out.begin_object()?;
    out.key("bitWidth")?;
    out.number(8 * ty.bits.bytes() as u64)?;
    out.key("isSigned")?;
    out.boolean(ty.signed)?;
    out.key("name")?;
    out.string("int")?;
    out.end_object()
}

/// Writes a type that has nothing but a name.
fn write_named_type(out: &mut Output, name: &str) -> Result<(), NoMemory>
    ensures { OnOk result (Adds (named_type name.now) out.old out.new) }
{
    out.begin_object()?;
    out.key("name")?;
    out.string(name)?;
    out.end_object()
}

/// Writes a type object.
fn write_type(out: &mut Output, ty: &DataType) -> Result<(), NoMemory>
    ensures { OnOk result (Adds (type_data (shape_of ty.now)) out.old out.new) }
{
    match ty {
        DataType::Int(int) => write_int_type(out, *int),
        DataType::Bool => write_named_type(out, "bool"),
        DataType::Utf8 | DataType::Dict => write_named_type(out, "utf8"),
        DataType::LargeUtf8 => write_named_type(out, "largeutf8"),
        DataType::List(_) => write_named_type(out, "list"),
        DataType::LargeList(_) => write_named_type(out, "largelist"),
    }
}

/// Writes how a field names its dictionary.
fn write_dictionary(out: &mut Output, id: usize) -> Result<(), NoMemory>
    ensures { OnOk result (Adds (dictionary_data id) out.old out.new) }
{
    out.begin_object()?;
    out.key("id")?;
    out.number(id as u64)?;
    out.key("indexType")?;
    write_int_type(out, INT32)?;
    out.key("isOrdered")?;
    out.boolean(false)?;
    out.end_object()
}

/// Writes the members with which each field ends.
fn write_named_members(out: &mut Output, field: &Field) -> Result<(), NoMemory>
    ensures { OnOk result (AddsMembers (named_members (string_bytes (out-Field field.now).name)
        (out-Field field.now).nullable (shape_of (out-Field field.now).ty)) out.old out.new) }
{
    out.key("name")?;
    out.string(&field.name)?;
    out.key("nullable")?;
    out.boolean(field.nullable)?;
    out.key("type")?;
    write_type(out, &field.ty)?;
    out.end_object()
}

/// Writes the members that follow a field's children.
fn write_other_members(out: &mut Output, id: usize, field: &Field) -> Result<(), NoMemory>
    ensures { OnOk result (AddsMembers (other_members id (string_bytes (out-Field field.now).name)
        (out-Field field.now).nullable (shape_of (out-Field field.now).ty)) out.old out.new) }
{
    match &field.ty {
        DataType::Dict => {
            out.key("dictionary")?;
            write_dictionary(out, id)?;
            write_named_members(out, field)
        }
        _ => write_named_members(out, field),
    }
}

/// Writes a field object.
#[cycle(fields)]
fn write_field(out: &mut Output, id: usize, field: &Field) -> Result<(), NoMemory>
    ensures { OnOk result (Adds (field_data id (field_of field.now)) out.old out.new) }
{
    out.begin_object()?;
    out.key("children")?;
    out.begin_array()?;
    write_children(out, id, &field.ty)?;
    write_other_members(out, id, field)
}

/// Writes the child of a list, and the end of the children.
#[cycle(fields)]
fn write_children(out: &mut Output, id: usize, ty: &DataType) -> Result<(), NoMemory>
    ensures { OnOk result (AddsItems (children_data id (shape_of ty.now)) out.old out.new) }
{
    match ty {
        DataType::List(item) | DataType::LargeList(item) => {
            write_field(out, id, item)?;
            out.end_array()
        }
        _ => out.end_array(),
    }
}

/// Writes field objects, and the end of the fields.
fn write_fields(out: &mut Output, fields: &[Field]) -> Result<(), NoMemory>
    ensures { OnOk result (AddsItems (fields_data 0 (fields_of fields.now)) out.old out.new) }
{
    for (place, field) in fields.iter().enumerate() {
        write_field(out, place, field)?;
    }
    out.end_array()
}

/// Writes a schema.
pub(crate) fn write_schema(out: &mut Output, schema: &Schema) -> Result<(), NoMemory>
    ensures { OnOk result (Adds (schema_data schema.now) out.old out.new) }
{
    out.begin_object()?;
    out.key("fields")?;
    out.begin_array()?;
    write_fields(out, schema.fields())?;
    out.end_object()
}
