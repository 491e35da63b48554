ghost use Rattle.std.specs.Prelude.{◌≡◌, ◌+◌, ◌<◌, ◌≤◌, true, IfOk, IfErr, OnOk, None, Some, map, option_map, option_and_then};
ghost use Rattle.std.specs.Arc.{arc_value};
ghost use Rattle.json_base.specs.Prelude.{EachFault, IsObject, ReadsEach, Tells, as_array, is_without, items_view, member_of, no_memory, view};
ghost use Rattle.arrays.specs.Prelude.{depth, field_of, fields_of, kind_of_field, schema_fault, shape_of};
ghost use Rattle.arrays.specs.Shape as shape;
ghost use Rattle.json_read.specs.BareField.{IsFieldType, IsBare};
ghost use Rattle.json_read.specs.JsonSchema.{HasType, NamesLists, only_item, only_child, IsFieldOf, is_childless};
ghost use Rattle.json_read.specs.JsonSchemaFault.{FieldFault};
ghost use Rattle.json_read.specs.EncodingParts.{AreEncoded, HasSomeEncoding, parts_of};
ghost use Rattle.json_read.specs.JsonEncoding.{HasEncoding};
ghost use Rattle.json_read.specs.JsonFields.{ReadsField, ReadsSchema};
ghost use Rattle.json_read.specs.JsonFieldsFault.{SchemaFault, TopFault};
ghost use Rattle.json_base.specs.declared.path.Member.TheVariants as member;

use crate::encoding::{Encoding, read_encoded};
use crate::type_object::{NamedType, read_type, type_name};
use arrays::{DataType, Field, OffsetWidth, Schema};
use json_base::member::{
    array_member, check_object, push, required, text_member, truth_member, unlike,
};
use json_base::{JsonFault, JsonFaultKind, Member, Step, Value};
use std::alloc::Global;
use std::sync::Arc;

/// How many lists may stand in one another.
const MOST_LISTS: u32 = 8;

/// That a field within lists has no dictionary: it is absent or null.
#[tactic(auto, using(crate::proofs::JsonFaults::field_faults))]
fn check_plain(alloc: Global, within: u32, field: &Value) -> Result<(), JsonFault>
    requires { within ≡ 0 → is_without (member_of member.Dictionary (view field.now)) ≡ true }
    ensures ok { OnOk result (is_without (member_of member.Dictionary (view field.now)) ≡ true) }
    ensures err { IfErr result (Tells (FieldFault within (view field.now))) }
{
    let Some(found) = field.get(Member::Dictionary.name()) else {
        return Ok(());
    };
    if found.is_null() {
        return Ok(());
    }
    let object = check_object(alloc, found);
    object.map_err(|fault| fault.under(alloc, Step::Member(Member::Dictionary)))?;
    Err(JsonFault::at(alloc, JsonFaultKind::UnsupportedType, &[]))
}

/// Whether the field has no children: they are absent, null or empty.
#[tactic(auto, using(json_base::proofs::JsonTells::lengths))]
fn is_childless(field: &Value) -> bool
    ensures { result ≡ is_childless (member_of member.Children (view field.now)) }
{
    match field.get(Member::Children.name()) {
        Some(found) => match found.as_array() {
            Some(children) => children.is_empty(),
            None => found.is_null(),
        },
        None => true,
    }
}

/// The type of a field. Only lists have children.
#[tactic(auto, using(crate::proofs::JsonFaults::field_faults))]
fn field_type(alloc: Global, within: u32, field: &Value) -> Result<NamedType, JsonFault>
    requires { IsObject (view field.now) }
    ensures ok { IfOk result (IsFieldType (view field.now)) }
    ensures err { IfErr result (Tells (FieldFault within (view field.now))) }
{
    let object = required(alloc, field, Member::DataType)?;
    let read = match read_type(alloc, object) {
        Ok(read) => read,
        Err(fault) => return Err(fault.under(alloc, Step::Member(Member::DataType))),
    };
    match read {
        NamedType::Lists(width) => Ok(NamedType::Lists(width)),
        NamedType::Flat(ty) => {
            if is_childless(field) {
                Ok(NamedType::Flat(ty))
            } else {
                Err(unlike(alloc, Member::Children))
            }
        }
    }
}

/// The item of an array of exactly one.
#[tactic(auto, using(crate::proofs::JsonFaults::only_items))]
pub(crate) fn only_item(value: &Value) -> Option<&Value>
    ensures { option_map (λ v. view v.now) result ≡ only_item (view value.now) }
{
    let items = value.as_array()?;
    if items.len() == 1 {
        Some(&items[0])
    } else {
        None
    }
}

/// The one child of a list's field.
#[tactic(auto, using(crate::proofs::JsonFaults::field_faults))]
fn list_child<'v>(alloc: Global, within: u32, field: &'v Value) -> Result<&'v Value, JsonFault>
    requires object { IsObject (view field.now) }
    requires few { within ≤ 8 }
    requires lists { NamesLists (view field.now) }
    ensures few { OnOk result (within < 8) }
    ensures child { IfOk result (λ child. only_child (view field.now) ≡ Some (view child.now)) }
    ensures err { IfErr result (Tells (FieldFault within (view field.now))) }
{
    if within == MOST_LISTS {
        return Err(JsonFault::at(alloc, JsonFaultKind::UnsupportedType, &[]));
    }
    match only_item(required(alloc, field, Member::Children)?) {
        Some(child) => Ok(child),
        None => Err(unlike(alloc, Member::Children)),
    }
}

/// A field without its children.
#[derive(Drop)]
struct Bare {
    name: String,
    nullable: bool,
    ty: NamedType,
}

/// What a field's object says within so many lists, its children apart.
#[tactic(auto, using(crate::proofs::JsonFaults::field_faults))]
fn read_bare(alloc: Global, within: u32, field: &Value) -> Result<Bare, JsonFault>
    requires { within ≡ 0 → is_without (member_of member.Dictionary (view field.now)) ≡ true }
    ensures object { OnOk result (IsObject (view field.now)) }
    ensures ok { IfOk result (IsBare (view field.now)) }
    ensures err { IfErr result (Tells (FieldFault within (view field.now))) }
{
    check_object(alloc, field)?;
    let name = text_member(alloc, field, Member::Name)?;
    let nullable = truth_member(alloc, field, Member::Nullable)?;
    let ty = field_type(alloc, within, field)?;
    check_plain(alloc, within, field)?;
    let name = String::from_str(alloc, name).map_err(|_| JsonFault::no_memory(alloc))?;
    Ok(Bare { name, nullable, ty })
}

/// The type of lists of the item's field whose offsets are of this width.
fn lists_of(alloc: Global, width: OffsetWidth, item: Field) -> Result<DataType, JsonFault>
    ensures ok { IfOk result (λ t. shape_of t ≡ shape.lists width (field_of item)) }
    ensures err { IfErr result (λ f. f ≡ no_memory) }
{
    match Box::new(alloc, item) {
        Ok(item) => Ok(DataType::of_lists(width, item)),
        Err(_) => Err(JsonFault::no_memory(alloc)),
    }
}

/// The field of a schema that isn't encoded, or of a list's items, within so many lists.
#[tactic(auto, using(crate::proofs::JsonFaults::field_faults))]
fn read_within(alloc: Global, within: u32, field: &Value) -> Result<Field, JsonFault>
    requires few { within ≤ 8 }
    requires plain { within ≡ 0 → is_without (member_of member.Dictionary (view field.now)) ≡ true }
    ensures object { IfOk result (λ f. IsFieldOf (view field.now) (field_of f)) }
    ensures shallow { IfOk result (λ f. within + depth (kind_of_field (field_of f)) ≤ 8) }
    ensures err { IfErr result (Tells (FieldFault within (view field.now))) }
{
    let Bare { name, nullable, ty } = read_bare(alloc, within, field)?;
    let width = match ty {
        NamedType::Flat(ty) => return Ok(Field { name, nullable, ty }),
        NamedType::Lists(width) => width,
    };
    let child = list_child(alloc, within, field)?;
    match read_within(alloc, within + 1, child) {
        Ok(item) => Ok(Field {
            name,
            nullable,
            ty: lists_of(alloc, width, item)?,
        }),
        Err(fault) => {
            let item = fault.under(alloc, Step::Item(0));
            Err(item.under(alloc, Step::Member(Member::Children)))
        }
    }
}

/// That the values of a field's dictionary are texts: the field's type is theirs.
#[tactic(auto, using(crate::proofs::JsonFields::top_faults))]
fn check_values(alloc: Global, field: &Value) -> Result<(), JsonFault>
    requires object { IsObject (view field.now) }
    requires encoded { HasSomeEncoding (view field.now) }
    ensures ok { OnOk result (HasType (view field.now) shape.utf8) }
    ensures err { IfErr result (Tells (TopFault (view field.now))) }
{
    let object = required(alloc, field, Member::DataType)?;
    let name = match type_name(alloc, object) {
        Ok(name) => name,
        Err(fault) => return Err(fault.under(alloc, Step::Member(Member::DataType))),
    };
    match name {
        "utf8" => Ok(()),
        _ => {
            let place = [Step::Member(Member::DataType)];
            Err(JsonFault::at(alloc, JsonFaultKind::UnsupportedType, &place))
        }
    }
}

/// The field of a schema whose column is encoded.
#[tactic(auto, using(crate::proofs::JsonFields::top_faults))]
fn read_encoded_field(alloc: Global, field: &Value) -> Result<Field, JsonFault>
    requires { HasSomeEncoding (view field.now) }
    ensures ok { IfOk result (λ f. ReadsField (view field.now) (field_of f)) }
    ensures err { IfErr result (Tells (TopFault (view field.now))) }
{
    check_object(alloc, field)?;
    let name = text_member(alloc, field, Member::Name)?;
    let nullable = truth_member(alloc, field, Member::Nullable)?;
    check_values(alloc, field)?;
    if !is_childless(field) {
        return Err(unlike(alloc, Member::Children));
    }
    match String::from_str(alloc, name) {
        Ok(name) => Ok(Field {
            name,
            nullable,
            ty: DataType::Dict,
        }),
        Err(_) => Err(JsonFault::no_memory(alloc)),
    }
}

/// A field of a schema, and how its column is encoded.
#[derive(Drop)]
pub(crate) struct TopField {
    pub(crate) field: Field,
    encoding: Option<Encoding>,
}

/// The field of a schema.
#[tactic(auto, using(crate::proofs::JsonFields::top_faults))]
pub(crate) fn read_top(alloc: Global, field: &Value) -> Result<TopField, JsonFault>
    ensures ok { IfOk result (λ t. ReadsField (view field.now) (field_of t.field)) }
    ensures encoding { IfOk result (λ t. HasEncoding (view field.now) (option_map parts_of t.encoding)) }
    ensures err { IfErr result (Tells (TopFault (view field.now))) }
{
    match read_encoded(alloc, field)? {
        None => {
            let plain = read_within(alloc, 0, field)?;
            Ok(TopField {
                field: plain,
                encoding: None,
            })
        }
        Some(encoding) => {
            let encoded = read_encoded_field(alloc, field)?;
            Ok(TopField {
                field: encoded,
                encoding: Some(encoding),
            })
        }
    }
}

/// The fields of a schema, and how the column of each is encoded.
#[derive(Drop)]
struct TopFields {
    fields: Vec<Field>,
    encodings: Vec<Option<Encoding>>,
}

/// The fields of a schema.
#[tactic(auto, using(crate::proofs::JsonFields::schema_faults))]
fn read_fields(alloc: Global, values: &[Value]) -> Result<TopFields, JsonFault>
    ensures ok { IfOk result (λ t.
        ReadsEach ReadsField (items_view values.now) (fields_of t.fields.items)) }
    ensures encodings { IfOk result (λ t.
        ReadsEach HasEncoding (items_view values.now) (map (option_map parts_of) t.encodings.items)) }
    ensures err { IfErr result (Tells (EachFault TopFault (items_view values.now))) }
{
    let mut fields = Vec::new(alloc);
    let mut encodings = Vec::new(alloc);
    for (index, value) in values.iter().enumerate() {
        let read = read_top(alloc, value);
        let top = read.map_err(|fault| fault.under(alloc, Step::Item(index)))?;
        push(alloc, &mut fields, top.field)?;
        push(alloc, &mut encodings, top.encoding)?;
    }
    Ok(TopFields { fields, encodings })
}

/// The objects of a schema's fields.
#[tactic(auto, using(crate::proofs::JsonFields::schema_faults))]
fn field_values(alloc: Global, schema: &Value) -> Result<&[Value], JsonFault>
    ensures ok { IfOk result (λ values.
        option_and_then as_array (member_of member.Fields (view schema.now)) ≡ Some (items_view values.now)) }
    ensures err { IfErr result (Tells (SchemaFault (view schema.now))) }
{
    check_object(alloc, schema)?;
    array_member(alloc, schema, Member::Fields)
}

/// The lawful schema of the fields, to be shared.
fn share_schema(alloc: Global, fields: Vec<Field>) -> Result<Arc<Schema>, JsonFault>
    requires { schema_fault (fields_of fields.items) ≡ None }
    ensures ok { IfOk result (λ s. arc_value s ≡ fields_of fields.items) }
    ensures err { IfErr result (λ fault. fault ≡ no_memory) }
{
    match Schema::new(fields) {
        Ok(schema) => Arc::new(alloc, schema).map_err(|_| JsonFault::no_memory(alloc)),
        Err(_) => unreachable!(),
    }
}

/// The schema of a file, to be shared by its batches, and how the column of each field is encoded.
#[derive(Drop)]
pub struct EncodedSchema {
    pub schema: Arc<Schema>,
    /// One for each field, none where its column isn't encoded.
    pub encodings: Vec<Option<Encoding>>,
}

/// Reads the schema of a file, and how the column of each field is encoded. Which dictionaries there are it doesn't look at.
#[tactic(auto, using(crate::proofs::JsonFields::schema_faults))]
pub fn read_schema(alloc: Global, schema: &Value) -> Result<EncodedSchema, JsonFault>
    ensures ok { IfOk result (λ s. ReadsSchema (view schema.now) (arc_value s.schema)) }
    ensures encodings { IfOk result (λ s. AreEncoded (view schema.now) (map (option_map parts_of) s.encodings.items)) }
    ensures err { IfErr result (Tells (SchemaFault (view schema.now))) }
{
    let values = field_values(alloc, schema)?;
    let read = read_fields(alloc, values);
    let top = read.map_err(|fault| fault.under(alloc, Step::Member(Member::Fields)))?;
    let shared = share_schema(alloc, top.fields)?;
    Ok(EncodedSchema {
        schema: shared,
        encodings: top.encodings,
    })
}
