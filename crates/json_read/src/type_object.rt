//! The objects of types.

ghost use Rattle.std.specs.Prelude.{◌≡◌, IfOk, IfErr, OnOk, Some, codes};
ghost use Rattle.json_base.specs.Prelude.{IsObject, Tells, view};
ghost use Rattle.json_read.specs.BareField.{IsTypeRead};
ghost use Rattle.json_read.specs.JsonSchema.{type_name, ReadsInt};
ghost use Rattle.json_read.specs.JsonSchemaFault.{TypeFault, IndexFault};

use arrays::{DataType, IntType, OffsetWidth};
use json_base::member::{check_object, number_member, text_member, truth_member};
use json_base::number::width;
use json_base::{JsonFault, JsonFaultKind, Member, Value};
use std::alloc::Global;

/// The name that a type object has.
#[tactic(auto, using(crate::proofs::JsonFaults::type_faults))]
pub(crate) fn type_name(alloc: Global, object: &Value) -> Result<&str, JsonFault>
    ensures object { OnOk result (IsObject (view object.now)) }
    ensures ok { IfOk result (λ name. type_name (view object.now) ≡ Some name.now) }
    ensures err { IfErr result (Tells (TypeFault (view object.now))) }
{
    check_object(alloc, object)?;
    text_member(alloc, object, Member::Name)
}

/// What a type object names.
#[derive(Drop)]
pub(crate) enum NamedType {
    /// A type without children.
    Flat(DataType),
    /// Lists whose offsets are of this width: of what, their field's children tell.
    Lists(OffsetWidth),
}

/// The type that a type object names.
#[tactic(auto, using(crate::proofs::JsonFaults::type_faults))]
pub(crate) fn read_type(alloc: Global, object: &Value) -> Result<NamedType, JsonFault>
    ensures ok { IfOk result (IsTypeRead (view object.now)) }
    ensures err { IfErr result (Tells (TypeFault (view object.now))) }
{
    match type_name(alloc, object)? {
        "int" => Ok(NamedType::Flat(DataType::Int(read_int(alloc, object)?))),
        "bool" => Ok(NamedType::Flat(DataType::Bool)),
        "utf8" => Ok(NamedType::Flat(DataType::Utf8)),
        "largeutf8" => Ok(NamedType::Flat(DataType::LargeUtf8)),
        "list" => Ok(NamedType::Lists(OffsetWidth::Narrow)),
        "largelist" => Ok(NamedType::Lists(OffsetWidth::Wide)),
        _ => Err(JsonFault::at(alloc, JsonFaultKind::UnsupportedType, &[])),
    }
}

/// The integer type that a type object of the name describes.
#[tactic(auto, using(crate::proofs::JsonFaults::type_faults))]
pub(crate) fn read_int(alloc: Global, object: &Value) -> Result<IntType, JsonFault>
    requires object { IsObject (view object.now) }
    requires name { type_name (view object.now) ≡ Some (codes "int") }
    ensures ok { IfOk result (ReadsInt (view object.now)) }
    ensures err { IfErr result (Tells (TypeFault (view object.now))) }
{
    let Some(bits) = width(number_member(alloc, object, Member::BitWidth)?) else {
        return Err(JsonFault::at(alloc, JsonFaultKind::UnsupportedType, &[]));
    };
    let signed = truth_member(alloc, object, Member::IsSigned)?;
    Ok(IntType { bits, signed })
}

/// The integer type that the type object of a dictionary's indices describes.
#[tactic(auto, using(crate::proofs::JsonFaults::index_faults))]
pub(crate) fn read_index(alloc: Global, object: &Value) -> Result<IntType, JsonFault>
    ensures ok { IfOk result (ReadsInt (view object.now)) }
    ensures err { IfErr result (Tells (IndexFault (view object.now))) }
{
    match type_name(alloc, object)? {
        "int" => read_int(alloc, object),
        _ => Err(JsonFault::at(alloc, JsonFaultKind::UnsupportedType, &[])),
    }
}
