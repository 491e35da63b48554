//! How the column of a field is encoded, if it is by a dictionary.

ghost use Rattle.std.specs.Prelude.{◌≡◌, true, Some, IfOk, IfErr, IfNone, IfSome, option_and_then, option_map};
ghost use Rattle.json_base.specs.Prelude.{IsObject, MemberFault, Tells, Unlike, is_without, member_of, view};
ghost use Rattle.json_read.specs.EncodingParts.{parts_of};
ghost use Rattle.json_read.specs.JsonEncoding.{HasEncoding, IsEncoding, id_of};
ghost use Rattle.json_read.specs.JsonEncodingFault.{EncodedFault, EncodingFault};
ghost use Rattle.json_base.specs.declared.path.Member.TheVariants as member;

use crate::type_object::read_index;
use arrays::{IntType, Width};
use json_base::member::{check_object, required, unlike};
use json_base::number::integer;
use json_base::{JsonFault, Member, Step, Value};
use std::alloc::Global;

/// The type of the numbers of dictionaries.
const ID: IntType = IntType {
    bits: Width::W64,
    signed: true,
};

/// That a column is indices into a dictionary.
#[derive(Clone, Copy)]
pub struct Encoding {
    /// The number of the dictionary, of 64 signed bits.
    pub id: i128,
    /// The type of the indices.
    pub index: IntType,
}

/// The number that an object has as its `id`.
#[tactic(auto, using(json_base::proofs::JsonTells::reported))]
pub(crate) fn id_member(alloc: Global, object: &Value) -> Result<i128, JsonFault>
    requires { IsObject (view object.now) }
    ensures ok { IfOk result (λ id. option_and_then id_of (member_of member.Id (view object.now)) ≡ Some id) }
    ensures err { IfErr result (Tells (MemberFault member.Id (Unlike id_of) (view object.now))) }
{
    match integer(ID, required(alloc, object, Member::Id)?) {
        Some(id) => Ok(id),
        None => Err(unlike(alloc, Member::Id)),
    }
}

/// The encoding that a dictionary object describes.
#[tactic(auto, using(crate::proofs::JsonEncodings::encoding_faults))]
fn read_encoding(alloc: Global, dictionary: &Value) -> Result<Encoding, JsonFault>
    requires { IsObject (view dictionary.now) }
    ensures ok { IfOk result (λ e. IsEncoding (view dictionary.now) (parts_of e)) }
    ensures err { IfErr result (Tells (EncodingFault (view dictionary.now))) }
{
    let id = id_member(alloc, dictionary)?;
    let object = required(alloc, dictionary, Member::IndexType)?;
    match read_index(alloc, object) {
        Ok(index) => Ok(Encoding { id, index }),
        Err(fault) => Err(fault.under(alloc, Step::Member(Member::IndexType))),
    }
}

/// The dictionary object of a field, none where the member is absent or null.
#[tactic(auto, using(crate::proofs::JsonEncodings::encoded_faults))]
fn dictionary_of(alloc: Global, field: &Value) -> Result<Option<&Value>, JsonFault>
    ensures none { IfOk result (λ found. IfNone found (is_without (member_of member.Dictionary (view field.now)) ≡ true)) }
    ensures at { IfOk result (λ found. IfSome found (λ d. member_of member.Dictionary (view field.now) ≡ Some (view d.now))) }
    ensures object { IfOk result (λ found. IfSome found (λ d. IsObject (view d.now))) }
    ensures err { IfErr result (Tells (EncodedFault (view field.now))) }
{
    let Some(found) = field.get(Member::Dictionary.name()) else {
        return Ok(None);
    };
    if found.is_null() {
        return Ok(None);
    }
    match check_object(alloc, found) {
        Ok(()) => Ok(Some(found)),
        Err(fault) => Err(fault.under(alloc, Step::Member(Member::Dictionary))),
    }
}

/// How the column of a field is encoded, none where it isn't.
#[tactic(auto, using(crate::proofs::JsonEncodings::encoded_faults))]
pub(crate) fn read_encoded(alloc: Global, field: &Value) -> Result<Option<Encoding>, JsonFault>
    ensures ok { IfOk result (λ e. HasEncoding (view field.now) (option_map parts_of e)) }
    ensures err { IfErr result (Tells (EncodedFault (view field.now))) }
{
    let Some(dictionary) = dictionary_of(alloc, field)? else {
        return Ok(None);
    };
    match read_encoding(alloc, dictionary) {
        Ok(encoding) => Ok(Some(encoding)),
        Err(fault) => Err(fault.under(alloc, Step::Member(Member::Dictionary))),
    }
}
