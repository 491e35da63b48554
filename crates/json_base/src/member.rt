ghost use Rattle.std.specs.Prelude.{◌≡◌, ◌<◌, ◌^◌, Some, IfOk, IfErr, OnOk, ◌∷◌, ◌++◌, [], option_and_then, string_bytes};
ghost use Rattle.serde_json.specs.Find.{as_array, as_bool, as_number, as_object, as_str};
ghost use Rattle.serde_json.specs.View.{view, items_view, number_view};
ghost use Rattle.json_base.specs.FaultAt.{Tells, IsFault, no_memory};
ghost use Rattle.json_base.specs.declared.path.Step.TheVariants as step;
ghost use Rattle.json_base.specs.declared.fault.JsonFaultKind.TheVariants.{WrongMember};
ghost use Rattle.json_base.specs.JsonMember.{member_of, IsObject, Unlike, MemberFault, Missing};
ghost use Rattle.json_base.specs.JsonNumber.{count_of};

use crate::fault::{JsonFault, JsonFaultKind};
use crate::number::count;
use crate::path::{Member, Step};
use serde_json::{Number, Value};
use std::alloc::Global;

/// That the value is an object.
#[tactic(auto, using(crate::proofs::JsonTells::reported))]
pub fn check_object(alloc: Global, value: &Value) -> Result<(), JsonFault>
    ensures ok { OnOk result (IsObject (view value.now)) }
    ensures err { IfErr result (Tells (Unlike as_object (view value.now))) }
{
    match value.as_object() {
        Some(_) => Ok(()),
        None => Err(JsonFault::at(alloc, JsonFaultKind::WrongMember, &[])),
    }
}

/// The member of an object.
#[tactic(auto, using(crate::proofs::JsonTells::reported))]
pub fn required<'v>(
    alloc: Global,
    object: &'v Value,
    member: Member,
) -> Result<&'v Value, JsonFault>
    requires { IsObject (view object.now) }
    ensures ok { IfOk result (λ found. member_of member (view object.now) ≡ Some (view found.now)) }
    ensures err { IfErr result (Tells (Missing member (view object.now))) }
{
    match object.get(member.name()) {
        Some(found) => Ok(found),
        None => Err(JsonFault::at(alloc, JsonFaultKind::MissingMember, &[Step::Member(member)])),
    }
}

/// The fault of a member that is another thing than it is to be.
#[tactic(auto, using(crate::proofs::JsonTells::reported))]
#[cold]
pub fn unlike(alloc: Global, member: Member) -> JsonFault
    ensures { IsFault WrongMember (step.Member member ∷ []) result }
{
    JsonFault::at(alloc, JsonFaultKind::WrongMember, &[Step::Member(member)])
}

/// The member of an object, a text.
#[tactic(auto, using(crate::proofs::JsonTells::reported))]
pub fn text_member<'v>(
    alloc: Global,
    object: &'v Value,
    member: Member,
) -> Result<&'v str, JsonFault>
    requires { IsObject (view object.now) }
    ensures ok { IfOk result (λ text.
        option_and_then as_str (member_of member (view object.now)) ≡ Some text.now) }
    ensures err { IfErr result (Tells (MemberFault member (Unlike as_str) (view object.now))) }
{
    match required(alloc, object, member)?.as_str() {
        Some(text) => Ok(text),
        None => Err(unlike(alloc, member)),
    }
}

/// The member of an object, true or false.
#[tactic(auto, using(crate::proofs::JsonTells::reported))]
pub fn truth_member(alloc: Global, object: &Value, member: Member) -> Result<bool, JsonFault>
    requires { IsObject (view object.now) }
    ensures ok { IfOk result (λ truth.
        option_and_then as_bool (member_of member (view object.now)) ≡ Some truth) }
    ensures err { IfErr result (Tells (MemberFault member (Unlike as_bool) (view object.now))) }
{
    match required(alloc, object, member)?.as_bool() {
        Some(truth) => Ok(truth),
        None => Err(unlike(alloc, member)),
    }
}

/// The member of an object, a number.
#[tactic(auto, using(crate::proofs::JsonTells::reported))]
pub fn number_member<'v>(
    alloc: Global,
    object: &'v Value,
    member: Member,
) -> Result<&'v Number, JsonFault>
    requires { IsObject (view object.now) }
    ensures ok { IfOk result (λ number.
        option_and_then as_number (member_of member (view object.now)) ≡ Some (number_view number.now)) }
    ensures err { IfErr result (Tells (MemberFault member (Unlike as_number) (view object.now))) }
{
    match required(alloc, object, member)?.as_number() {
        Some(number) => Ok(number),
        None => Err(unlike(alloc, member)),
    }
}

/// The member of an object, a count.
#[tactic(auto, using(crate::proofs::JsonTells::reported))]
pub fn count_member(alloc: Global, object: &Value, member: Member) -> Result<u32, JsonFault>
    requires { IsObject (view object.now) }
    ensures ok { IfOk result (λ n.
        option_and_then count_of (member_of member (view object.now)) ≡ Some n) }
    ensures small { IfOk result (λ n. n < 2 ^ 31) }
    ensures err { IfErr result (Tells (MemberFault member (Unlike count_of) (view object.now))) }
{
    match count(required(alloc, object, member)?) {
        Some(count) => Ok(count),
        None => Err(unlike(alloc, member)),
    }
}

/// The member of an object, an array.
#[tactic(auto, using(crate::proofs::JsonTells::reported))]
pub fn array_member<'v>(
    alloc: Global,
    object: &'v Value,
    member: Member,
) -> Result<&'v [Value], JsonFault>
    requires { IsObject (view object.now) }
    ensures ok { IfOk result (λ items.
        option_and_then as_array (member_of member (view object.now)) ≡ Some (items_view items.now)) }
    ensures err { IfErr result (Tells (MemberFault member (Unlike as_array) (view object.now))) }
{
    match required(alloc, object, member)?.as_array() {
        Some(items) => Ok(items.as_slice()),
        None => Err(unlike(alloc, member)),
    }
}

/// Adds an item at the end.
pub fn push<T: Drop>(alloc: Global, items: &mut Vec<T>, item: T) -> Result<(), JsonFault>
    ensures ok { OnOk result (items.new.items ≡ items.old.items ++ item ∷ []) }
    ensures err { IfErr result (λ fault. fault ≡ no_memory) }
{
    items.push(item).map_err(|_| JsonFault::no_memory(alloc))
}

/// A copy of a text.
pub fn owned(alloc: Global, text: &str) -> Result<String, JsonFault>
    ensures ok { IfOk result (λ copy. string_bytes copy ≡ text.now) }
    ensures err { IfErr result (λ fault. fault ≡ no_memory) }
{
    String::from_str(alloc, text).map_err(|_| JsonFault::no_memory(alloc))
}
