//! Texts of members.

ghost use Rattle.std.specs.Prelude.{◌≡◌, Ok, IfOk, IfErr, string_bytes};
ghost use Rattle.json_base.specs.Prelude.{IsObject, Tells, view};
ghost use Rattle.json_query.specs.Reading.{MayReport, text_in};

use json_base::member::{owned, text_member};
use json_base::{JsonFault, Member, Value};
use std::alloc::Global;

/// The text that a member of an object is.
#[tactic(auto, using(crate::proofs::Readings::reading))]
pub(crate) fn read_text(alloc: Global, object: &Value, member: Member) -> Result<String, JsonFault>
    requires { IsObject (view object.now) }
    ensures ok { IfOk result (λ text. text_in member (view object.now) ≡ Ok (string_bytes text)) }
    ensures err { IfErr result (Tells (MayReport (text_in member (view object.now)))) }
{
    owned(alloc, text_member(alloc, object, member)?)
}
