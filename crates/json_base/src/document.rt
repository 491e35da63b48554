ghost use Rattle.std.specs.Prelude.{◌≡◌, Some, IfOk, IfErr, OnOk, IsUtf8};
ghost use Rattle.serde_json.specs.Read.{read};
ghost use Rattle.serde_json.specs.View.{view};
ghost use Rattle.json_base.specs.FaultAt.{Tells};
ghost use Rattle.json_base.specs.JsonMember.{NoDocument};

use crate::fault::{JsonFault, JsonFaultKind};
use serde_json::Value;
use std::alloc::Global;

/// The document that the bytes spell. Of members of one name the last decides.
#[tactic(auto, using(crate::proofs::JsonTells::document_faults))]
pub fn parse(alloc: Global, bytes: &[u8]) -> Result<Value, JsonFault>
    ensures utf8 { OnOk result (IsUtf8 bytes.now) }
    ensures document { IfOk result (λ document. read bytes.now ≡ Some (view document)) }
    ensures err { IfErr result (Tells (NoDocument bytes.now)) }
{
    Value::from_slice(alloc, bytes).map_err(|error| if error.is_memory() {
        JsonFault::no_memory(alloc)
    } else {
        JsonFault::at(alloc, JsonFaultKind::NotJson, &[])
    })
}
