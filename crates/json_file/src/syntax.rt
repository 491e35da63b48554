//! Whether bytes are JSON at all, seen without a tree.

ghost use Rattle.std.specs.Prelude.{◌≡◌, false, None, IfOk, IfErr};
ghost use Rattle.json_read.specs.Prelude.{NoDocument, Tells, read};

use crate::document::MAX_DEPTH;
use arrays::NoMemory;
use json_read::{JsonFault, JsonFaultKind};
use json_scan::{Reader, Scratch};
use std::alloc::Global;

/// Whether the text is JSON. A number that is too large isn't looked at.
#[tactic(auto, using(crate::proofs::SyntaxLemmas::no_documents))]
fn is_json(alloc: Global, text: &str) -> Result<bool, NoMemory>
    ensures { IfOk result (λ is. is ≡ false → read text.now ≡ None) }
{
    let mut scratch = Scratch::new(alloc);
    let Ok(mut reader) = Reader::new(text, &mut scratch) else {
        return Err(NoMemory);
    };
    if reader.skip_value(MAX_DEPTH).is_err() {
        return Ok(false);
    }
    Ok(reader.next().is_none())
}

/// Refuses bytes that are no JSON.
#[tactic(auto, using(crate::proofs::SyntaxLemmas::document_faults))]
pub(crate) fn check_json(alloc: Global, bytes: &[u8]) -> Result<(), JsonFault>
    ensures { IfErr result (Tells (NoDocument bytes.now)) }
{
    let Ok(text) = simdutf8::basic::from_utf8(bytes) else {
        return Err(JsonFault::at(alloc, JsonFaultKind::NotJson, &[]));
    };
    match is_json(alloc, text) {
        Ok(is) => if is {
            Ok(())
        } else {
            Err(JsonFault::at(alloc, JsonFaultKind::NotJson, &[]))
        },
        Err(NoMemory) => Err(JsonFault::no_memory(alloc)),
    }
}
