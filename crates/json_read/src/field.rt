//! One field by itself.

ghost use Rattle.std.specs.Prelude.{IfErr, IfOk};
ghost use Rattle.arrays.specs.Prelude.{field_of};
ghost use Rattle.json_read.specs.JsonField.{FieldTextFault, IsFieldText};
ghost use Rattle.json_base.specs.FaultAt.{Tells};

use crate::schema::read_top;
use arrays::Field;
use json_base::JsonFault;
use json_base::document::parse;
use std::alloc::Global;

/// Reads the text of one field, an object as a file's schema has it. The number of a dictionary is read, and not kept.
///
/// Where several faults stand, which of them is reported is open. Places are counted from the field on.
#[tactic(auto, using(crate::proofs::FieldTexts::field_text_faults))]
pub fn read_field(alloc: Global, bytes: &[u8]) -> Result<Field, JsonFault>
    ensures ok { IfOk result (λ f. IsFieldText bytes.now (field_of f)) }
    ensures err { IfErr result (Tells (FieldTextFault bytes.now)) }
{
    let document = parse(alloc, bytes)?;
    Ok(read_top(alloc, &document)?.field)
}
