//! Files, without a tree where that can be.

ghost use Rattle.std.specs.Prelude.{IfOk, IfErr};
ghost use Rattle.json_read.specs.Prelude.{AreUnder, BytesFault, Reads, Tells, file_of};

use crate::document::read_text;
use crate::syntax::check_json;
use arrays::File;
use json_read::JsonFault;
use json_scan::Miss;
use std::alloc::Global;

/// The file of the bytes.
fn read_bytes(alloc: Global, bytes: &[u8]) -> Result<File, Miss>
    ensures ok { IfOk result (λ f. Reads bytes.now (file_of f)) }
    ensures under { IfOk result (λ f. AreUnder f.fields f.batches) }
{
    match simdutf8::basic::from_utf8(bytes) {
        Ok(text) => read_text(alloc, text),
        Err(_) => Err(Miss::Unread),
    }
}

/// Reads a file: its schema, and its batches under it. Beside the bytes and the arrays it needs the memory of the schema's tree; JSON that is
/// at fault is read as a tree, which takes several times its size.
///
/// Where several faults stand, which of them is reported is open. A count that is stated takes no memory:
/// it is compared with the arrays that are there.
#[tactic(auto, using(json_read::proofs::JsonFiles::bytes_faults))]
pub fn read_file(alloc: Global, bytes: &[u8]) -> Result<File, JsonFault>
    // What is read is what the bytes say.
    ensures ok { IfOk result (λ f. Reads bytes.now (file_of f)) }
    // Each batch is under the schema.
    ensures under { IfOk result (λ f. AreUnder f.fields f.batches) }
    // A fault that is reported stands, want of memory apart.
    ensures err { IfErr result (Tells (BytesFault bytes.now)) }
{
    match read_bytes(alloc, bytes) {
        Ok(file) => Ok(file),
        Err(Miss::NoMemory) => Err(JsonFault::no_memory(alloc)),
        Err(Miss::Unread) => {
            check_json(alloc, bytes)?;
            json_read::read_file(alloc, bytes)
        }
    }
}

/// Reads a file as `read_file` does, from bytes that nobody needs any more.
#[tactic(auto, using(json_read::proofs::JsonFiles::bytes_faults))]
pub fn read_file_from_vec(alloc: Global, bytes: Vec<u8>) -> Result<File, JsonFault>
    ensures ok { IfOk result (λ f. Reads bytes.items (file_of f)) }
    ensures under { IfOk result (λ f. AreUnder f.fields f.batches) }
    ensures err { IfErr result (Tells (BytesFault bytes.items)) }
{
    match read_bytes(alloc, &bytes) {
        Ok(file) => Ok(file),
        Err(Miss::NoMemory) => Err(JsonFault::no_memory(alloc)),
        Err(Miss::Unread) => {
            check_json(alloc, &bytes)?;
            json_read::read_file_from_vec(alloc, bytes)
        }
    }
}
