ghost use Rattle.std.specs.Prelude.{◌≡◌, Some, IfOk, IfErr, OnOk, IsUtf8, map, option_map};
ghost use Rattle.std.specs.Arc.{arc_value};
ghost use Rattle.json_base.specs.Prelude.{EachFault, IsObject, NoDocument, ReadsEach, Tells, items_view, read, table_of, view};
ghost use Rattle.json_read.specs.CatalogParts.{HasEncodings, coding_of};
ghost use Rattle.json_read.specs.EncodingParts.{parts_of};
ghost use Rattle.json_read.specs.JsonCatalog.{HasCatalog};
ghost use Rattle.json_read.specs.JsonBatch.{IsCatalogOf, ReadsBatch};
ghost use Rattle.json_read.specs.JsonBatchFault.{BatchFault};
ghost use Rattle.json_read.specs.JsonFile.{AreUnder, BytesFault, FileFault, HasSchema, Reads, ReadsFile, file_of};

use crate::batch::read_batch;
use crate::catalog::{Coding, read_catalog};
use crate::schema::{EncodedSchema, read_schema};
use arrays::{File, RecordBatch, Schema};
use json_base::document::parse;
use json_base::member::{array_member, check_object, push, required};
use json_base::{JsonFault, Member, Step, Value};
use std::alloc::Global;
use std::sync::Arc;

/// The batch that a batch object holds, to be shared.
#[tactic(auto, using(crate::proofs::JsonFiles::batches_faults))]
fn read_shared(
    alloc: Global,
    schema: &Arc<Schema>,
    catalog: &[Option<Coding>],
    batch: &Value,
) -> Result<Arc<RecordBatch>, JsonFault>
    requires { IsCatalogOf (arc_value schema.now) (map (option_map coding_of) catalog.now) }
    ensures fields { IfOk result (λ b. (arc_value b).fields ≡ (arc_value schema.now)) }
    ensures ok { IfOk result (λ b. ReadsBatch (arc_value schema.now) (map (option_map coding_of) catalog.now) (view batch.now) (table_of (arc_value b))) }
    ensures err { IfErr result (Tells (BatchFault (arc_value schema.now) (map (option_map coding_of) catalog.now) (view batch.now))) }
{
    let batch = read_batch(alloc, schema, catalog, batch)?;
    Arc::new(alloc, batch).map_err(|_| JsonFault::no_memory(alloc))
}

/// The batches of a file under its schema.
#[tactic(auto, using(crate::proofs::JsonFiles::batches_faults))]
fn read_batches(
    alloc: Global,
    schema: &Arc<Schema>,
    catalog: &[Option<Coding>],
    values: &[Value],
) -> Result<Vec<Arc<RecordBatch>>, JsonFault>
    requires { IsCatalogOf (arc_value schema.now) (map (option_map coding_of) catalog.now) }
    ensures under { IfOk result (λ batches. AreUnder (arc_value schema.now) (map arc_value batches.items)) }
    ensures ok { IfOk result (λ batches. ReadsEach (ReadsBatch (arc_value schema.now) (map (option_map coding_of) catalog.now))
        (items_view values.now) (map table_of (map arc_value batches.items))) }
    ensures err { IfErr result (Tells (EachFault (BatchFault (arc_value schema.now) (map (option_map coding_of) catalog.now))
        (items_view values.now))) }
{
    let mut batches = Vec::new(alloc);
    for (index, value) in values.iter().enumerate() {
        let read = read_shared(alloc, schema, catalog, value);
        let batch = read.map_err(|fault| fault.under(alloc, Step::Item(index)))?;
        push(alloc, &mut batches, batch)?;
    }
    Ok(batches)
}

/// The schema of a document, and how the column of each field is encoded.
#[tactic(auto, using(crate::proofs::JsonFiles::file_faults))]
fn file_schema(alloc: Global, document: &Value) -> Result<EncodedSchema, JsonFault>
    requires { IsObject (view document.now) }
    ensures ok { IfOk result (λ s. HasSchema (view document.now) (arc_value s.schema)) }
    ensures encodings { IfOk result (λ s. HasEncodings (view document.now) (map (option_map parts_of) s.encodings.items)) }
    ensures err { IfErr result (Tells (FileFault (view document.now))) }
{
    let schema = required(alloc, document, Member::Schema)?;
    match read_schema(alloc, schema) {
        Ok(read) => Ok(read),
        Err(fault) => Err(fault.under(alloc, Step::Member(Member::Schema))),
    }
}

/// The file of a document that has the schema and the dictionaries.
#[tactic(auto, using(crate::proofs::JsonFiles::file_faults))]
fn read_under(
    alloc: Global,
    document: &Value,
    schema: Arc<Schema>,
    catalog: &[Option<Coding>],
) -> Result<File, JsonFault>
    requires object { IsObject (view document.now) }
    requires schema { HasSchema (view document.now) (arc_value schema) }
    requires catalog { HasCatalog (view document.now) (map (option_map coding_of) catalog.now) }
    ensures under { IfOk result (λ f. AreUnder f.fields f.batches) }
    ensures ok { IfOk result (λ f. ReadsFile (view document.now) (file_of f)) }
    ensures err { IfErr result (Tells (FileFault (view document.now))) }
{
    let values = array_member(alloc, document, Member::Batches)?;
    let read = read_batches(alloc, &schema, catalog, values);
    let batches = read.map_err(|fault| fault.under(alloc, Step::Member(Member::Batches)))?;
    Ok(File::new(schema, batches))
}

/// What a file says before its batches: its schema, and how the column of each field is encoded.
#[derive(Drop)]
pub struct FileHead {
    pub schema: Arc<Schema>,
    /// One for each field, none where its column isn't encoded.
    pub catalog: Vec<Option<Coding>>,
}

/// Reads what a document says before its batches. Of the document it looks at `schema` and `dictionaries` alone.
#[tactic(auto, using(crate::proofs::JsonFiles::file_faults))]
pub fn read_head(alloc: Global, document: &Value) -> Result<FileHead, JsonFault>
    ensures object { OnOk result (IsObject (view document.now)) }
    ensures schema { IfOk result (λ h. HasSchema (view document.now) (arc_value h.schema)) }
    ensures catalog { IfOk result (λ h. HasCatalog (view document.now) (map (option_map coding_of) h.catalog.items)) }
    ensures err { IfErr result (Tells (FileFault (view document.now))) }
{
    check_object(alloc, document)?;
    let read = file_schema(alloc, document)?;
    let catalog = read_catalog(alloc, document, &read.encodings)?;
    Ok(FileHead {
        schema: read.schema,
        catalog,
    })
}

/// The file of a document.
#[tactic(auto, using(crate::proofs::JsonFiles::file_faults))]
fn read_document(alloc: Global, document: &Value) -> Result<File, JsonFault>
    ensures under { IfOk result (λ f. AreUnder f.fields f.batches) }
    ensures ok { IfOk result (λ f. ReadsFile (view document.now) (file_of f)) }
    ensures err { IfErr result (Tells (FileFault (view document.now))) }
{
    let FileHead { schema, catalog } = read_head(alloc, document)?;
    read_under(alloc, document, schema, &catalog)
}

/// The document that the bytes spell, which are let go of here.
fn parse_vec(alloc: Global, bytes: Vec<u8>) -> Result<Value, JsonFault>
    ensures utf8 { OnOk result (IsUtf8 bytes.items) }
    ensures document { IfOk result (λ document. read bytes.items ≡ Some (view document)) }
    ensures err { IfErr result (Tells (NoDocument bytes.items)) }
{
    parse(alloc, &bytes)
}

/// Reads a file: its schema, and its batches under it.
///
/// Where several faults stand, which of them is reported is open. A count that is stated takes no memory:
/// it is compared with the arrays that are there.
#[tactic(auto, using(crate::proofs::JsonFiles::bytes_faults))]
pub fn read_file(alloc: Global, bytes: &[u8]) -> Result<File, JsonFault>
    // What is read is what the bytes say.
    ensures ok { IfOk result (λ f. Reads bytes.now (file_of f)) }
    // Each batch is under the schema.
    ensures under { IfOk result (λ f. AreUnder f.fields f.batches) }
    // A fault that is reported stands, want of memory apart.
    ensures err { IfErr result (Tells (BytesFault bytes.now)) }
{
    let document = parse(alloc, bytes)?;
    read_document(alloc, &document)
}

/// Reads a file as `read_file` does, from bytes that nobody needs any more: they are let go of as soon as they are
/// parsed, so that they don't stand beside the columns.
#[tactic(auto, using(crate::proofs::JsonFiles::bytes_faults))]
pub fn read_file_from_vec(alloc: Global, bytes: Vec<u8>) -> Result<File, JsonFault>
    ensures ok { IfOk result (λ f. Reads bytes.items (file_of f)) }
    ensures under { IfOk result (λ f. AreUnder f.fields f.batches) }
    ensures err { IfErr result (Tells (BytesFault bytes.items)) }
{
    let document = parse_vec(alloc, bytes)?;
    read_document(alloc, &document)
}
