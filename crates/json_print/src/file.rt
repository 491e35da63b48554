//! Files as text.

ghost use Rattle.std.specs.Prelude.{◌≡◌, IfOk, OnOk, length, map, string_bytes};
ghost use Rattle.std.specs.List.{list_any};
ghost use Rattle.std.specs.Arc.{arc_value};
ghost use Rattle.arrays.specs.Prelude.{AreBatchesOf, fields_of, kind_of, out-Field};
ghost use Rattle.json_print.specs.BatchData.{batches_data};
ghost use Rattle.json_base.specs.JsonTable.{tables_of};
ghost use Rattle.json_print.specs.Text.{document, has_dictionary, is_encoded, last_members, schema_member, text};
ghost use Rattle.json_print.specs.Written.{Adds, AddsItems, AddsMembers};

use crate::batch::write_batch;
use crate::dictionaries::dictionaries_of;
use crate::entry::write_entries;
use crate::output::Output;
use crate::schema::write_schema;
use crate::text_set::TextSet;
use arrays::{DataType, Field, File, NoMemory, RecordBatch, Schema};
use std::alloc::Global;
use std::sync::Arc;

/// Writes batches, and the end of them.
fn write_batches(
    alloc: Global,
    out: &mut Output,
    dictionaries: &[TextSet],
    fields: &[Field],
    batches: &[Arc<RecordBatch>],
) -> Result<(), NoMemory>
    requires dictionaries { length dictionaries.now ≡ length fields.now }
    requires types { AreBatchesOf (fields_of fields.now) (map arc_value batches.now) }
    ensures { OnOk result (AddsItems (batches_data dictionaries.now (fields_of fields.now)
        (tables_of (map arc_value batches.now))) out.old out.new) }
{
    for batch in batches {
        write_batch(alloc, out, dictionaries, fields, batch)?;
    }
    out.end_array()
}

/// Whether the type is that of a dictionary-encoded column.
fn is_encoded(ty: &DataType) -> bool
    ensures { result ≡ is_encoded (kind_of ty.now) }
{
    matches!(ty, DataType::Dict)
}

/// Whether some field is dictionary-encoded.
fn has_dictionary(fields: &[Field]) -> bool
    ensures { result ≡ list_any (λ f. is_encoded (kind_of (out-Field f).ty)) fields.now }
{
    fields.iter().any(|field| is_encoded(&field.ty))
}

/// Writes the schema, and the end of the file.
fn write_schema_member(out: &mut Output, schema: &Schema) -> Result<(), NoMemory>
    ensures { OnOk result (AddsMembers (schema_member schema.now) out.old out.new) }
{
    out.key("schema")?;
    write_schema(out, schema)?;
    out.end_object()
}

/// Writes the dictionaries, where there are any, the schema, and the end of the file.
fn write_last_members(
    out: &mut Output,
    dictionaries: &[TextSet],
    schema: &Schema,
) -> Result<(), NoMemory>
    requires { length dictionaries.now ≡ length schema.now }
    ensures { OnOk result (AddsMembers (last_members (has_dictionary schema.now) dictionaries.now schema.now) out.old out.new) }
{
    let fields = schema.fields();
    if !has_dictionary(fields) {
        return write_schema_member(out, schema);
    }
    out.key("dictionaries")?;
    out.begin_array()?;
    write_entries(out, dictionaries, fields)?;
    write_schema_member(out, schema)
}

/// Writes a file.
fn write_file(alloc: Global, out: &mut Output, file: &File) -> Result<(), NoMemory>
    ensures { OnOk result (Adds (document file.now.fields (tables_of file.now.batches)) out.old out.new) }
{
    let fields = file.schema().fields();
    let dictionaries = dictionaries_of(alloc, fields, file.batches())?;
    out.begin_object()?;
    out.key("batches")?;
    out.begin_array()?;
    write_batches(alloc, out, &dictionaries, fields, file.batches())?;
    write_last_members(out, &dictionaries, file.schema())
}

/// The text of a file, as Arrow's integration tests exchange it: JSON without a space and without a newline behind
/// it. It depends on the schema and on the items of the batches alone, so a dictionary-encoded column has a dictionary
/// made anew.
#[tactic(auto, using(crate::proofs::Printed::printed))]
pub fn print_file(alloc: Global, file: &File) -> Result<String, NoMemory>
    ensures { IfOk result (λ printed. string_bytes printed ≡ text file.now) }
{
    let mut out = Output::new(alloc);
    write_file(alloc, &mut out, file)?;
    Ok(out.into_text())
}
