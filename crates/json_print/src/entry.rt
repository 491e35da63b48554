//! The dictionaries of a file as text.

ghost use Rattle.std.specs.Prelude.{◌≡◌, ◌++◌, OnOk, length, map, string_bytes};
ghost use Rattle.arrays.specs.Prelude.{Narrow, field_of, fields_of};
ghost use Rattle.json.specs.Tree.{items_tokens};
ghost use Rattle.json_base.specs.Prelude.{Items, array, items_outline};
ghost use Rattle.json_print.specs.ColumnData.{each, flags, offsets, text_column, text_data};
ghost use Rattle.json_print.specs.DictionaryData.{entries_data, entry_data, text_batch, text_items, with_field};
ghost use Rattle.json_print.specs.Written.{Adds, AddsItems};

use crate::column::write_sized;
use crate::output::Output;
use crate::text_set::TextSet;
use arrays::{DataType, Field, NoMemory};

/// Writes texts.
fn write_strings(out: &mut Output, texts: &[String]) -> Result<(), NoMemory>
    ensures { OnOk result (Adds (array (each text_data (text_items (map string_bytes texts.now)))) out.old out.new) }
{
    out.begin_array()?;
    for text in texts {
        out.string(text.as_str())?;
    }
    out.end_array()
}

/// Writes the offsets of texts. Numbers past 64 bits are of more bytes than a memory holds.
fn write_offsets(out: &mut Output, texts: &[String]) -> Result<(), NoMemory>
    ensures { OnOk result (Adds (offsets Narrow (text_items (map string_bytes texts.now))) out.old out.new) }
{
    out.begin_array()?;
    let mut end = 0u64;
    for text in texts {
        out.number(end)?;
        end = end.checked_add(text.len() as u64).ok_or(NoMemory)?;
    }
    out.number(end)?;
    out.end_array()
}

/// Writes that each text is there.
fn write_flags(out: &mut Output, texts: &[String]) -> Result<(), NoMemory>
    ensures { OnOk result (Adds (flags (text_items (map string_bytes texts.now))) out.old out.new) }
{
    out.begin_array()?;
    for _text in texts {
        out.number(1)?;
    }
    out.end_array()
}

/// Writes texts as a column.
fn write_column(out: &mut Output, name: &str, texts: &[String]) -> Result<(), NoMemory>
    ensures { OnOk result (Adds (text_column Narrow name.now (text_items (map string_bytes texts.now))) out.old out.new) }
{
    out.begin_object()?;
    out.key("DATA")?;
    write_strings(out, texts)?;
    out.key("OFFSET")?;
    write_offsets(out, texts)?;
    out.key("VALIDITY")?;
    write_flags(out, texts)?;
    write_sized(out, texts.len() as u64, name)
}

/// Writes texts as a batch of one column.
fn write_batch(out: &mut Output, name: &str, texts: &[String]) -> Result<(), NoMemory>
    ensures { OnOk result (Adds (text_batch name.now (map string_bytes texts.now)) out.old out.new) }
{
    out.begin_object()?;
    out.key("columns")?;
    out.begin_array()?;
    write_column(out, name, texts)?;
    out.end_array()?;
    out.key("count")?;
    out.number(texts.len() as u64)?;
    out.end_object()
}

/// Writes a dictionary.
fn write_entry(out: &mut Output, id: usize, name: &str, texts: &TextSet) -> Result<(), NoMemory>
    ensures { OnOk result (Adds (entry_data id name.now texts.now) out.old out.new) }
{
    out.begin_object()?;
    out.key("data")?;
    write_batch(out, name, texts.texts())?;
    out.key("id")?;
    out.number(id as u64)?;
    out.end_object()
}

/// Writes the dictionary of a field, or nothing if it isn't dictionary-encoded.
fn write_field(out: &mut Output, id: usize, field: &Field, texts: &TextSet) -> Result<(), NoMemory>
    // Whatever follows.
    ensures { OnOk result ((others : Items) → out.new ++ items_tokens (items_outline others)
        ≡ out.old ++ items_tokens (items_outline (with_field id (field_of field.now) texts.now others))) }
{
    match &field.ty {
        DataType::Dict => write_entry(out, id, field.name.as_str(), texts),
        _ => Ok(()),
    }
}

/// Writes the dictionaries of fields, and the end of them.
pub(crate) fn write_entries(
    out: &mut Output,
    dictionaries: &[TextSet],
    fields: &[Field],
) -> Result<(), NoMemory>
    requires { length dictionaries.now ≡ length fields.now }
    ensures { OnOk result (AddsItems (entries_data 0 dictionaries.now (fields_of fields.now)) out.old out.new) }
{
    for place in 0..fields.len() {
        write_field(out, place, &fields[place], &dictionaries[place])?;
    }
    out.end_array()
}
