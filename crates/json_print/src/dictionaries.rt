//! The dictionaries of a file, made anew over all its batches.

ghost use Rattle.std.specs.Prelude.{◌≡◌, ◌<◌, All, IfOk, OnOk, length, map, slice_index_or, true};
ghost use Rattle.std.specs.Arc.{arc_value};
ghost use Rattle.arrays.specs.Prelude.{AreBatchesOf, fields_of, is_text, kind_of, null, out-Field};
ghost use Rattle.arrays.specs.Kind as kind;
ghost use Rattle.pool.specs.Prelude.{firsts, texts_of, with_item};
ghost use Rattle.json_base.specs.JsonTable.{table_of, tables_of};
ghost use Rattle.json_print.specs.Dictionaries.{IsEncodedAt, column_at, column_items, dictionaries_from, dictionary_of, with_items};

use crate::text_set::TextSet;
use arrays::{DataType, Field, NoMemory, RecordBatch, View};
use std::alloc::Global;
use std::sync::Arc;

/// Adds the text of slot `i` to a set.
fn add_item(alloc: Global, texts: &mut TextSet, column: &View<'_>, i: usize) -> Result<(), NoMemory>
    requires kind { is_text column.now.kind ≡ true }
    requires within { i < length column.now.items }
    ensures { OnOk result (texts.new ≡ with_item texts.old (slice_index_or column.now.items i null)) }
{
    match column.text_at(i) {
        Some(text) => texts.add(alloc, text),
        None => Ok(()),
    }
}

/// Adds the texts of a column to a set.
fn add_items(alloc: Global, texts: &mut TextSet, column: &View<'_>) -> Result<(), NoMemory>
    requires { is_text column.now.kind ≡ true }
    ensures { OnOk result (texts.new ≡ with_items texts.old column.now.items) }
{
    for i in 0..column.len() {
        add_item(alloc, texts, column, i)?;
    }
    Ok(())
}

/// Adds the texts of a column of a batch to a set.
fn add_batch(
    alloc: Global,
    texts: &mut TextSet,
    batch: &RecordBatch,
    place: usize,
) -> Result<(), NoMemory>
    requires { IsEncodedAt place batch.now }
    ensures { OnOk result (texts.new ≡ with_items texts.old (column_at place (table_of batch.now))) }
{
    let columns = batch.columns();
    add_items(alloc, texts, &columns[place].view())
}

/// Adds the texts of a column of all batches to a set.
fn add_batches(
    alloc: Global,
    texts: &mut TextSet,
    batches: &[Arc<RecordBatch>],
    place: usize,
) -> Result<(), NoMemory>
    requires { All (IsEncodedAt place) (map arc_value batches.now) }
    ensures { OnOk result (texts.new ≡ with_items texts.old (column_items place (tables_of (map arc_value batches.now)))) }
{
    for batch in batches {
        add_batch(alloc, texts, batch, place)?;
    }
    Ok(())
}

/// The texts of a column of all batches, each once, in order of first appearance.
#[tactic(auto, using(crate::proofs::Texts::with_items_none))]
fn column_texts(
    alloc: Global,
    batches: &[Arc<RecordBatch>],
    place: usize,
) -> Result<TextSet, NoMemory>
    requires { All (IsEncodedAt place) (map arc_value batches.now) }
    ensures { IfOk result (λ texts. texts ≡ firsts (texts_of (column_items place (tables_of (map arc_value batches.now))))) }
{
    let mut texts = TextSet::new(alloc);
    add_batches(alloc, &mut texts, batches, place)?;
    Ok(texts)
}

/// The dictionary of a field's column of all batches, of no texts if it isn't dictionary-encoded.
fn dictionary(
    alloc: Global,
    field: &Field,
    batches: &[Arc<RecordBatch>],
    place: usize,
) -> Result<TextSet, NoMemory>
    requires { kind_of (out-Field field.now).ty ≡ kind.dict → All (IsEncodedAt place) (map arc_value batches.now) }
    ensures { IfOk result (λ texts. texts ≡ dictionary_of (kind_of (out-Field field.now).ty)
        (column_items place (tables_of (map arc_value batches.now)))) }
{
    match &field.ty {
        DataType::Dict => column_texts(alloc, batches, place),
        _ => Ok(TextSet::new(alloc)),
    }
}

/// The dictionary of each field's column.
pub(crate) fn dictionaries_of(
    alloc: Global,
    fields: &[Field],
    batches: &[Arc<RecordBatch>],
) -> Result<Vec<TextSet>, NoMemory>
    requires { AreBatchesOf (fields_of fields.now) (map arc_value batches.now) }
    ensures { IfOk result (λ dictionaries. dictionaries.items
        ≡ dictionaries_from 0 (fields_of fields.now) (tables_of (map arc_value batches.now))) }
{
    let mut dictionaries = Vec::new(alloc);
    for (place, field) in fields.iter().enumerate() {
        let texts = dictionary(alloc, field, batches, place)?;
        dictionaries.push(texts)?;
    }
    Ok(dictionaries)
}
