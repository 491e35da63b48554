//! A table before its first batch.

ghost use Rattle.std.specs.Prelude.{◌≡◌, [], IfOk, map, option_map};
ghost use Rattle.std.specs.Arc.{arc_value};
ghost use Rattle.arrays.specs.Kind as kind;
ghost use Rattle.arrays.specs.Prelude.{fields_of, kind_of, shown};
ghost use Rattle.table.specs.Storage.{IsConsistent, show};
ghost use Rattle.table.specs.Lawful.{dictionaries_of};
ghost use Rattle.compaction.specs.Statistics.{AreStatsOf};
ghost use Rattle.table.specs.Stored.{stored_fields};
ghost use Rattle.table.specs.Widening.{no_texts};

use super::Storage;
use crate::book::Book;
use crate::chunks::Chunks;
use crate::stored::stored_schema;
use answers::ColumnStats;
use arrays::{DataType, Field, NoMemory, Schema, ViewType, Words};
use pool::TextPool;
use std::alloc::Global;
use std::sync::Arc;

impl Storage {
    /// Nothing yet, of the fields of a schema.
    pub(crate) fn empty(alloc: Global, schema: Schema) -> Result<Storage, NoMemory>
        ensures storage { IfOk result (λ h. IsConsistent h) }
        ensures shows { IfOk result (λ h. show h ≡ record { fields = stored_fields schema; history = []; batches = [] }) }
    {
        let schema = stored_schema(alloc, schema)?;
        let stats = no_stats(alloc, schema.fields())?;
        let dictionaries = no_entries(alloc, schema.fields())?;
        Ok(Storage {
            schema: Arc::new(alloc, schema)?,
            rows: 0,
            batches: Vec::new(alloc),
            batch_stats: Chunks::empty(alloc)?,
            stats: Arc::new(alloc, stats)?,
            dictionaries,
            book: Book::empty(alloc)?,
        })
    }
}

/// The statistics of columns without rows.
fn no_stats(alloc: Global, fields: &[Field]) -> Result<Vec<ColumnStats>, NoMemory>
    ensures { IfOk result (λ v. AreStatsOf (fields_of fields.now) [] v.items) }
{
    let mut stats = Vec::with_capacity(alloc, fields.len())?;
    for field in fields {
        stats.push(ColumnStats::empty(ViewType::of(&field.ty)))?;
    }
    Ok(stats)
}

/// A dictionary without texts for each stored column of texts.
fn no_entries(alloc: Global, fields: &[Field]) -> Result<Vec<Option<Arc<Words>>>, NoMemory>
    ensures { IfOk result (λ v. map (option_map arc_value) v.items ≡ dictionaries_of (fields_of fields.now) []) }
{
    let mut dictionaries = Vec::with_capacity(alloc, fields.len())?;
    for field in fields {
        dictionaries.push(no_entry(alloc, &field.ty)?)?;
    }
    Ok(dictionaries)
}

/// A dictionary without texts for a stored column of texts, and none for another.
pub(crate) fn no_entry(alloc: Global, ty: &DataType) -> Result<Option<Arc<Words>>, NoMemory>
    ensures { IfOk result (λ o. option_map arc_value o ≡ no_texts (kind_of ty.now)) }
{
    match ty {
        DataType::Dict => Ok(Some(no_words(alloc)?)),
        _ => Ok(None),
    }
}

/// A dictionary without texts.
fn no_words(alloc: Global) -> Result<Arc<Words>, NoMemory>
    ensures { IfOk result (λ w. arc_value w ≡ shown kind.utf8 []) }
{
    let texts = TextPool::new(alloc).to_array(alloc)?;
    Ok(Arc::new(alloc, Words::of(texts))?)
}
