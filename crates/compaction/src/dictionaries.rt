//! Batches over longer dictionaries.

ghost use Rattle.std.specs.Prelude.{◌≡◌, IfOk, is_some, length, map, option_map};
ghost use Rattle.std.specs.Arc.{arc_value};
ghost use Rattle.std.specs.List.{AllZip};
ghost use Rattle.arrays.specs.Prelude.{rows_of, same_kind};
ghost use Rattle.arrays.specs.Kind as kind;
ghost use Rattle.compaction.specs.Columns.{IsOver};
ghost use Rattle.compaction.specs.Under.{IsDictionary, IsUnder, NamesFront, NamesWhole, are_as_long, entry_count, is_as_long};

use arrays::{Array, NoMemory, RecordBatch, Schema, ViewType, Words};
use std::alloc::Global;
use std::sync::Arc;

/// The batch over these dictionaries, which begin with the texts of those that it names: its columns are shared. Where it names
/// no shorter ones, it is shared itself.
pub fn with_dictionaries(
    alloc: Global,
    schema: &Arc<Schema>,
    dictionaries: &[Option<Arc<Words>>],
    batch: &Arc<RecordBatch>,
) -> Result<Arc<RecordBatch>, NoMemory>
    requires dictionaries { AllZip IsDictionary (arc_value schema.now) (map (option_map arc_value) dictionaries.now) }
    requires under { IsUnder (arc_value schema.now) (map (option_map arc_value) dictionaries.now) (arc_value batch.now) }
    ensures under { IfOk result (λ b. IsUnder (arc_value schema.now) (map (option_map arc_value) dictionaries.now) (arc_value b)) }
    ensures whole { IfOk result (λ b. AllZip NamesWhole (arc_value b).columns (map (option_map arc_value) dictionaries.now)) }
    ensures rows { IfOk result (λ b. rows_of (arc_value b) ≡ rows_of (arc_value batch.now)) }
{
    if names_whole(dictionaries, batch) {
        return Ok(batch.clone()?);
    }
    Ok(Arc::new(alloc, over(alloc, schema, dictionaries, batch)?)?)
}

/// Whether each column of the batch that names a dictionary names one with as many texts as the given one.
pub fn names_whole(dictionaries: &[Option<Arc<Words>>], batch: &RecordBatch) -> bool
    ensures { result ≡ are_as_long (map (option_map arc_value) dictionaries.now) batch.now.columns }
{
    let columns = batch.columns();
    let count = dictionaries.len().min(columns.len());
    for k in 0..count {
        if !is_as_long(&dictionaries[k], &columns[k]) {
            return false;
        }
    }
    true
}

/// Whether the dictionary, where there is one, has as many texts as the column's own.
fn is_as_long(dictionary: &Option<Arc<Words>>, column: &Array) -> bool
    ensures { result ≡ is_as_long (option_map arc_value dictionary.now) column.now }
{
    match dictionary {
        Some(words) => entry_count(column) == words.view().len(),
        None => true,
    }
}

/// How many texts the dictionary of a column has, none where there is none.
fn entry_count(column: &Array) -> usize
    ensures { result ≡ entry_count column.now }
{
    let view = column.view();
    match view.ty() {
        ViewType::Dict => view.entries().len(),
        _ => 0,
    }
}

/// The batch over these dictionaries.
fn over(
    alloc: Global,
    schema: &Arc<Schema>,
    dictionaries: &[Option<Arc<Words>>],
    batch: &RecordBatch,
) -> Result<RecordBatch, NoMemory>
    requires dictionaries { AllZip IsDictionary (arc_value schema.now) (map (option_map arc_value) dictionaries.now) }
    requires under { IsUnder (arc_value schema.now) (map (option_map arc_value) dictionaries.now) batch.now }
    ensures under { IfOk result (λ b. IsUnder (arc_value schema.now) (map (option_map arc_value) dictionaries.now) b) }
    ensures whole { IfOk result (λ b. AllZip NamesWhole b.columns (map (option_map arc_value) dictionaries.now)) }
    ensures rows { IfOk result (λ b. rows_of b ≡ rows_of batch.now) }
{
    let mut columns = Vec::with_capacity(alloc, dictionaries.len())?;
    for k in 0..dictionaries.len() {
        columns.push(column_over(alloc, &batch.columns()[k], &dictionaries[k])?)?;
    }
    Ok(RecordBatch::under(schema.clone()?, batch.rows(), columns))
}

/// The column over the dictionary, where one is given.
fn column_over(
    alloc: Global,
    column: &Array,
    dictionary: &Option<Arc<Words>>,
) -> Result<Array, NoMemory>
    requires encoded { is_some (option_map arc_value dictionary.now) ≡ same_kind column.now.kind kind.dict }
    requires front { NamesFront column.now (option_map arc_value dictionary.now) }
    ensures over { IfOk result (IsOver (option_map arc_value dictionary.now) column.now) }
    ensures whole { IfOk result (λ c. NamesWhole c (option_map arc_value dictionary.now)) }
{
    match dictionary {
        Some(words) => Ok(column.with_dictionary(words.clone()?)?),
        None => column.copy(alloc),
    }
}
