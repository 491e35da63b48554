//! A column more, before anything of the table changes.

ghost use Rattle.std.specs.Prelude.{◌≡◌, ◌∷◌, ◌++◌, ◌^◌, ◌≤◌, [], All, IfOk, None, false, length, map};
ghost use Rattle.std.specs.Arc.{arc_value};
ghost use Rattle.std.specs.List.{AllZip};
ghost use Rattle.arrays.specs.Prelude.{Batch, depth, field_of, fields_of, has_dict_in_list, kind_of};
ghost use Rattle.compaction.specs.Under.{pieces_of};
ghost use Rattle.answers.specs.Prelude.{AreSame};
ghost use Rattle.table.specs.Storage.{IsConsistent, show};
ghost use Rattle.table.specs.Stored.{stored_field};
ghost use Rattle.table.specs.Widened.{add_fault, with_last_field};
ghost use Rattle.table.specs.Widening.{AreAllWider, AreWider, IsWider, with_nulls};

use crate::add_fault::AddFault;
use crate::chunks::Chunks;
use crate::storage::Storage;
use crate::storage::empty::no_entry;
use crate::stored::stored_one;
use answers::ColumnStats;
use arrays::{
    Array, DataType, Field, NoMemory, RecordBatch, Schema, ViewType, has_dict_in_list, is_too_deep,
};
use std::alloc::Global;
use std::sync::Arc;

/// Why no column of the field is added. It doesn't look into a field that is too deep.
pub(crate) fn fault_of(field: &Field) -> Option<AddFault>
    ensures { result ≡ add_fault (field_of field.now) }
{
    if !field.nullable {
        return Some(AddFault::NotNullable);
    }
    if is_too_deep(&field.ty) {
        return Some(AddFault::TooDeep);
    }
    if has_dict_in_list(&field.ty) {
        return Some(AddFault::DictInList);
    }
    None
}

/// Stages a column of the field behind the others: what is stored then.
pub(crate) fn stage(alloc: Global, storage: &Storage, field: &Field) -> Result<Storage, NoMemory>
    requires storage { IsConsistent storage.now }
    requires allowed { add_fault (field_of field.now) ≡ None }
    ensures lawful { IfOk result (λ h. IsConsistent h) }
    ensures shows { IfOk result (λ h. show h ≡ with_last_field (show storage.now) (stored_field (field_of field.now))) }
{
    let field = stored_one(alloc, field)?;
    storage.wider(alloc, &field)
}

impl Storage {
    /// The same parts, shared, and a column of the stored field behind the others.
    fn wider(&self, alloc: Global, field: &Field) -> Result<Storage, NoMemory>
        requires storage { IsConsistent self.now }
        requires depth { depth (kind_of field.now.ty) ≤ 8 }
        requires no_dict { has_dict_in_list (kind_of field.now.ty) ≡ false }
        ensures { IfOk result (λ h. IsWider (field_of field.now) self.now h) }
    {
        let schema = Arc::new(alloc, wider_schema(alloc, &self.schema, field)?)?;
        let batches = wider_batches(alloc, &schema, &self.batches, field)?;
        let pieces = wider_pieces(alloc, &self.batches, &self.batch_stats, &field.ty)?;
        let batch_stats = Chunks::of(alloc, pieces)?;
        let mut storage = self.with_batches(alloc, batches, batch_stats)?;
        storage.schema = schema;
        storage.stats = Arc::new(
            alloc,
            wider_stats(alloc, &self.stats, &field.ty, self.rows)?,
        )?;
        storage.dictionaries.push(no_entry(alloc, &field.ty)?)?;
        Ok(storage)
    }
}

/// The schema with a field behind the others.
fn wider_schema(alloc: Global, schema: &Schema, field: &Field) -> Result<Schema, NoMemory>
    requires depth { depth (kind_of field.now.ty) ≤ 8 }
    requires no_dict { has_dict_in_list (kind_of field.now.ty) ≡ false }
    ensures { IfOk result (λ s. s ≡ schema.now ++ field_of field.now ∷ []) }
{
    match Schema::new(wider_fields(alloc, schema.fields(), field)?) {
        Ok(schema) => Ok(schema),
        // The field fits a schema as the others do.
        Err(_) => unreachable!(),
    }
}

/// A copy of each field, and one behind them.
fn wider_fields(alloc: Global, fields: &[Field], field: &Field) -> Result<Vec<Field>, NoMemory>
    ensures { IfOk result (λ v. fields_of v.items ≡ fields_of fields.now ++ field_of field.now ∷ []) }
{
    let mut wider = Vec::with_capacity(alloc, fields.len().saturating_add(1))?;
    for one in fields {
        wider.push(one.copy(alloc)?)?;
    }
    wider.push(field.copy(alloc)?)?;
    Ok(wider)
}

/// Each batch with a column of nulls behind the others, under a schema that has the field there.
fn wider_batches(
    alloc: Global,
    schema: &Arc<Schema>,
    batches: &[Arc<RecordBatch>],
    field: &Field,
) -> Result<Vec<Arc<RecordBatch>>, NoMemory>
    requires depth { depth (kind_of field.now.ty) ≤ 8 }
    requires no_dict { has_dict_in_list (kind_of field.now.ty) ≡ false }
    requires under { All (λ (b : Batch). arc_value schema.now ≡ b.fields ++ field_of field.now ∷ []) (map arc_value batches.now) }
    ensures { IfOk result (λ v. map arc_value v.items ≡ map (with_nulls (field_of field.now)) (map arc_value batches.now)) }
{
    let mut wider = Vec::with_capacity(alloc, batches.len())?;
    for batch in batches {
        let batch = wider_batch(alloc, schema, batch, field)?;
        wider.push(Arc::new(alloc, batch)?)?;
    }
    Ok(wider)
}

/// A batch with a column of nulls behind the others, which are shared.
fn wider_batch(
    alloc: Global,
    schema: &Arc<Schema>,
    batch: &RecordBatch,
    field: &Field,
) -> Result<RecordBatch, NoMemory>
    requires depth { depth (kind_of field.now.ty) ≤ 8 }
    requires no_dict { has_dict_in_list (kind_of field.now.ty) ≡ false }
    requires under { arc_value schema.now ≡ batch.now.fields ++ field_of field.now ∷ [] }
    ensures { IfOk result (λ b. b ≡ with_nulls (field_of field.now) batch.now) }
{
    let mut columns = columns_shared(alloc, batch.columns())?;
    columns.push(Array::nulls(alloc, &field.ty, batch.rows())?)?;
    Ok(RecordBatch::under(schema.clone()?, batch.rows(), columns))
}

/// The same columns, shared, with room for one more.
fn columns_shared(alloc: Global, columns: &[Array]) -> Result<Vec<Array>, NoMemory>
    ensures { IfOk result (λ v. v.items ≡ columns.now) }
{
    let mut shared = Vec::with_capacity(alloc, columns.len().saturating_add(1))?;
    for column in columns {
        shared.push(column.copy(alloc)?)?;
    }
    Ok(shared)
}

/// The statistics of each batch, and behind them those of its nulls.
fn wider_pieces(
    alloc: Global,
    batches: &[Arc<RecordBatch>],
    batch_stats: &Chunks<Arc<Vec<ColumnStats>>>,
    ty: &DataType,
) -> Result<Vec<Arc<Vec<ColumnStats>>>, NoMemory>
    requires { length batch_stats.now ≡ length batches.now }
    ensures { IfOk result (λ v. AreAllWider (kind_of ty.now) (map arc_value batches.now) (pieces_of batch_stats.now) (pieces_of v.items)) }
{
    let mut wider = Vec::with_capacity(alloc, batches.len())?;
    for k in 0..batches.len() {
        let rows = u64::from(batches[k].rows());
        let stats = wider_stats(alloc, batch_stats.get(k), ty, rows)?;
        wider.push(Arc::new(alloc, stats)?)?;
    }
    Ok(wider)
}

/// The statistics of columns, and behind them those of so many nulls.
fn wider_stats(
    alloc: Global,
    stats: &[ColumnStats],
    ty: &DataType,
    rows: u64,
) -> Result<Vec<ColumnStats>, NoMemory>
    requires { rows ≤ 2 ^ 40 }
    ensures { IfOk result (λ v. AreWider (kind_of ty.now) rows stats.now v.items) }
{
    let mut wider = stats_copied(alloc, stats)?;
    wider.push(ColumnStats::all_null(ViewType::of(ty), rows))?;
    Ok(wider)
}

/// A copy of each of the statistics, with room for one more.
fn stats_copied(alloc: Global, stats: &[ColumnStats]) -> Result<Vec<ColumnStats>, NoMemory>
    ensures { IfOk result (λ v. AllZip AreSame v.items stats.now) }
{
    let mut copied = Vec::with_capacity(alloc, stats.len().saturating_add(1))?;
    for one in stats {
        copied.push(one.copy(alloc)?)?;
    }
    Ok(copied)
}
