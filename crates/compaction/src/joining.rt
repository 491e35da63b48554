//! The rows of several batches as one batch.

ghost use Rattle.std.specs.Prelude.{◌≡◌, ◌⊎◌, ◌<◌, ◌≤◌, All, IfOk, false, length, map, option_map};
ghost use Rattle.std.specs.Arc.{arc_value};
ghost use Rattle.std.specs.List.{AllZip};
ghost use Rattle.arrays.specs.Prelude.{Batch, Seen, codes_of, is_past, most_slots, rows_of};
ghost use Rattle.arrays.specs.Kind as kind;
ghost use Rattle.select.specs.Joined.{IsEncoded, is_joined_too_big, joined, kind_of_first};
ghost use Rattle.compaction.specs.Columns.{AreJoinable, IsColumnOf, IsJoined};
ghost use Rattle.compaction.specs.Neighbours.{is_big, together};
ghost use Rattle.compaction.specs.Under.{IsDictionary, IsUnder};

use crate::columns::column_of;
use crate::dictionaries::with_dictionaries;
use arrays::{Array, NoMemory, RecordBatch, Schema, View, Words};
use select::{SelectFault, concat};
use std::alloc::Global;
use std::sync::Arc;

/// All rows as one batch, over the dictionaries. The columns of a batch that is alone are shared.
pub(crate) fn batch_of(
    alloc: Global,
    schema: &Arc<Schema>,
    dictionaries: &[Option<Arc<Words>>],
    batches: &[Arc<RecordBatch>],
) -> Result<Arc<RecordBatch>, NoMemory>
    requires some { 1 ≤ length batches.now }
    requires dictionaries { AllZip IsDictionary (arc_value schema.now) (map (option_map arc_value) dictionaries.now) }
    requires under { All (IsUnder (arc_value schema.now) (map (option_map arc_value) dictionaries.now)) (map arc_value batches.now) }
    requires fits { (length batches.now ≡ 1) ⊎ ((is_past (length (together (map rows_of (map arc_value batches.now)))) ≡ false)
        × (is_big (arc_value schema.now) (together (map rows_of (map arc_value batches.now))) ≡ false)) }
    ensures under { IfOk result (λ b. IsUnder (arc_value schema.now) (map (option_map arc_value) dictionaries.now) (arc_value b)) }
    ensures rows { IfOk result (λ b. rows_of (arc_value b) ≡ together (map rows_of (map arc_value batches.now))) }
{
    match batches {
        [only] => with_dictionaries(alloc, schema, dictionaries, only),
        _ => Ok(Arc::new(alloc, joined(alloc, schema, dictionaries, batches)?)?),
    }
}

/// The rows of batches, one batch after the other.
fn joined(
    alloc: Global,
    schema: &Arc<Schema>,
    dictionaries: &[Option<Arc<Words>>],
    batches: &[Arc<RecordBatch>],
) -> Result<RecordBatch, NoMemory>
    requires some { 1 ≤ length batches.now }
    requires dictionaries { AllZip IsDictionary (arc_value schema.now) (map (option_map arc_value) dictionaries.now) }
    requires under { All (IsUnder (arc_value schema.now) (map (option_map arc_value) dictionaries.now)) (map arc_value batches.now) }
    requires few { is_past (length (together (map rows_of (map arc_value batches.now)))) ≡ false }
    requires fits { is_big (arc_value schema.now) (together (map rows_of (map arc_value batches.now))) ≡ false }
    ensures under { IfOk result (λ b. IsUnder (arc_value schema.now) (map (option_map arc_value) dictionaries.now) b) }
    ensures rows { IfOk result (λ b. rows_of b ≡ together (map rows_of (map arc_value batches.now))) }
{
    let mut columns = Vec::with_capacity(alloc, dictionaries.len())?;
    for k in 0..dictionaries.len() {
        let views = views_of(alloc, batches, k)?;
        columns.push(joined_column(alloc, &dictionaries[k], &views)?)?;
    }
    Ok(RecordBatch::under(schema.clone()?, rows_in(batches), columns))
}

/// How many rows batches have together.
fn rows_in(batches: &[Arc<RecordBatch>]) -> u32
    requires { length (together (map rows_of (map arc_value batches.now))) ≤ most_slots }
    ensures { result ≡ length (together (map rows_of (map arc_value batches.now))) }
{
    let mut rows = 0;
    for batch in batches {
        rows += batch.rows();
    }
    rows
}

/// Column `k` of each batch.
fn views_of<'a>(
    alloc: Global,
    batches: &'a [Arc<RecordBatch>],
    k: usize,
) -> Result<Vec<View<'a>>, NoMemory>
    requires { All (λ (b : Batch). k < length b.columns) (map arc_value batches.now) }
    ensures { IfOk result (λ v. AllZip (IsColumnOf k) (map arc_value batches.now) v.items) }
{
    let mut views = Vec::with_capacity(alloc, batches.len())?;
    for batch in batches {
        views.push(column_of(batch, k))?;
    }
    Ok(views)
}

/// The items of views, one view after the other. Where a dictionary is given, all codes are of it.
fn joined_column(
    alloc: Global,
    dictionary: &Option<Arc<Words>>,
    views: &[View<'_>],
) -> Result<Array, NoMemory>
    requires { AreJoinable (option_map arc_value dictionary.now) views.now }
    ensures { IfOk result (IsJoined (option_map arc_value dictionary.now) views.now) }
{
    match dictionary {
        Some(words) => {
            let codes = codes_of(alloc, views)?;
            Ok(Array::dict(joined_views(alloc, &codes)?, words.clone()?))
        }
        None => joined_views(alloc, views),
    }
}

/// The codes of each view.
fn codes_of<'a>(alloc: Global, views: &[View<'a>]) -> Result<Vec<View<'a>>, NoMemory>
    requires { All (λ (s : Seen). s.kind ≡ kind.dict) views.now }
    ensures codes { IfOk result (λ v. v.items ≡ map codes_of views.now) }
    ensures encoded { IfOk result (λ v. All IsEncoded views.now) }
{
    let mut codes = Vec::with_capacity(alloc, views.len())?;
    for view in views {
        codes.push(view.codes())?;
    }
    Ok(codes)
}

/// The items of views of one type that fit one array.
fn joined_views(alloc: Global, views: &[View<'_>]) -> Result<Array, NoMemory>
    requires some { 1 ≤ length views.now }
    requires kinds { All (λ (s : Seen). s.kind ≡ kind_of_first views.now) views.now }
    requires fits { is_joined_too_big (kind_of_first views.now) views.now ≡ false }
    ensures { IfOk result (λ r. r ≡ joined (kind_of_first views.now) views.now) }
{
    match concat(alloc, views) {
        Ok(array) => Ok(array),
        Err(fault) => match fault {
            SelectFault::NoMemory => Err(NoMemory),
            _ => unreachable!(),
        },
    }
}
