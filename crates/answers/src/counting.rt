//! How many rows there are in all batches, and that their items can be compared.

ghost use Rattle.std.specs.Prelude.{◌≡◌, ◌≤◌, ◌^◌, All, None, length, map, true};
ghost use Rattle.std.specs.Arc.{arc_value};
ghost use Rattle.arrays.specs.Prelude.{Batch, kind_of_field, rows_of};
ghost use Rattle.query.specs.Prelude.{agg_fault, fits, query_shape, sort_at};
ghost use Rattle.answers.specs.Answers.{all_rows, first_fields};
ghost use Rattle.tallies.specs.Prelude.{AreComparable, IsComparable, item_for};
ghost use Rattle.evaluate.specs.Rows.{kind_at};

use arrays::RecordBatch;
use evaluate::column::column_at;
use query::{Agg, Query};
use std::sync::Arc;

/// How many rows there are in all batches. The items of each column whose least or greatest is requested are null or of one kind, which
/// isn't one of lists.
pub(crate) fn count_all(batches: &[Arc<RecordBatch>], query: &Query) -> u64
    requires types { All (λ (b : Batch). map kind_of_field b.fields ≡ map kind_of_field (first_fields (map arc_value batches.now)))
        (map arc_value batches.now) }
    requires fits { All (λ (b : Batch). fits b.fields (query_shape query.now) ≡ true) (map arc_value batches.now) }
    requires few { length (all_rows (map arc_value batches.now)) ≤ 2 ^ 40 }
    ensures count { result ≡ length (all_rows (map arc_value batches.now)) }
    ensures comparable { let bs = map arc_value batches.now in
        All (AreComparable (kind_at (first_fields bs)) query.now.aggs.items) (all_rows bs) }
{
    let mut rows: u64 = 0;
    for batch in batches {
        tell_comparable(batch, query.aggs.as_slice());
        rows += u64::from(batch.rows());
    }
    rows
}

/// Says that the items of each column whose least or greatest is requested are null or of the column's kind, which isn't one of lists.
/// Nothing is looked at, and nothing changes.
fn tell_comparable(batch: &RecordBatch, aggs: &[Agg<u32>])
    requires { All (λ a. agg_fault (sort_at batch.now.fields) a ≡ None) aggs.now }
    ensures { All (AreComparable (kind_at batch.now.fields) aggs.now) (rows_of batch.now) }
{
    for agg in aggs {
        tell_items(batch, *agg);
    }
}

/// Says so of the column of one aggregate.
fn tell_items(batch: &RecordBatch, agg: Agg<u32>)
    requires { agg_fault (sort_at batch.now.fields) agg ≡ None }
    ensures { All (λ row. IsComparable (kind_at batch.now.fields) agg (item_for agg row)) (rows_of batch.now) }
{
    match agg {
        Agg::Least(place) | Agg::Greatest(place) => column_at(batch, place).tell_items(),
        _ => {}
    }
}
