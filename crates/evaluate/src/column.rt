//! The columns that a query names by their places.

ghost use Rattle.std.specs.Prelude.{◌≡◌, Some, is_ok, slice_get, true};
ghost use Rattle.query.specs.CalledColumns.{sort_at};
ghost use Rattle.evaluate.specs.Rows.{HasColumn, kind_at};

use arrays::{RecordBatch, View};

/// The column at the place.
pub fn column_at<'a>(batch: &'a RecordBatch, place: u32) -> View<'a>
    requires { is_ok (sort_at batch.now.fields place) ≡ true }
    ensures column { slice_get batch.now.columns place ≡ Some result }
    ensures items { HasColumn batch.now place result }
    ensures kind { result.kind ≡ kind_at batch.now.fields place }
{
    let columns = batch.columns();
    columns[place as usize].view()
}
