//! The columns by whose items rows are put into groups.

ghost use Rattle.std.specs.Prelude.{◌≡◌, ◌<◌, ◌≤◌, All, None, length, slice_index_or};
ghost use Rattle.arrays.specs.Prelude.{null, row_of};
ghost use Rattle.evaluate.specs.Prelude.{key_fault, sort_at};
ghost use Rattle.group.specs.Scalars.{item_of_ref};

use arrays::RecordBatch;
use evaluate::column::column_at;
use group::ScalarRef;

/// Columns of a batch, at most four and none of lists. Of each row its items there are the key.
#[derive(Clone, Copy)]
pub struct KeyColumns<'b> {
    pub batch: &'b RecordBatch,
    /// The places of the columns.
    pub by: &'b [u32],
    ghost few: { length by.now ≤ 4 },
    ghost plain: { All (λ c. key_fault (sort_at batch.now.fields) c ≡ None) by.now },
}

impl<'b> KeyColumns<'b> {
    /// The item of a row in the column at the place.
    pub(crate) fn item_at(&self, place: u32, row: usize) -> ScalarRef<'b>
        requires plain { key_fault (sort_at self.now.batch.now.fields) place ≡ None }
        requires within { row < self.now.batch.now.rows }
        ensures { item_of_ref result ≡ slice_index_or (row_of self.now.batch.now.columns row) place null }
    {
        let view = column_at(self.batch, place);
        ScalarRef::at(&view, row)
    }
}
