//! Neighbouring rows of a batch.

ghost use Rattle.std.specs.Prelude.{◌+◌, ◌≤◌};
ghost use Rattle.arrays.specs.Prelude.{most_slots};

use arrays::RecordBatch;

/// The `len` rows of a batch from row `start` on.
#[derive(Clone, Copy)]
pub struct Slice<'a> {
    pub batch: &'a RecordBatch,
    pub start: usize,
    pub len: usize,
    ghost within: { start + len ≤ batch.now.rows },
    ghost few: { len ≤ most_slots },
}
