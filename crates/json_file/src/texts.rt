//! The texts of a dictionary.

ghost use Rattle.std.specs.Prelude.{◌≡◌, ◌∷◌, [], length, IfOk, IfSome};
ghost use Rattle.arrays.specs.Prelude.{field_of, kind_of_field, utf8};
ghost use Rattle.json_read.specs.JsonDictionary.{WrapsTexts};
ghost use Rattle.json_stream.specs.Cursor.{HasValue, IsBehind};
ghost use Rattle.json_file.specs.Texts.{IsBatchOfTexts};

use arrays::{Array, DataType, Field};
use json_scan::{ItemVisitor, Miss, Placed, ScanResult, after_space, read_array};
use json_stream::{BatchMembers, Cursor, read_batch_members};
use std::alloc::Global;

/// The column of exactly one, if it has as many slots as the batch says.
fn only_column(batch: BatchMembers) -> Option<Array>
    ensures { IfSome result (λ a. (batch.columns.items ≡ a ∷ []) × (length a.items ≡ batch.count)) }
{
    let BatchMembers { count, mut columns } = batch;
    let column = columns.pop()?;
    if columns.is_empty() && column.len() == count as usize {
        Some(column)
    } else {
        None
    }
}

/// A field of texts.
fn field_of_texts(alloc: Global) -> Field
    ensures { kind_of_field (field_of result) ≡ utf8 }
{
    Field {
        name: String::new(alloc),
        nullable: true,
        ty: DataType::Utf8,
    }
}

/// The texts of the dictionary's batch that stands at the cursor, or after spaces.
fn read_batch_of_texts(alloc: Global, cursor: Cursor) -> ScanResult<Array>
    ensures ok { IfOk result (λ r. HasValue cursor.entry r.end (λ d. IsBatchOfTexts d r.value)) }
    ensures onward { IfOk result (λ r. IsBehind cursor.entry r.end) }
{
    let fields = [field_of_texts(alloc)];
    let batch = read_batch_members(alloc, &fields, &[None], cursor)?;
    match only_column(batch.value) {
        Some(value) => Ok(Placed {
            value,
            end: batch.end,
        }),
        None => Err(Miss::Unread),
    }
}

/// The texts of the one batch, once it is there.
#[derive(Drop)]
struct OnlyBatch {
    alloc: Global,
    texts: Option<Array>,
}

impl ItemVisitor for OnlyBatch {
    ghost use Rattle.json_file.specs.Texts.{AreAlone};

    ghost holds = { λ text depth first ds now. AreAlone ds now.texts };

    fn visit(&mut self, text: &str, at: usize, depth: usize) -> Result<usize, Miss> {
        if self.texts.is_some() {
            return Err(Miss::Unread);
        }
        let texts = read_batch_of_texts(self.alloc, Cursor { text, at, depth })?;
        self.texts = Some(texts.value);
        Ok(texts.end)
    }
}

/// The texts of the batch that stands here, or after spaces, in an array of exactly one.
fn read_wrapped(alloc: Global, cursor: Cursor) -> ScanResult<Array>
    ensures kind { IfOk result (λ r. r.value.kind ≡ utf8) }
    ensures ok { IfOk result (λ r. HasValue cursor.entry r.end (λ d. WrapsTexts d r.value.items)) }
    ensures onward { IfOk result (λ r. IsBehind cursor.entry r.end) }
{
    let mut batch = OnlyBatch { alloc, texts: None };
    let end = read_array(cursor.text, cursor.at, cursor.depth, &mut batch)?;
    let OnlyBatch { texts, .. } = batch;
    let Some(value) = texts else {
        return Err(Miss::Unread);
    };
    Ok(Placed { value, end })
}

/// The texts of what an entry has as its `data`, which stands here, or after spaces: a batch, or an array of exactly one.
pub(crate) fn read_texts(alloc: Global, cursor: Cursor) -> ScanResult<Array>
    ensures kind { IfOk result (λ r. r.value.kind ≡ utf8) }
    ensures ok { IfOk result (λ r. HasValue cursor.entry r.end (λ d. WrapsTexts d r.value.items)) }
    ensures onward { IfOk result (λ r. IsBehind cursor.entry r.end) }
{
    let bytes = cursor.text.as_bytes();
    let start = after_space(bytes, cursor.at);
    if bytes[start..].starts_with(b"[") {
        read_wrapped(alloc, cursor)
    } else {
        read_batch_of_texts(alloc, cursor)
    }
}
