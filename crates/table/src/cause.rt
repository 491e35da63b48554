//! Why a batch isn't admitted, as far as is known before its texts are looked at.

ghost use Rattle.std.specs.Prelude.{◌≡◌, ◌∷◌, [], option_map, position, ◌||◌};
ghost use Rattle.std.specs.Arc.{arc_value};
ghost use Rattle.std.specs.Bool.{then_some};
ghost use Rattle.std.specs.List.{zip};
ghost use Rattle.arrays.specs.Prelude.{field_of, first, rows_of};
ghost use Rattle.table.specs.Cause.{difference, differs, early_cause, is_book_full, is_table_full, null_cause};
ghost use Rattle.table.specs.Storage.{IsConsistent, show};
ghost use Rattle.table.specs.Stored.{is_stored_as};

use crate::nulls::null_refusal;
use crate::refusal::Refusal;
use crate::storage::Storage;
use arrays::{DataType, Field, OffsetWidth, RecordBatch, Schema, ViewType};

/// The most rows that a table may have.
const MOST_ROWS: u64 = 1 << 40;

/// The most accepted calls that a table may have.
const MOST_ENTRIES: u64 = (1 << 32) - 1;

/// The first refusal that stands for a batch, save that of its texts.
pub(crate) fn early_refusal(storage: &Storage, batch: &RecordBatch) -> Option<Refusal>
    requires { IsConsistent storage.now }
    ensures { result ≡ early_cause (arc_value storage.now.schema) (show storage.now).history batch.now }
{
    match misfit(&storage.schema, batch) {
        Some(refusal) => Some(refusal),
        None => excess(storage, batch),
    }
}

/// What of the batch doesn't fit the table's schema: its fields, else a null.
fn misfit(schema: &Schema, batch: &RecordBatch) -> Option<Refusal>
    ensures { result ≡ first (option_map (λ k. Refusal.SchemaDiffers k) (difference schema.now batch.now.fields) ∷ null_cause schema.now (rows_of batch.now) ∷ []) }
{
    if let Some(column) = schema_difference(schema, batch.schema()) {
        return Some(Refusal::SchemaDiffers { column });
    }
    null_refusal(schema.fields(), batch.columns())
}

/// What the table would have too many of: rows, else calls.
fn excess(storage: &Storage, batch: &RecordBatch) -> Option<Refusal>
    requires { IsConsistent storage.now }
    ensures { result ≡ first (then_some (is_table_full (show storage.now).history (rows_of batch.now)) Refusal.TableFull
        ∷ then_some (is_book_full (show storage.now).history) Refusal.BookFull ∷ []) }
{
    if storage.rows + u64::from(batch.rows()) > MOST_ROWS {
        return Some(Refusal::TableFull);
    }
    if storage.book.len() as u64 == MOST_ENTRIES {
        return Some(Refusal::BookFull);
    }
    None
}

/// The least column whose name or stored type differs, else the smaller number of columns where they have others.
fn schema_difference(stored: &Schema, handed: &Schema) -> Option<usize>
    ensures { result ≡ difference stored.now handed.now }
{
    if let Some(column) = first_difference(stored.fields(), handed.fields()) {
        return Some(column);
    }
    let (many, others) = (stored.len(), handed.len());
    if many == others {
        None
    } else {
        Some(many.min(others))
    }
}

/// The least column whose name or stored type differs.
fn first_difference(stored: &[Field], handed: &[Field]) -> Option<usize>
    ensures { result ≡ position (λ p. differs (field_of p.0, field_of p.1)) (zip stored.now handed.now) }
{
    stored
        .iter()
        .zip(handed)
        .position(|(field, other)| does_differ(field, other))
}

/// Whether a field's name or stored type isn't that of the stored field.
fn does_differ(stored: &Field, handed: &Field) -> bool
    ensures { result ≡ differs (field_of stored.now, field_of handed.now) }
{
    stored.name != handed.name || !is_stored_as(&stored.ty, &handed.ty)
}

/// Whether a column of the second type is stored as one of the first.
fn is_stored_as(stored: &DataType, handed: &DataType) -> bool
    ensures { result ≡ is_stored_as stored.now handed.now }
{
    match ViewType::of(handed) {
        ViewType::Text(OffsetWidth::Narrow) => ViewType::of(stored).is_same(ViewType::Dict),
        handed => ViewType::of(stored).is_same(handed),
    }
}
