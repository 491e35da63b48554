//! Batches.

ghost use Rattle.std.specs.Prelude.{◌≡◌, ◌<◌, ◌≤◌, List, length, drop, map, Option, option_map, IfOk, IsTrue};
ghost use Rattle.std.specs.Arc.{arc_value};
ghost use Rattle.std.specs.List.{All};
ghost use Rattle.arrays.specs.Prelude.{fields_of};
ghost use Rattle.json_read.specs.Prelude.{Data, Members, ReadsBatch, coding_of, object, table_of};
ghost use Rattle.json_read.specs.JsonCatalog as coded;
ghost use Rattle.json_scan.specs.Spelling.{SpellsAt};
ghost use Rattle.json_stream.specs.Batch.{HasMembers};
ghost use Rattle.json_stream.specs.Columns.{AreReadColumns};
ghost use Rattle.json_stream.specs.Cursor.{HasAt, IsBehind};

use crate::columns::read_columns;
use crate::cursor::Cursor;
use crate::natural::read_count;
use arrays::{Array, Field, MOST_SLOTS, RecordBatch, Schema};
use json_read::{Coding, Member};
use json_scan::{MemberVisitor, Miss, Placed, ScanResult, pass_over, read_object};
use std::alloc::Global;
use std::sync::Arc;

/// The members of a batch object.
#[derive(Drop)]
pub struct BatchMembers {
    pub count: u32,
    pub columns: Vec<Array>,
}

/// What has been read of them.
#[derive(Drop)]
pub(crate) struct BatchParts<'f> {
    alloc: Global,
    fields: &'f [Field],
    catalog: &'f [Option<Coding>],
    pub count: Option<u32>,
    pub columns: Option<Vec<Array>>,
}

impl MemberVisitor for BatchParts<'_> {
    ghost use Rattle.std.specs.Prelude.{◌≡◌, map, option_map};
    ghost use Rattle.arrays.specs.Prelude.{fields_of};
    ghost use Rattle.json_read.specs.CatalogParts.{coding_of};
    ghost use Rattle.json_stream.specs.Batch.{HoldsBatch};

    ghost holds = { λ text depth first ms now. (now.fields ≡ first.fields) × (now.catalog ≡ first.catalog)
        × HoldsBatch (fields_of first.fields.now) (map (option_map coding_of) first.catalog.now) ms now };

    fn visit(&mut self, text: &str, name: &str, at: usize, depth: usize) -> Result<usize, Miss> {
        if name == Member::Count.name() {
            let count = read_count(Cursor { text, at, depth })?;
            self.count = Some(count.value);
            return Ok(count.end);
        }
        if name == Member::Columns.name() {
            let columns = read_columns(self.alloc, self.fields, self.catalog, text, at, depth)?;
            self.columns = Some(columns.value);
            return Ok(columns.end);
        }
        pass_over(text, at, depth)
    }
}

/// The members of the batch that stands at the cursor, or after spaces: columns of the first fields, by the catalog's coding of each. There may be
/// fewer than fields, and each may be of another length.
pub fn read_batch_members(
    alloc: Global,
    fields: &[Field],
    catalog: &[Option<Coding>],
    cursor: Cursor,
) -> ScanResult<BatchMembers>
    ensures ok { IfOk result (λ r. (ms : Members) × HasAt cursor.entry (object ms) r.end
        × HasMembers (fields_of fields.now) (map (option_map coding_of) catalog.now) ms r.value) }
    ensures onward { IfOk result (λ r. IsBehind cursor.entry r.end) }
{
    let mut parts = BatchParts {
        alloc,
        fields,
        catalog,
        count: None,
        columns: None,
    };
    let end = read_object(alloc, cursor.text, cursor.at, cursor.depth, &mut parts)?;
    let BatchParts { count, columns, .. } = parts;
    let Some(count) = count else {
        return Err(Miss::Unread);
    };
    let Some(columns) = columns else {
        return Err(Miss::Unread);
    };
    Ok(Placed {
        value: BatchMembers { count, columns },
        end,
    })
}

/// Whether each column has so many slots.
fn are_of_len(columns: &[Array], len: usize) -> bool
    ensures { IsTrue result → All (λ s. length s.items ≡ len) columns.now }
{
    for column in columns {
        if column.len() != len {
            return false;
        }
    }
    true
}

/// The batch of columns of the schema's fields, if each is there and has so many slots.
fn batch_of(schema: &Arc<Schema>, rows: u32, columns: Vec<Array>) -> Result<RecordBatch, Miss>
    requires { (catalog : List (Option coded.Coding)) × (ds : List Data) × AreReadColumns (arc_value schema.now) catalog ds columns.items }
    ensures fields { IfOk result (λ b. b.fields ≡ arc_value schema.now) }
    ensures rows { IfOk result (λ b. b.rows ≡ rows) }
    ensures columns { IfOk result (λ b. b.columns ≡ columns.items) }
    ensures whole { IfOk result (λ b. length b.columns ≡ length (arc_value schema.now)) }
    ensures even { IfOk result (λ b. All (λ s. length s.items ≡ rows) b.columns) }
{
    if columns.len() != schema.len() || rows as usize > MOST_SLOTS {
        return Err(Miss::Unread);
    }
    if !are_of_len(&columns, rows as usize) {
        return Err(Miss::Unread);
    }
    match schema.clone() {
        Ok(schema) => Ok(RecordBatch::under(schema, rows, columns)),
        Err(_) => Err(Miss::NoMemory),
    }
}

/// The batch that stands here, or after spaces, which shares the schema. How the column of each field is encoded, the catalog says.
pub fn read_batch(
    alloc: Global,
    schema: &Arc<Schema>,
    catalog: &[Option<Coding>],
    text: &str,
    at: usize,
    depth: usize,
) -> ScanResult<RecordBatch>
    requires { at ≤ length text.now }
    ensures fields { IfOk result (λ r. r.value.fields ≡ arc_value schema.now) }
    ensures ok { IfOk result (λ r. (d : Data) × SpellsAt depth (drop at text.now) d (drop r.end text.now)
        × ReadsBatch (arc_value schema.now) (map (option_map coding_of) catalog.now) d (table_of r.value)) }
    ensures onward { IfOk result (λ r. at < r.end) }
    ensures within { IfOk result (λ r. r.end ≤ length text.now) }
{
    let cursor = Cursor { text, at, depth };
    let read = read_batch_members(alloc, schema.fields(), catalog, cursor)?;
    let BatchMembers { count, columns } = read.value;
    let value = batch_of(schema, count, columns)?;
    Ok(Placed {
        value,
        end: read.end,
    })
}
