//! The batches of a file.

ghost use Rattle.std.specs.Prelude.{◌≡◌, ◌<◌, ◌≤◌, List, length, drop, map, option_map, IfOk};
ghost use Rattle.std.specs.Arc.{arc_value};
ghost use Rattle.json_read.specs.Prelude.{Data, ReadsBatch, array, coding_of, no_items, table_of};
ghost use Rattle.json_scan.specs.Spelling.{SpellsAt, before};
ghost use Rattle.json_stream.specs.Cursor.{HasValue, IsBehind};
ghost use Rattle.json_file.specs.Batches.{AreBatches};

use arrays::{RecordBatch, Schema};
use json_read::Coding;
use json_scan::{ItemVisitor, Miss, Placed, ScanResult, push, read_array};
use json_stream::{Cursor, read_batch};
use std::alloc::Global;
use std::sync::Arc;

/// The batch that stands here, or after spaces, to be shared.
fn read_shared(
    alloc: Global,
    schema: &Arc<Schema>,
    catalog: &[Option<Coding>],
    cursor: Cursor,
) -> ScanResult<Arc<RecordBatch>>
    ensures fields { IfOk result (λ r. (arc_value r.value).fields ≡ arc_value schema.now) }
    ensures ok { IfOk result (λ r. HasValue cursor.entry r.end (λ d. ReadsBatch (arc_value schema.now) (map (option_map coding_of) catalog.now) d (table_of (arc_value r.value)))) }
    ensures onward { IfOk result (λ r. IsBehind cursor.entry r.end) }
{
    let batch = read_batch(alloc, schema, catalog, cursor.text, cursor.at, cursor.depth)?;
    match Arc::new(alloc, batch.value) {
        Ok(value) => Ok(Placed {
            value,
            end: batch.end,
        }),
        Err(_) => Err(Miss::NoMemory),
    }
}

/// The batches so far, under the schema.
#[derive(Drop)]
struct Batches<'s> {
    alloc: Global,
    schema: &'s Arc<Schema>,
    catalog: &'s [Option<Coding>],
    batches: Vec<Arc<RecordBatch>>,
}

impl ItemVisitor for Batches<'_> {
    ghost use Rattle.std.specs.Prelude.{◌≡◌, map, option_map};
    ghost use Rattle.std.specs.Arc.{arc_value};
    ghost use Rattle.json_read.specs.CatalogParts.{coding_of};
    ghost use Rattle.json_file.specs.Batches.{AreBatches};

    ghost holds = { λ text depth first ds now. (now.schema ≡ first.schema) × (now.catalog ≡ first.catalog)
        × AreBatches (arc_value first.schema.now) (map (option_map coding_of) first.catalog.now) ds (map arc_value now.batches.items) };

    fn visit(&mut self, text: &str, at: usize, depth: usize) -> Result<usize, Miss> {
        let cursor = Cursor { text, at, depth };
        let batch = read_shared(self.alloc, self.schema, self.catalog, cursor)?;
        push(&mut self.batches, batch.value)?;
        Ok(batch.end)
    }
}

/// The batches that stand here, or after spaces, each under the schema, which they share. How the column of each field is encoded, the catalog says.
pub fn read_batches(
    alloc: Global,
    schema: &Arc<Schema>,
    catalog: &[Option<Coding>],
    text: &str,
    at: usize,
    depth: usize,
) -> ScanResult<Vec<Arc<RecordBatch>>>
    requires { at ≤ length text.now }
    ensures ok { IfOk result (λ r. (ds : List Data) × SpellsAt depth (drop at text.now) (array (before ds no_items)) (drop r.end text.now)
        × AreBatches (arc_value schema.now) (map (option_map coding_of) catalog.now) ds (map arc_value r.value.items)) }
    ensures onward { IfOk result (λ r. at < r.end) }
    ensures within { IfOk result (λ r. r.end ≤ length text.now) }
{
    let mut batches = Batches {
        alloc,
        schema,
        catalog,
        batches: Vec::new(alloc),
    };
    let end = read_array(text, at, depth, &mut batches)?;
    let Batches { batches, .. } = batches;
    Ok(Placed {
        value: batches,
        end,
    })
}
