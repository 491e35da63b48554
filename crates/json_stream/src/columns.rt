//! The columns of a batch.

ghost use Rattle.std.specs.Prelude.{◌≡◌, ◌<◌, ◌≤◌, List, length, drop, map, option_map, IfOk};
ghost use Rattle.arrays.specs.Prelude.{fields_of};
ghost use Rattle.json_read.specs.Prelude.{Data, array, coding_of, no_items};
ghost use Rattle.json_scan.specs.Spelling.{SpellsAt, before};
ghost use Rattle.json_stream.specs.Columns.{AreReadColumns};

use crate::column::read_column;
use arrays::{Array, Field};
use json_read::Coding;
use json_scan::{ItemVisitor, Miss, Placed, ScanResult, push, read_array};
use std::alloc::Global;

/// The columns so far, of the first fields.
#[derive(Drop)]
struct Columns<'f> {
    alloc: Global,
    fields: &'f [Field],
    catalog: &'f [Option<Coding>],
    columns: Vec<Array>,
}

impl ItemVisitor for Columns<'_> {
    ghost use Rattle.std.specs.Prelude.{◌≡◌, map, option_map};
    ghost use Rattle.arrays.specs.Prelude.{fields_of};
    ghost use Rattle.json_read.specs.CatalogParts.{coding_of};
    ghost use Rattle.json_stream.specs.Columns.{AreReadColumns};

    ghost holds = { λ text depth first ds now. (now.fields ≡ first.fields) × (now.catalog ≡ first.catalog)
        × AreReadColumns (fields_of first.fields.now) (map (option_map coding_of) first.catalog.now) ds now.columns.items };

    fn visit(&mut self, text: &str, at: usize, depth: usize) -> Result<usize, Miss> {
        let index = self.columns.len();
        if index >= self.fields.len() || index >= self.catalog.len() {
            return Err(Miss::Unread);
        }
        let field = &self.fields[index];
        let coding = &self.catalog[index];
        let column = read_column(self.alloc, field, coding, text, at, depth)?;
        push(&mut self.columns, column.value)?;
        Ok(column.end)
    }
}

/// The columns that stand here, or after spaces, as arrays of the types of the first fields, by the catalog's coding of each: there may be fewer
/// than fields. Each may be of another length.
pub fn read_columns(
    alloc: Global,
    fields: &[Field],
    catalog: &[Option<Coding>],
    text: &str,
    at: usize,
    depth: usize,
) -> ScanResult<Vec<Array>>
    requires { at ≤ length text.now }
    ensures ok { IfOk result (λ r. (ds : List Data) × SpellsAt depth (drop at text.now) (array (before ds no_items)) (drop r.end text.now)
        × AreReadColumns (fields_of fields.now) (map (option_map coding_of) catalog.now) ds r.value.items) }
    ensures onward { IfOk result (λ r. at < r.end) }
    ensures within { IfOk result (λ r. r.end ≤ length text.now) }
{
    let mut columns = Columns {
        alloc,
        fields,
        catalog,
        columns: Vec::new(alloc),
    };
    let end = read_array(text, at, depth, &mut columns)?;
    Ok(Placed {
        value: columns.columns,
        end,
    })
}
