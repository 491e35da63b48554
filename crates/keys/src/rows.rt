//! The ids of the groups of rows.

ghost use Rattle.std.specs.Prelude.{◌≡◌, ◌<◌, [], All, OnOk};
ghost use Rattle.keys.specs.Keys.{AreIds, with_keys, keys_in};
ghost use Rattle.keys.specs.Memo.{KnowsEntries, Remembers};

use crate::codes::intern_codes;
use crate::columns::KeyColumns;
use crate::key_set::KeySet;
use crate::memo::Memo;
use crate::numbers::intern_numbers;
use arrays::{NoMemory, ViewType};
use evaluate::column::column_at;

/// Puts the id of each row's key in place of what was there. A key that is new is put at the end.
pub fn intern_rows(
    keys: &mut KeySet<'_>,
    memo: &mut Memo,
    ids: &mut Vec<usize>,
    columns: &KeyColumns<'_>,
    rows: &[usize],
) -> Result<(), NoMemory>
    requires within { All (λ r. r < columns.now.batch.now.rows) rows.now }
    requires remembers { Remembers keys.old memo.old }
    requires knows { KnowsEntries keys.old columns.now.batch.now columns.now.by.now memo.old }
    ensures keys { OnOk result (keys.new ≡ with_keys keys.old (keys_in columns.now rows.now)) }
    ensures ids { OnOk result (AreIds keys.new (keys_in columns.now rows.now) ids.new.items) }
    ensures remembers { OnOk result (Remembers keys.new memo.new) }
    ensures knows { OnOk result (KnowsEntries keys.new columns.now.batch.now columns.now.by.now memo.new) }
{
    ids.clear();
    if columns.by.is_empty() {
        return intern_alike(keys, ids, columns, rows);
    }
    if columns.by.len() == 1 {
        let view = column_at(columns.batch, columns.by[0]);
        match view.ty() {
            ViewType::Dict => return intern_codes(keys, memo, ids, columns, rows, &view),
            ViewType::Int(_) => return intern_numbers(keys, memo, ids, columns, rows, &view),
            _ => {}
        }
    }
    intern_each(keys, ids, columns, rows)
}

/// The ids of keys of no items, which are all one key.
fn intern_alike(
    keys: &mut KeySet<'_>,
    ids: &mut Vec<usize>,
    columns: &KeyColumns<'_>,
    rows: &[usize],
) -> Result<(), NoMemory>
    requires none { columns.now.by.now ≡ [] }
    requires within { All (λ r. r < columns.now.batch.now.rows) rows.now }
    requires empty { ids.old.items ≡ [] }
    ensures keys { OnOk result (keys.new ≡ with_keys keys.old (keys_in columns.now rows.now)) }
    ensures ids { OnOk result (AreIds keys.new (keys_in columns.now rows.now) ids.new.items) }
{
    if rows.is_empty() {
        return Ok(());
    }
    let id = keys.intern_row(columns, rows[0])?;
    ids.resize(rows.len(), id)?;
    Ok(())
}

/// The ids of keys of any items, each looked up.
fn intern_each(
    keys: &mut KeySet<'_>,
    ids: &mut Vec<usize>,
    columns: &KeyColumns<'_>,
    rows: &[usize],
) -> Result<(), NoMemory>
    requires within { All (λ r. r < columns.now.batch.now.rows) rows.now }
    requires empty { ids.old.items ≡ [] }
    ensures keys { OnOk result (keys.new ≡ with_keys keys.old (keys_in columns.now rows.now)) }
    ensures ids { OnOk result (AreIds keys.new (keys_in columns.now rows.now) ids.new.items) }
{
    for row in rows {
        ids.push(keys.intern_row(columns, *row)?)?;
    }
    Ok(())
}
