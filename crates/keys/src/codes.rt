//! The ids of keys of one dictionary-encoded column, by its codes.

ghost use Rattle.std.specs.Prelude.{◌≡◌, ◌∷◌, ◌<◌, [], All, IfOk, None, OnOk, length, true};
ghost use Rattle.arrays.specs.Prelude.{int, is_code, item_of, looked_up};
ghost use Rattle.arrays.specs.Kind as kind;
ghost use Rattle.keys.specs.Keys.{AreIds, with_keys, keys_in, key_in};
ghost use Rattle.keys.specs.Memo.{AreKeys, IsInterned, Knows, Remembers};

use crate::columns::KeyColumns;
use crate::key_set::KeySet;
use crate::memo::{Memo, recall_entry, recall_row};
use crate::part::place_of;
use arrays::{NoMemory, View};

/// Puts the id of each row's key there, whose one item is the row's in this column.
pub(crate) fn intern_codes(
    keys: &mut KeySet<'_>,
    memo: &mut Memo,
    ids: &mut Vec<usize>,
    columns: &KeyColumns<'_>,
    rows: &[usize],
    view: &View<'_>,
) -> Result<(), NoMemory>
    requires within { All (λ r. r < columns.now.batch.now.rows) rows.now }
    requires dict { view.now.kind ≡ kind.dict }
    requires items { AreKeys view.now.items columns.now.batch.now columns.now.by.now }
    requires empty { ids.old.items ≡ [] }
    requires remembers { Remembers keys.old memo.old }
    requires knows { Knows keys.old view.now.entries.items memo.old }
    ensures keys { OnOk result (keys.new ≡ with_keys keys.old (keys_in columns.now rows.now)) }
    ensures ids { OnOk result (AreIds keys.new (keys_in columns.now rows.now) ids.new.items) }
    ensures remembers { OnOk result (Remembers keys.new memo.new) }
    ensures knows { OnOk result (Knows keys.new view.now.entries.items memo.new) }
{
    let entries = view.entries();
    let codes = view.codes();
    let column = codes.ints::<i32>();
    for row in rows {
        let code = column.get(*row);
        ids.push(intern_slot(keys, memo, &entries, columns, *row, code)?)?;
    }
    Ok(())
}

/// The id of a row's key, whose one item is the entry that the code names, or null.
#[inline(always)]
fn intern_slot(
    keys: &mut KeySet<'_>,
    memo: &mut Memo,
    entries: &View<'_>,
    columns: &KeyColumns<'_>,
    row: usize,
    code: Option<i128>,
) -> Result<usize, NoMemory>
    requires utf8 { entries.now.kind ≡ kind.utf8 }
    requires within { row < columns.now.batch.now.rows }
    requires room { length entries.now.items ≡ length memo.old.entries.items }
    requires code { is_code (length entries.now.items) (item_of code) ≡ true }
    ensures { let key = key_in columns.now row in
        key ≡ looked_up entries.now.items (item_of code) ∷ [] → Remembers keys.old memo.old → Knows keys.old entries.now.items memo.old
        → IfOk result (λ n. IsInterned keys.old keys.new key n × Remembers keys.new memo.new × Knows keys.new entries.now.items memo.new) }
{
    match code {
        Some(code) => intern_code(keys, memo, entries, code),
        None => recall_row(&mut memo.null, keys, columns, row),
    }
}

/// The id of the key whose one item is the entry that the code names.
#[inline(always)]
fn intern_code(
    keys: &mut KeySet<'_>,
    memo: &mut Memo,
    entries: &View<'_>,
    code: i128,
) -> Result<usize, NoMemory>
    requires utf8 { entries.now.kind ≡ kind.utf8 }
    requires room { length entries.now.items ≡ length memo.old.entries.items }
    requires code { is_code (length entries.now.items) (int code) ≡ true }
    ensures { let key = looked_up entries.now.items (int code) ∷ [] in
        Remembers keys.old memo.old → Knows keys.old entries.now.items memo.old
        → IfOk result (λ n. IsInterned keys.old keys.new key n × Remembers keys.new memo.new × Knows keys.new entries.now.items memo.new) }
{
    let place = place_of(code);
    recall_entry(&mut memo.entries[place], keys, entries, place)
}
