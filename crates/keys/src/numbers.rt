//! The ids of keys of one column of numbers.

ghost use Rattle.std.specs.Prelude.{◌≡◌, ◌∷◌, ◌<◌, [], All, IfOk, None, OnOk, true};
ghost use Rattle.arrays.specs.Kind as kind;
ghost use Rattle.arrays.specs.Slot.{is_int, item_of};
ghost use Rattle.keys.specs.Keys.{AreIds, with_keys, keys_in, key_in};
ghost use Rattle.keys.specs.Memo.{AreKeys, IsInterned, Remembers};

use crate::columns::KeyColumns;
use crate::key_set::KeySet;
use crate::memo::{Memo, recall_row};
use arrays::{Integer, NoMemory, View, ViewType, with_integer};

/// Puts the id of each row's key there, whose one item is the row's in this column.
pub(crate) fn intern_numbers(
    keys: &mut KeySet<'_>,
    memo: &mut Memo,
    ids: &mut Vec<usize>,
    columns: &KeyColumns<'_>,
    rows: &[usize],
    view: &View<'_>,
) -> Result<(), NoMemory>
    requires within { All (λ r. r < columns.now.batch.now.rows) rows.now }
    requires int { is_int view.now.kind ≡ true }
    requires items { AreKeys view.now.items columns.now.batch.now columns.now.by.now }
    requires empty { ids.old.items ≡ [] }
    requires remembers { Remembers keys.old memo.old }
    ensures keys { OnOk result (keys.new ≡ with_keys keys.old (keys_in columns.now rows.now)) }
    ensures ids { OnOk result (AreIds keys.new (keys_in columns.now rows.now) ids.new.items) }
    ensures remembers { OnOk result (Remembers keys.new memo.new) }
    ensures entries { memo.new.entries ≡ memo.old.entries }
{
    let ViewType::Int(ty) = view.ty() else {
        unreachable!()
    };
    with_integer!(ty, intern_as::<_>(keys, memo, ids, columns, rows, view))
}

/// The same, for a column of type `T`.
fn intern_as<T: Integer>(
    keys: &mut KeySet<'_>,
    memo: &mut Memo,
    ids: &mut Vec<usize>,
    columns: &KeyColumns<'_>,
    rows: &[usize],
    view: &View<'_>,
) -> Result<(), NoMemory>
    requires within { All (λ r. r < columns.now.batch.now.rows) rows.now }
    requires kind { view.now.kind ≡ kind.int T.ty }
    requires items { AreKeys view.now.items columns.now.batch.now columns.now.by.now }
    requires empty { ids.old.items ≡ [] }
    requires remembers { Remembers keys.old memo.old }
    ensures keys { OnOk result (keys.new ≡ with_keys keys.old (keys_in columns.now rows.now)) }
    ensures ids { OnOk result (AreIds keys.new (keys_in columns.now rows.now) ids.new.items) }
    ensures remembers { OnOk result (Remembers keys.new memo.new) }
    ensures entries { memo.new.entries ≡ memo.old.entries }
{
    let column = view.ints::<T>();
    for row in rows {
        let number = column.get(*row);
        ids.push(intern_item(keys, memo, columns, *row, number)?)?;
    }
    Ok(())
}

/// The id of a row's key, whose one item is this number, or null.
#[inline(always)]
fn intern_item(
    keys: &mut KeySet<'_>,
    memo: &mut Memo,
    columns: &KeyColumns<'_>,
    row: usize,
    number: Option<i128>,
) -> Result<usize, NoMemory>
    requires within { row < columns.now.batch.now.rows }
    ensures id { let key = key_in columns.now row in
        key ≡ item_of number ∷ [] → Remembers keys.old memo.old
        → IfOk result (λ n. IsInterned keys.old keys.new key n × Remembers keys.new memo.new) }
    ensures entries { memo.new.entries ≡ memo.old.entries }
{
    match number {
        Some(number) => keys.intern_number(number),
        None => recall_row(&mut memo.null, keys, columns, row),
    }
}
