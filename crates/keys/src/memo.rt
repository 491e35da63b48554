//! What is remembered of the ids of keys, so that most rows need no look at the keys themselves.

ghost use Rattle.std.specs.Prelude.{◌≡◌, ◌∷◌, ◌<◌, [], IfOk, List, None, OnOk, length, slice_index_or};
ghost use Rattle.arrays.specs.Prelude.{Item, null};
ghost use Rattle.arrays.specs.Kind as kind;
ghost use Rattle.keys.specs.Keys.{key_in};
ghost use Rattle.keys.specs.Memo.{IsInterned, IsRemembered, KnowsEntries, Remembers};

use crate::columns::KeyColumns;
use crate::key_set::KeySet;
use arrays::{NoMemory, View, ViewType};
use evaluate::column::column_at;
use std::alloc::Global;

/// The ids of keys of one item each.
#[derive(Drop)]
pub struct Memo {
    /// That of the key of null.
    pub(crate) null: Option<usize>,
    /// Those of the keys of a dictionary's entries, by their codes.
    pub(crate) entries: Vec<Option<usize>>,
}

impl Memo {
    /// Nothing is remembered.
    pub fn new(alloc: Global) -> Memo
        ensures { (keys : List (List Item)) → Remembers keys result }
    {
        Memo {
            null: None,
            entries: Vec::new(alloc),
        }
    }

    /// Forgets the entries of another batch's dictionary, and makes room for those of this one's, where rows are put into groups by
    /// one such column.
    pub fn begin(&mut self, columns: &KeyColumns<'_>) -> Result<(), NoMemory>
        ensures kept { (keys : List (List Item)) → Remembers keys self.old → OnOk result (Remembers keys self.new) }
        ensures entries { (keys : List (List Item)) → Remembers keys self.old
            → OnOk result (KnowsEntries keys columns.now.batch.now columns.now.by.now self.new) }
    {
        self.entries.clear();
        if columns.by.len() == 1 {
            let view = column_at(columns.batch, columns.by[0]);
            if let ViewType::Dict = view.ty() {
                self.entries.resize(view.entries().len(), None)?;
            }
        }
        Ok(())
    }
}

/// The id of a row's key: the one that is known, or else the one that it has or gets, which is known then.
#[inline(always)]
pub(crate) fn recall_row(
    known: &mut Option<usize>,
    keys: &mut KeySet<'_>,
    columns: &KeyColumns<'_>,
    row: usize,
) -> Result<usize, NoMemory>
    requires within { row < columns.now.batch.now.rows }
    ensures { let key = key_in columns.now row in
        IsRemembered keys.old key known.old
        → IfOk result (λ n. IsInterned keys.old keys.new key n × IsRemembered keys.new key known.new) }
{
    if let Some(id) = *known {
        return Ok(id);
    }
    let id = keys.intern_row(columns, row)?;
    *known = Some(id);
    Ok(id)
}

/// The same of the key of a dictionary's entry alone, which is likely to have this place among the texts of keys too.
#[inline(always)]
pub(crate) fn recall_entry(
    known: &mut Option<usize>,
    keys: &mut KeySet<'_>,
    entries: &View<'_>,
    place: usize,
) -> Result<usize, NoMemory>
    requires utf8 { entries.now.kind ≡ kind.utf8 }
    requires within { place < length entries.now.items }
    ensures { let key = slice_index_or entries.now.items place null ∷ [] in
        IsRemembered keys.old key known.old
        → IfOk result (λ n. IsInterned keys.old keys.new key n × IsRemembered keys.new key known.new) }
{
    if let Some(id) = *known {
        return Ok(id);
    }
    let id = keys.intern_entry(entries, place)?;
    *known = Some(id);
    Ok(id)
}
