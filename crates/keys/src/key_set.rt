//! The keys of groups, each once.

ghost use Rattle.std.specs.Prelude.{◌≡◌, ◌∷◌, ◌<◌, ◌≤◌, [], All, IfOk, None, OnOk, Some, length, map, slice_get, slice_index_or};
ghost use Rattle.std.specs.Option.{option_copied};
ghost use mathlib.Core.List.{IsPrefix};
ghost use Rattle.arrays.specs.Prelude.{int, item_of_text, null};
ghost use Rattle.arrays.specs.Kind as kind;
ghost use Rattle.indexmap.specs.IndexSet.{insert_key};
ghost use Rattle.group.specs.Scalars.{item_of_scalar, item_of_ref};
ghost use Rattle.keys.specs.Keys.{key_in};
ghost use Rattle.keys.specs.Parts.{AreWithin, IsWithin, item_of_part, key_of_parts, keys_shown};
ghost use Rattle.keys.specs.PartSets.{parts_shown};
ghost use Rattle.keys.specs.Same.{same_key};
ghost use Rattle.keys.specs.Texts.{named_texts};

use crate::columns::KeyColumns;
use crate::key_texts::KeyTexts;
use crate::part::Part;
use crate::part_set::{PartSet, Stored};
use crate::text_set::TextSet;
use arrays::{NoMemory, OffsetWidth, View};
use arrayvec::ArrayVec;
use group::{Scalar, ScalarRef};
use std::alloc::Global;
use std::marker::Model;

/// Keys in order of coming, each once.
#[derive(Drop)]
pub struct KeySet<'a> {
    /// The texts that parts of keys name.
    texts: KeyTexts<'a>,
    keys: PartSet,
}

impl<'a> Model for KeySet<'a> {
    ghost use Rattle.std.specs.Prelude.{List, length};
    ghost use Rattle.std.specs.Coded.{coded_list};
    ghost use Rattle.arrays.specs.Prelude.{Item, items_code};
    ghost use Rattle.keys.specs.Parts.{AreWithin, keys_shown};
    ghost use Rattle.keys.specs.PartSets.{parts_shown};
    ghost use Rattle.keys.specs.Texts.{named_texts};

    ghost Value = { List (List Item) };

    ghost coded = { coded_list items_code };

    ghost view = { λ s. keys_shown (named_texts s.texts) (parts_shown s.keys) };

    ghost invariant = { λ s. AreWithin (length (named_texts s.texts)) (parts_shown s.keys) };
}

impl<'a> KeySet<'a> {
    /// No keys, which take no memory until the first. Texts that are likely to come stand among the common ones.
    pub fn new(alloc: Global, common: &'a TextSet) -> KeySet<'a>
        ensures { result ≡ [] }
    {
        KeySet {
            texts: KeyTexts::new(alloc, common),
            keys: PartSet::new(alloc),
        }
    }

    /// How many keys there are.
    pub fn len(&self) -> usize
        ensures { result ≡ length self.now }
    {
        self.keys.len()
    }

    /// The id of a row's key, which is put at the end where it is new.
    #[inline(never)]
    pub(crate) fn intern_row(
        &mut self,
        columns: &KeyColumns<'_>,
        row: usize,
    ) -> Result<usize, NoMemory>
        requires within { row < columns.now.batch.now.rows }
        ensures keys { OnOk result (self.new
            ≡ insert_key same_key self.old (key_in columns.now row)) }
        ensures id { IfOk result (λ n. slice_get self.new n
            ≡ Some (key_in columns.now row)) }
    {
        if columns.by.len() == 1 {
            let item = columns.item_at(columns.by[0], row);
            let part = part_of(&mut self.texts, item)?;
            return intern_part(&self.texts, &mut self.keys, part);
        }
        let parts = parts_of(&mut self.texts, columns, row)?;
        intern_parts(&self.texts, &mut self.keys, parts)
    }
}

impl<'a> KeySet<'a> {
    /// The id of the key of a dictionary's entry alone, which is put at the end where it is new. It is likely to have this place among
    /// the texts too.
    #[inline(never)]
    pub(crate) fn intern_entry(
        &mut self,
        entries: &View<'_>,
        place: usize,
    ) -> Result<usize, NoMemory>
        requires utf8 { entries.now.kind ≡ kind.utf8 }
        requires within { place < length entries.now.items }
        ensures keys { OnOk result (self.new ≡ insert_key same_key self.old (slice_index_or entries.now.items place null ∷ [])) }
        ensures id { IfOk result (λ n. slice_get self.new n ≡ Some (slice_index_or entries.now.items place null ∷ [])) }
    {
        let part = likely_part(
            &mut self.texts,
            entries.text_as(OffsetWidth::Narrow, place),
            place,
        )?;
        intern_part(&self.texts, &mut self.keys, part)
    }

    /// Puts the key of no items at the end, unless it is there.
    pub fn add_empty(&mut self) -> Result<(), NoMemory>
        ensures { OnOk result (self.new ≡ insert_key same_key self.old []) }
    {
        intern_parts(&self.texts, &mut self.keys, ArrayVec::new())?;
        Ok(())
    }

    /// The items of a key; none is null.
    pub fn key_at(&self, alloc: Global, id: usize) -> Result<Vec<Option<Scalar>>, NoMemory>
        requires { id < length self.now }
        ensures { IfOk result (λ v. slice_get self.now id ≡ Some (map item_of_scalar v.items)) }
    {
        match self.keys.key_at(id) {
            Stored::Alone(part) => items_of(alloc, &self.texts, &[part]),
            Stored::Parts(parts) => items_of(alloc, &self.texts, parts),
        }
    }
}

impl<'a> KeySet<'a> {
    /// The id of the key of a number alone, which is put at the end where it is new.
    #[inline(always)]
    pub(crate) fn intern_number(&mut self, number: i128) -> Result<usize, NoMemory>
        ensures keys { OnOk result (self.new ≡ insert_key same_key self.old (int number ∷ [])) }
        ensures id { IfOk result (λ n. slice_get self.new n ≡ Some (int number ∷ [])) }
    {
        intern_part(&self.texts, &mut self.keys, Part::Int(number))
    }

    /// The id of a key of another set, which is put at the end where it is new.
    #[inline(always)]
    pub(crate) fn intern_key(&mut self, other: &KeySet<'_>, place: usize) -> Result<usize, NoMemory>
        requires { place < length other.now }
        ensures keys { OnOk result (self.new ≡ insert_key same_key self.old (slice_index_or other.now place [])) }
        ensures id { IfOk result (λ n. slice_get self.new n ≡ Some (slice_index_or other.now place [])) }
    {
        match other.keys.key_at(place) {
            Stored::Alone(part) => {
                let renamed = renamed_part(&mut self.texts, &other.texts, part)?;
                intern_part(&self.texts, &mut self.keys, renamed)
            }
            Stored::Parts(parts) => {
                let renamed = renamed_parts(&mut self.texts, &other.texts, parts)?;
                intern_parts(&self.texts, &mut self.keys, renamed)
            }
        }
    }
}

/// The id of the key of these parts among keys, which is put at the end where it is new.
fn intern_parts(
    texts: &KeyTexts<'_>,
    keys: &mut PartSet,
    parts: ArrayVec<Part, 4>,
) -> Result<usize, NoMemory>
    requires named { All (IsWithin (length (named_texts texts.now))) parts.items }
    requires within { AreWithin (length (named_texts texts.now)) (parts_shown keys.old) }
    ensures keys { OnOk result (keys_shown (named_texts texts.now) (parts_shown keys.new)
        ≡ insert_key same_key (keys_shown (named_texts texts.now) (parts_shown keys.old)) (key_of_parts (named_texts texts.now) parts.items)) }
    ensures id { IfOk result (λ n. slice_get (keys_shown (named_texts texts.now) (parts_shown keys.new)) n ≡ Some (key_of_parts (named_texts texts.now) parts.items)) }
    ensures within { AreWithin (length (named_texts texts.now)) (parts_shown keys.new) }
{
    keys.place_of(parts)
}

/// The same of the key of this part alone.
#[inline(always)]
fn intern_part(texts: &KeyTexts<'_>, keys: &mut PartSet, part: Part) -> Result<usize, NoMemory>
    requires named { IsWithin (length (named_texts texts.now)) part }
    requires within { AreWithin (length (named_texts texts.now)) (parts_shown keys.old) }
    ensures keys { OnOk result (keys_shown (named_texts texts.now) (parts_shown keys.new)
        ≡ insert_key same_key (keys_shown (named_texts texts.now) (parts_shown keys.old)) (item_of_part (named_texts texts.now) part ∷ [])) }
    ensures id { IfOk result (λ n. slice_get (keys_shown (named_texts texts.now) (parts_shown keys.new)) n ≡ Some (item_of_part (named_texts texts.now) part ∷ [])) }
    ensures within { AreWithin (length (named_texts texts.now)) (parts_shown keys.new) }
{
    keys.place_of_part(part)
}

/// The items that parts stand for; none is null.
fn items_of(
    alloc: Global,
    texts: &KeyTexts<'_>,
    parts: &[Part],
) -> Result<Vec<Option<Scalar>>, NoMemory>
    requires { All (IsWithin (length (named_texts texts.now))) parts.now }
    ensures { IfOk result (λ v. map item_of_scalar v.items ≡ key_of_parts (named_texts texts.now) parts.now) }
{
    let mut items = Vec::with_capacity(alloc, parts.len())?;
    for part in parts {
        items.push(item_of(alloc, texts, *part)?)?;
    }
    Ok(items)
}

/// The item that a part stands for; none is null.
fn item_of(alloc: Global, texts: &KeyTexts<'_>, part: Part) -> Result<Option<Scalar>, NoMemory>
    requires { IsWithin (length (named_texts texts.now)) part }
    ensures { IfOk result (λ s. item_of_scalar s ≡ item_of_part (named_texts texts.now) part) }
{
    value_of(texts, part).to_scalar(alloc)
}

/// The parts of a row's key. Its texts are among the texts then.
fn parts_of(
    texts: &mut KeyTexts<'_>,
    columns: &KeyColumns<'_>,
    row: usize,
) -> Result<ArrayVec<Part, 4>, NoMemory>
    requires within { row < columns.now.batch.now.rows }
    ensures key { IfOk result (λ k. key_of_parts (named_texts texts.new) k.items ≡ key_in columns.now row) }
    ensures within { IfOk result (λ k. All (IsWithin (length (named_texts texts.new))) k.items) }
    ensures begins { IsPrefix (named_texts texts.old) (named_texts texts.new) }
{
    let mut parts = ArrayVec::new();
    for place in columns.by {
        let item = columns.item_at(*place, row);
        parts.push(part_of(texts, item)?);
    }
    Ok(parts)
}

/// The parts that stand for the same items as these, which name other texts. Their texts are among the texts then.
fn renamed_parts(
    texts: &mut KeyTexts<'_>,
    others: &KeyTexts<'_>,
    parts: &[Part],
) -> Result<ArrayVec<Part, 4>, NoMemory>
    requires few { length parts.now ≤ 4 }
    requires named { All (IsWithin (length (named_texts others.now))) parts.now }
    ensures key { IfOk result (λ k. key_of_parts (named_texts texts.new) k.items ≡ key_of_parts (named_texts others.now) parts.now) }
    ensures within { IfOk result (λ k. All (IsWithin (length (named_texts texts.new))) k.items) }
    ensures begins { IsPrefix (named_texts texts.old) (named_texts texts.new) }
{
    let mut renamed = ArrayVec::new();
    for part in parts {
        renamed.push(renamed_part(texts, others, *part)?);
    }
    Ok(renamed)
}

/// The part that stands for the same item as this one, which names another text. Its text is among the texts then, and likely to
/// have the same place.
#[inline(always)]
fn renamed_part(
    texts: &mut KeyTexts<'_>,
    others: &KeyTexts<'_>,
    part: Part,
) -> Result<Part, NoMemory>
    requires { IsWithin (length (named_texts others.now)) part }
    ensures item { IfOk result (λ p. item_of_part (named_texts texts.new) p ≡ item_of_part (named_texts others.now) part) }
    ensures within { IfOk result (λ p. IsWithin (length (named_texts texts.new)) p) }
    ensures begins { IsPrefix (named_texts texts.old) (named_texts texts.new) }
{
    match part {
        Part::Null => Ok(Part::Null),
        Part::Int(number) => Ok(Part::Int(number)),
        Part::Bool(truth) => Ok(Part::Bool(truth)),
        Part::Text(place) => match others.text_at(place) {
            Some(text) => Ok(Part::Text(texts.add_likely(text, place)?)),
            None => unreachable!(),
        },
    }
}

/// The item that a part stands for.
fn value_of<'b>(texts: &'b KeyTexts<'_>, part: Part) -> ScalarRef<'b>
    requires { IsWithin (length (named_texts texts.now)) part }
    ensures { item_of_ref result ≡ item_of_part (named_texts texts.now) part }
{
    match part {
        Part::Null => ScalarRef::Null,
        Part::Int(number) => ScalarRef::Int(number),
        Part::Bool(truth) => ScalarRef::Bool(truth),
        Part::Text(place) => match texts.text_at(place) {
            Some(text) => ScalarRef::Text(text),
            None => unreachable!(),
        },
    }
}

/// The part that stands for an item. Its text is among the texts then.
fn part_of(texts: &mut KeyTexts<'_>, value: ScalarRef<'_>) -> Result<Part, NoMemory>
    ensures item { IfOk result (λ p. item_of_part (named_texts texts.new) p ≡ item_of_ref value.entry) }
    ensures within { IfOk result (λ p. IsWithin (length (named_texts texts.new)) p) }
    ensures begins { IsPrefix (named_texts texts.old) (named_texts texts.new) }
{
    match value {
        ScalarRef::Null => Ok(Part::Null),
        ScalarRef::Int(number) => Ok(Part::Int(number)),
        ScalarRef::Bool(truth) => Ok(Part::Bool(truth)),
        ScalarRef::Text(text) => Ok(Part::Text(texts.add(text)?)),
    }
}

/// The part that stands for a text, or for null. The text is among the texts then, and likely to have this place.
#[inline(always)]
fn likely_part(
    texts: &mut KeyTexts<'_>,
    text: Option<&str>,
    likely: usize,
) -> Result<Part, NoMemory>
    ensures item { IfOk result (λ p. item_of_part (named_texts texts.new) p ≡ item_of_text (option_copied text.entry)) }
    ensures within { IfOk result (λ p. IsWithin (length (named_texts texts.new)) p) }
    ensures begins { IsPrefix (named_texts texts.old) (named_texts texts.new) }
{
    match text {
        Some(text) => Ok(Part::Text(texts.add_likely(text, likely)?)),
        None => Ok(Part::Null),
    }
}
