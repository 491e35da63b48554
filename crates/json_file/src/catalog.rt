//! How the column of each field is encoded, by the dictionaries of a file.

ghost use Rattle.std.specs.Prelude.{◌≡◌, List, Option, Some, length, map, option_map, IfOk, OnOk};
ghost use Rattle.std.specs.Arc.{arc_value};
ghost use Rattle.json_read.specs.Prelude.{AreCodings, Data, HasDictionary, HasSome, IsCoding, array, coding_of, no_items, parts_of};
ghost use Rattle.json_scan.specs.Spelling.{before};
ghost use Rattle.json_stream.specs.Column.{StandsOn};
ghost use Rattle.json_file.specs.Catalog.{HavePlaces, AreCodedBy};
ghost use Rattle.json_file.specs.Dictionary.{AreEntries, ids_in};

use crate::dictionary::{DictionaryEntry, read_entries};
use crate::head::pass_member;
use arrays::Words;
use json_read::{Coding, Encoding, Place, has_some, place_of, places_of};
use json_scan::{Container, Miss, ends_in, push};
use json_stream::{Cursor, Stretch};
use std::alloc::Global;
use std::collections::BTreeMap;
use std::sync::Arc;

/// The entries of a file's `dictionaries`, and where the number of each stands among theirs.
#[derive(Drop)]
pub(crate) struct Dictionaries {
    pub entries: Vec<DictionaryEntry>,
    pub places: BTreeMap<i128, Place>,
}

/// The numbers of the entries.
fn ids_of(alloc: Global, entries: &[DictionaryEntry]) -> Result<Vec<i128>, Miss>
    ensures { IfOk result (λ ids. ids.items ≡ ids_in entries.now) }
{
    let mut ids = Vec::new(alloc);
    for entry in entries {
        push(&mut ids, entry.id)?;
    }
    Ok(ids)
}

/// The dictionaries of these entries.
fn dictionaries_of(alloc: Global, entries: Vec<DictionaryEntry>) -> Result<Dictionaries, Miss>
    ensures entries { IfOk result (λ d. d.entries.items ≡ entries.items) }
    ensures placed { IfOk result HavePlaces }
{
    let ids = ids_of(alloc, &entries)?;
    match places_of(alloc, &ids) {
        Ok(places) => Ok(Dictionaries { entries, places }),
        Err(_) => Err(Miss::NoMemory),
    }
}

/// The texts of the one entry of the number. Where there is none, or a second one, or its texts weren't read, the reader of trees tells why.
fn words_of(dictionaries: &Dictionaries, id: i128) -> Result<Arc<Words>, Miss>
    requires { HavePlaces dictionaries.now }
    ensures { let entries = dictionaries.now.entries.items in IfOk result (λ w. (ds : List Data) → AreEntries ds entries
        → HasDictionary (before ds no_items) (ids_in entries) id (arc_value w).items) }
{
    let Place::At(index) = place_of(&dictionaries.places, id) else {
        return Err(Miss::Unread);
    };
    let entry = &dictionaries.entries[index];
    let Some(words) = &entry.words else {
        return Err(Miss::Unread);
    };
    match words.clone() {
        Ok(words) => Ok(words),
        Err(_) => Err(Miss::NoMemory),
    }
}

/// How a column is read that is encoded so.
fn coding_by(
    dictionaries: &Dictionaries,
    encoding: Option<Encoding>,
) -> Result<Option<Coding>, Miss>
    requires { HavePlaces dictionaries.now }
    ensures { let entries = dictionaries.now.entries.items in IfOk result (λ c. (ds : List Data) → AreEntries ds entries
        → IsCoding (before ds no_items) (ids_in entries) (option_map parts_of encoding) (option_map coding_of c)) }
{
    match encoding {
        None => Ok(None),
        Some(encoding) => {
            let words = words_of(dictionaries, encoding.id)?;
            Ok(Some(Coding {
                index: encoding.index,
                words,
            }))
        }
    }
}

/// How the columns of all fields are read. Those that name one entry share its texts.
fn codings_by(
    alloc: Global,
    dictionaries: &Dictionaries,
    encodings: &[Option<Encoding>],
) -> Result<Vec<Option<Coding>>, Miss>
    requires { HavePlaces dictionaries.now }
    ensures { let entries = dictionaries.now.entries.items in IfOk result (λ cs. (ds : List Data) → AreEntries ds entries
        → AreCodings (before ds no_items) (ids_in entries) (map (option_map parts_of) encodings.now) (length encodings.now) (map (option_map coding_of) cs.items)) }
{
    let mut codings = Vec::new(alloc);
    for index in 0..encodings.len() {
        let coding = coding_by(dictionaries, encodings[index])?;
        push(&mut codings, coding)?;
    }
    Ok(codings)
}

/// The entries that stand there.
fn entries_at(
    alloc: Global,
    text: &str,
    place: Option<Stretch>,
    depth: usize,
) -> Result<Vec<DictionaryEntry>, Miss>
    ensures { IfOk result (λ es. (ds : List Data) × StandsOn depth text.now (Some (array (before ds no_items))) place × AreEntries ds es.items) }
{
    let Some(place) = place else {
        return Err(Miss::Unread);
    };
    let at = place.start;
    if at > text.len() {
        return Err(Miss::Unread);
    }
    let entries = read_entries(alloc, Cursor { text, at, depth })?;
    if entries.end == place.end && ends_in(text, entries.end, Container::Object) {
        Ok(entries.value)
    } else {
        Err(Miss::Unread)
    }
}

/// Passes over the value that stands there, if a place is given.
fn check_at(text: &str, place: Option<Stretch>, depth: usize) -> Result<(), Miss>
    ensures { OnOk result ((found : Option Data) × StandsOn depth text.now found place) }
{
    let Some(place) = place else {
        return Ok(());
    };
    let at = place.start;
    if at > text.len() {
        return Err(Miss::Unread);
    }
    let passed = pass_member(Cursor { text, at, depth })?;
    if passed == place {
        Ok(())
    } else {
        Err(Miss::Unread)
    }
}

/// The dictionaries that stand there. They are looked at where a column is encoded, and else passed over.
fn dictionaries_at(
    alloc: Global,
    encodings: &[Option<Encoding>],
    text: &str,
    place: Option<Stretch>,
    depth: usize,
) -> Result<Dictionaries, Miss>
    ensures placed { IfOk result HavePlaces }
    ensures ok { IfOk result (λ d. (found : Option Data) × StandsOn depth text.now found place × (ds : List Data) × AreEntries ds d.entries.items
        × (HasSome (map (option_map parts_of) encodings.now) → found ≡ Some (array (before ds no_items)))) }
{
    if has_some(encodings) {
        let entries = entries_at(alloc, text, place, depth)?;
        return dictionaries_of(alloc, entries);
    }
    check_at(text, place, depth)?;
    dictionaries_of(alloc, Vec::new(alloc))
}

/// How the columns of all fields are read, which are encoded so by the dictionaries that stand there.
pub(crate) fn read_catalog(
    alloc: Global,
    encodings: &[Option<Encoding>],
    text: &str,
    place: Option<Stretch>,
    depth: usize,
) -> Result<Vec<Option<Coding>>, Miss>
    ensures { IfOk result (λ cs. (found : Option Data) × StandsOn depth text.now found place
        × AreCodedBy found (map (option_map parts_of) encodings.now) (map (option_map coding_of) cs.items)) }
{
    let dictionaries = dictionaries_at(alloc, encodings, text, place, depth)?;
    codings_by(alloc, &dictionaries, encodings)
}
