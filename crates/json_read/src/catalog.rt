//! The dictionaries that the fields of a file name.

ghost use Rattle.std.specs.Prelude.{◌≡◌, ◌<◌, length, Some, IfOk, IfErr, OnErr, map, option_map};
ghost use Rattle.std.specs.Bool.{OnFalse, OnTrue};
ghost use Rattle.std.specs.Arc.{arc_value};
ghost use Rattle.json_base.specs.Prelude.{EachFault, IsObject, ReadsEach, Tells, items_view, no_memory, view};
ghost use Rattle.json_read.specs.CatalogParts.{AreCodings, AreNumbered, HasEncodings, HasSome, IsCodingAt, AreWordsOf, IsNoDictionary, coding_of, ids_of};
ghost use Rattle.json_read.specs.EncodingParts.{parts_of};
ghost use Rattle.json_read.specs.JsonCatalog.{HasCatalog, HasDictionary, HasEntries, HasId};
ghost use Rattle.json_read.specs.JsonCatalogFault.{CatalogFault, CodingsFault, EntriesFault, NamedFault, NoId};
ghost use Rattle.json_read.specs.JsonDictionary.{ReadsEntry};
ghost use Rattle.json_read.specs.JsonDictionaryFault.{EntryFault};

use crate::dictionary::read_entry;
use crate::encoding::{Encoding, id_member};
use crate::place::{Place, place_of, places_of};
use arrays::{IntType, Words};
use json_base::member::{array_member, check_object, push};
use json_base::{JsonFault, JsonFaultKind, Member, Step, Value};
use std::alloc::Global;
use std::collections::BTreeMap;
use std::sync::Arc;

/// That a column is indices of this type into these texts.
#[derive(Drop)]
pub struct Coding {
    pub index: IntType,
    pub words: Arc<Words>,
}

/// The number of an entry.
#[tactic(auto, using(crate::proofs::JsonCatalogs::id_faults))]
fn entry_id(alloc: Global, entry: &Value) -> Result<i128, JsonFault>
    ensures ok { IfOk result (HasId (view entry.now)) }
    ensures err { IfErr result (Tells (NoId (view entry.now))) }
{
    check_object(alloc, entry)?;
    id_member(alloc, entry)
}

/// The numbers of all entries.
#[tactic(auto, using(crate::proofs::JsonCatalogs::id_faults))]
fn entry_ids(alloc: Global, entries: &[Value]) -> Result<Vec<i128>, JsonFault>
    ensures ok { IfOk result (λ ids. ReadsEach HasId (items_view entries.now) ids.items) }
    ensures err { IfErr result (Tells (EachFault NoId (items_view entries.now))) }
{
    let mut ids = Vec::new(alloc);
    for (index, entry) in entries.iter().enumerate() {
        let read = entry_id(alloc, entry);
        let id = read.map_err(|fault| fault.under(alloc, Step::Item(index)))?;
        push(alloc, &mut ids, id)?;
    }
    Ok(ids)
}

/// The texts of an entry, to be shared.
#[tactic(auto, using(crate::proofs::JsonCatalogs::named_faults))]
fn read_words(alloc: Global, entry: &Value) -> Result<Arc<Words>, JsonFault>
    requires { IsObject (view entry.now) }
    ensures ok { IfOk result (λ w. ReadsEntry (view entry.now) (arc_value w).items) }
    ensures err { IfErr result (Tells (EntryFault (view entry.now))) }
{
    let words = read_entry(alloc, entry)?;
    Arc::new(alloc, words).map_err(|_| JsonFault::no_memory(alloc))
}

/// The texts of an entry. They are read where no field named it before, and kept for those that follow.
#[tactic(auto, using(crate::proofs::JsonCatalogs::named_faults))]
fn share_words(
    alloc: Global,
    entry: &Value,
    kept: &mut Option<Arc<Words>>,
) -> Result<Arc<Words>, JsonFault>
    requires object { IsObject (view entry.now) }
    requires kept { AreWordsOf (view entry.now) kept.old }
    ensures kept { AreWordsOf (view entry.now) kept.new }
    ensures ok { IfOk result (λ w. ReadsEntry (view entry.now) (arc_value w).items) }
    ensures err { IfErr result (Tells (EntryFault (view entry.now))) }
{
    if let Some(words) = kept {
        return words.clone().map_err(|_| JsonFault::no_memory(alloc));
    }
    let words = read_words(alloc, entry)?;
    let shared = words.clone().map_err(|_| JsonFault::no_memory(alloc))?;
    *kept = Some(words);
    Ok(shared)
}

/// Nothing is kept of any entry yet.
fn kept_of_none(alloc: Global, entries: &[Value]) -> Result<Vec<Option<Arc<Words>>>, JsonFault>
    ensures ok { IfOk result (λ kept. ReadsEach AreWordsOf (items_view entries.now) kept.items) }
    ensures err { IfErr result (λ fault. fault ≡ no_memory) }
{
    let mut kept = Vec::new(alloc);
    for _ in entries {
        push(alloc, &mut kept, None)?;
    }
    Ok(kept)
}

/// The entries of a file, and where each number stands among theirs.
#[derive(Drop)]
struct Entries<'v> {
    values: &'v [Value],
    places: BTreeMap<i128, Place>,
}

/// The fault of a field of this index that names a dictionary that isn't there.
#[cold]
fn no_dictionary(alloc: Global, field: usize) -> JsonFault
    ensures { IsNoDictionary field result }
{
    JsonFault::at(
        alloc,
        JsonFaultKind::NoDictionary,
        &[
            Step::Member(Member::Schema),
            Step::Member(Member::Fields),
            Step::Item(field),
            Step::Member(Member::Dictionary),
            Step::Member(Member::Id),
        ],
    )
}

/// The texts of the one entry of the number, which the field of this index names.
#[tactic(auto, using(crate::proofs::JsonCatalogs::named_faults))]
fn read_dictionary(
    alloc: Global,
    entries: &Entries,
    kept: &mut [Option<Arc<Words>>],
    id: i128,
    field: usize,
) -> Result<Arc<Words>, JsonFault>
    requires placed { AreNumbered (items_view entries.now.values.now) entries.now.places }
    requires kept { ReadsEach AreWordsOf (items_view entries.now.values.now) kept.old }
    ensures kept { ReadsEach AreWordsOf (items_view entries.now.values.now) kept.new }
    ensures ok { let items = items_view entries.now.values.now in
        IfOk result (λ w. HasDictionary items (ids_of items) id (arc_value w).items) }
    ensures err { let items = items_view entries.now.values.now in
        IfErr result (Tells (NamedFault items (ids_of items) field id)) }
{
    match place_of(&entries.places, id) {
        Place::At(index) => match share_words(alloc, &entries.values[index], &mut kept[index]) {
            Ok(words) => Ok(words),
            Err(fault) => {
                let entry = fault.under(alloc, Step::Item(index));
                Err(entry.under(alloc, Step::Member(Member::Dictionaries)))
            }
        },
        Place::Nowhere => Err(no_dictionary(alloc, field)),
        Place::Again(index) => {
            let second = [
                Step::Member(Member::Dictionaries),
                Step::Item(index),
                Step::Member(Member::Id),
            ];
            Err(JsonFault::at(alloc, JsonFaultKind::DictionaryTwice, &second))
        }
    }
}

/// The entries of a document.
#[tactic(auto, using(crate::proofs::JsonCatalogs::entries_faults))]
fn read_entries(alloc: Global, document: &Value) -> Result<Entries<'_>, JsonFault>
    requires { IsObject (view document.now) }
    ensures ok { IfOk result (λ e. let items = items_view e.values.now in HasEntries (view document.now) items (ids_of items)) }
    ensures placed { IfOk result (λ e. AreNumbered (items_view e.values.now) e.places) }
    ensures err { IfErr result (Tells (EntriesFault (view document.now))) }
{
    let values = array_member(alloc, document, Member::Dictionaries)?;
    match entry_ids(alloc, values) {
        Ok(ids) => {
            let places = places_of(alloc, &ids)?;
            Ok(Entries { values, places })
        }
        Err(fault) => Err(fault.under(alloc, Step::Member(Member::Dictionaries))),
    }
}

/// Whether a column is encoded.
pub fn has_some(encodings: &[Option<Encoding>]) -> bool
    ensures some { OnTrue result (HasSome (map (option_map parts_of) encodings.now)) }
    ensures none { OnFalse result (¬ HasSome (map (option_map parts_of) encodings.now)) }
{
    for encoding in encodings {
        if encoding.is_some() {
            return true;
        }
    }
    false
}

/// The entries of a document where a column is encoded. Where none is, they aren't looked at.
fn entries_for<'v>(
    alloc: Global,
    document: &'v Value,
    encodings: &[Option<Encoding>],
) -> Result<Entries<'v>, JsonFault>
    requires { IsObject (view document.now) }
    ensures ok { IfOk result (λ e. HasSome (map (option_map parts_of) encodings.now) →
        HasEntries (view document.now) (items_view e.values.now) (ids_of (items_view e.values.now))) }
    ensures placed { IfOk result (λ e. AreNumbered (items_view e.values.now) e.places) }
    ensures needed { OnErr result (HasSome (map (option_map parts_of) encodings.now)) }
    ensures err { IfErr result (Tells (EntriesFault (view document.now))) }
{
    if has_some(encodings) {
        return read_entries(alloc, document);
    }
    Ok(Entries {
        values: &[],
        places: BTreeMap::new(alloc),
    })
}

/// How the column of the field of this index is read.
#[tactic(auto, using(crate::proofs::JsonCatalogs::codings_faults))]
fn read_coding(
    alloc: Global,
    entries: &Entries,
    kept: &mut [Option<Arc<Words>>],
    encodings: &[Option<Encoding>],
    index: usize,
) -> Result<Option<Coding>, JsonFault>
    requires within { index < length encodings.now }
    requires placed { AreNumbered (items_view entries.now.values.now) entries.now.places }
    requires kept { ReadsEach AreWordsOf (items_view entries.now.values.now) kept.old }
    ensures kept { ReadsEach AreWordsOf (items_view entries.now.values.now) kept.new }
    ensures ok { let items = items_view entries.now.values.now in
        IfOk result (λ c. IsCodingAt items (ids_of items) (map (option_map parts_of) encodings.now) index (option_map coding_of c)) }
    ensures err { let items = items_view entries.now.values.now in
        IfErr result (Tells (CodingsFault items (ids_of items) (map (option_map parts_of) encodings.now))) }
{
    match encodings[index] {
        None => Ok(None),
        Some(encoding) => {
            let words = read_dictionary(alloc, entries, kept, encoding.id, index)?;
            Ok(Some(Coding {
                index: encoding.index,
                words,
            }))
        }
    }
}

/// How the columns of all fields are read. Those that name one entry share its texts.
#[tactic(auto, using(crate::proofs::JsonCatalogs::codings_faults))]
fn read_codings(
    alloc: Global,
    entries: &Entries,
    kept: &mut [Option<Arc<Words>>],
    encodings: &[Option<Encoding>],
) -> Result<Vec<Option<Coding>>, JsonFault>
    requires placed { AreNumbered (items_view entries.now.values.now) entries.now.places }
    requires kept { ReadsEach AreWordsOf (items_view entries.now.values.now) kept.old }
    ensures ok { let items = items_view entries.now.values.now in IfOk result (λ cs. AreCodings items (ids_of items)
        (map (option_map parts_of) encodings.now) (length encodings.now) (map (option_map coding_of) cs.items)) }
    ensures err { let items = items_view entries.now.values.now in
        IfErr result (Tells (CodingsFault items (ids_of items) (map (option_map parts_of) encodings.now))) }
{
    let mut codings = Vec::new(alloc);
    for index in 0..encodings.len() {
        let coding = read_coding(alloc, entries, kept, encodings, index)?;
        push(alloc, &mut codings, coding)?;
    }
    Ok(codings)
}

/// How the column of each field of a document is read.
#[tactic(auto, using(crate::proofs::JsonCatalogs::catalog_faults))]
pub(crate) fn read_catalog(
    alloc: Global,
    document: &Value,
    encodings: &[Option<Encoding>],
) -> Result<Vec<Option<Coding>>, JsonFault>
    requires object { IsObject (view document.now) }
    requires encodings { HasEncodings (view document.now) (map (option_map parts_of) encodings.now) }
    ensures ok { IfOk result (λ cs. HasCatalog (view document.now) (map (option_map coding_of) cs.items)) }
    ensures err { IfErr result (Tells (CatalogFault (view document.now))) }
{
    let entries = entries_for(alloc, document, encodings)?;
    let mut kept = kept_of_none(alloc, entries.values)?;
    read_codings(alloc, &entries, &mut kept, encodings)
}
