//! What a document says before its batches, wherever it stands.

ghost use Rattle.std.specs.Prelude.{map, option_map, Some, IfOk};
ghost use Rattle.std.specs.Arc.{arc_value};
ghost use Rattle.json_read.specs.Prelude.{AreEncoded, Data, HasCatalog, HasSchema, ReadsSchema, coding_of, parts_of, view};
ghost use Rattle.json_stream.specs.Prelude.{HasValue, IsBehind, StandsOn};
ghost use Rattle.json_file.specs.Document.{StandsAt};

use crate::catalog::read_catalog;
use json_read::{EncodedSchema, FileHead, JsonFaultKind, Member, Value, read_schema};
use json_scan::{Container, Miss, ends_in, pass_over, read_key, read_value};
use json_stream::{Cursor, Stretch, member_stretch};
use memchr::memmem;
use std::alloc::Global;

/// Where `schema` and `dictionaries` stand, if they are there.
#[derive(Clone, Copy, Drop, PartialEq, Eq)]
pub(crate) struct HeadPlaces {
    pub schema: Option<Stretch>,
    pub dictionaries: Option<Stretch>,
}

/// Where the value of a member stands that begins at the cursor, or after spaces.
pub(crate) fn pass_member(cursor: Cursor) -> Result<Stretch, Miss>
    ensures stands { IfOk result (λ s. HasValue cursor.entry s.end (λ d. StandsOn cursor.entry.depth cursor.entry.text.now (Some d) (Some s))) }
    ensures onward { IfOk result (λ s. IsBehind cursor.entry s.end) }
{
    let end = pass_over(cursor.text, cursor.at, cursor.depth)?;
    let place = member_stretch(cursor, end)?;
    Ok(place)
}

/// Where the value of the last member of that name stands in the text, of whatever object it is one: a guess.
fn last_member(alloc: Global, text: &str, name: &str, depth: usize) -> Option<Stretch> {
    let at = memmem::rfind(text.as_bytes(), name.as_bytes())?.checked_sub(1)?;
    if at > text.len() {
        return None;
    }
    let mut buffer = Vec::new(alloc);
    let key = read_key(text, at, &mut buffer).ok()?;
    if key.value == name {
        let at = key.end;
        pass_member(Cursor { text, at, depth }).ok()
    } else {
        None
    }
}

impl HeadPlaces {
    /// The same places; where one isn't known, where it may be.
    pub(crate) fn guessed(self, alloc: Global, text: &str, depth: usize) -> HeadPlaces {
        let HeadPlaces {
            schema,
            dictionaries,
        } = self;
        HeadPlaces {
            schema: match schema {
                Some(place) => Some(place),
                None => last_member(alloc, text, Member::Schema.name(), depth),
            },
            dictionaries: match dictionaries {
                Some(place) => Some(place),
                None => last_member(alloc, text, Member::Dictionaries.name(), depth),
            },
        }
    }
}

/// The value that stands there.
fn value_at(alloc: Global, text: &str, place: Stretch, depth: usize) -> Result<Value, Miss>
    ensures { IfOk result (λ v. StandsOn depth text.now (Some (view v)) (Some place)) }
{
    if place.start > text.len() {
        return Err(Miss::Unread);
    }
    let read = read_value(alloc, text, place.start, depth)?;
    if read.end == place.end && ends_in(text, read.end, Container::Object) {
        Ok(read.value)
    } else {
        Err(Miss::Unread)
    }
}

/// The schema that stands there, and how the column of each of its fields is encoded.
fn schema_at(
    alloc: Global,
    text: &str,
    place: Option<Stretch>,
    depth: usize,
) -> Result<EncodedSchema, Miss>
    ensures { IfOk result (λ s. (d : Data) × StandsOn depth text.now (Some d) place
        × ReadsSchema d (arc_value s.schema) × AreEncoded d (map (option_map parts_of) s.encodings.items)) }
{
    let Some(place) = place else {
        return Err(Miss::Unread);
    };
    let value = value_at(alloc, text, place, depth)?;
    match read_schema(alloc, &value) {
        Ok(schema) => Ok(schema),
        Err(fault) => if fault.kind == JsonFaultKind::NoMemory {
            Err(Miss::NoMemory)
        } else {
            Err(Miss::Unread)
        },
    }
}

/// What is said there, if it is whole and lawful.
pub(crate) fn head_at(
    alloc: Global,
    text: &str,
    places: HeadPlaces,
    depth: usize,
) -> Result<FileHead, Miss>
    ensures { IfOk result (λ h. (head : Data) × StandsAt depth text.now head places
        × HasSchema head (arc_value h.schema) × HasCatalog head (map (option_map coding_of) h.catalog.items)) }
{
    let EncodedSchema { schema, encodings } = schema_at(alloc, text, places.schema, depth)?;
    let catalog = read_catalog(alloc, &encodings, text, places.dictionaries, depth)?;
    Ok(FileHead { schema, catalog })
}
