//! The document of a file: its members in any order, of those of one name the last.

ghost use Rattle.std.specs.Prelude.{◌≡◌, ◌<◌, ◌≤◌, Option, Some, length, drop, IfOk, IfSome};
ghost use Rattle.json_read.specs.Prelude.{AreUnder, Data, Members, Reads, ReadsFile, file_of, object};
ghost use Rattle.json_stream.specs.Prelude.{HasValue, IsBehind, StandsOn};
ghost use Rattle.json_file.specs.Document.{HoldsDocument, HoldsFile, IsFileAt, StandsAt};

use crate::batches::read_batches;
use crate::head::{HeadPlaces, head_at, pass_member};
use arrays::File;
use json_read::{FileHead, Member};
use json_scan::{MemberVisitor, Miss, Placed, ScanResult, after_space, pass_over, read_object};
use json_stream::{Cursor, Stretch, member_stretch};
use std::alloc::Global;

/// How deep a document may be nested. (`serde_json`, recursion limit)
pub(crate) const MAX_DEPTH: usize = 127;

/// A file, by the schema and the dictionaries that stand there.
#[derive(Drop)]
pub(crate) struct FileAt {
    pub places: HeadPlaces,
    pub file: File,
}

/// What has been read of a document.
#[derive(Drop)]
pub(crate) struct DocumentParts {
    alloc: Global,
    pub places: HeadPlaces,
    /// Where `batches` stands.
    pub batches: Option<Stretch>,
    /// The file by what stood before its batches, or by what was taken for what decides how they are read; none where batches come again.
    pub file: Option<FileAt>,
}

/// The file whose batches stand here, or after spaces, by the schema and the dictionaries that stand at those places.
fn read_by(alloc: Global, places: HeadPlaces, cursor: Cursor) -> ScanResult<File>
    ensures ok { IfOk result (λ r. HasValue cursor.entry r.end (λ d. (head : Data) × StandsAt cursor.entry.depth cursor.entry.text.now head places
        × HoldsFile head (Some d) r.value)) }
    ensures onward { IfOk result (λ r. IsBehind cursor.entry r.end) }
{
    let FileHead { schema, catalog } = head_at(alloc, cursor.text, places, cursor.depth)?;
    let batches = read_batches(
        alloc,
        &schema,
        &catalog,
        cursor.text,
        cursor.at,
        cursor.depth,
    )?;
    Ok(Placed {
        value: File::new(schema, batches.value),
        end: batches.end,
    })
}

/// The same where it is known, or can be guessed, how they are read; else, or where the guess is wrong, they are passed over.
fn read_or_pass(alloc: Global, known: HeadPlaces, cursor: Cursor) -> ScanResult<Option<FileAt>>
    ensures ok { IfOk result (λ r. HasValue cursor.entry r.end (λ d. IsFileAt cursor.entry.depth cursor.entry.text.now (Some d) r.value)) }
    ensures onward { IfOk result (λ r. IsBehind cursor.entry r.end) }
{
    let places = known.guessed(alloc, cursor.text, cursor.depth);
    match read_by(alloc, places, cursor) {
        Ok(read) => return Ok(Placed {
            value: Some(FileAt {
                places,
                file: read.value,
            }),
            end: read.end,
        }),
        Err(Miss::NoMemory) => return Err(Miss::NoMemory),
        Err(Miss::Unread) => {}
    }
    let end = pass_over(cursor.text, cursor.at, cursor.depth)?;
    Ok(Placed { value: None, end })
}

impl MemberVisitor for DocumentParts {
    ghost use Rattle.json_file.specs.Document.{HoldsDocument};

    ghost holds = { λ text depth first ms now. HoldsDocument depth text ms now };

    fn visit(&mut self, text: &str, name: &str, at: usize, depth: usize) -> Result<usize, Miss> {
        let cursor = Cursor { text, at, depth };
        if name == Member::Batches.name() && self.batches.is_none() {
            let batches = read_or_pass(self.alloc, self.places, cursor)?;
            let place = member_stretch(cursor, batches.end)?;
            self.batches = Some(place);
            self.file = batches.value;
            return Ok(batches.end);
        }
        let place = pass_member(cursor)?;
        if name == Member::Schema.name() {
            self.places.schema = Some(place);
        } else if name == Member::Dictionaries.name() {
            self.places.dictionaries = Some(place);
        } else if name == Member::Batches.name() {
            // Each would be read with the schema and the dictionaries, which would take the square of their number.
            self.batches = Some(place);
            self.file = None;
        }
        Ok(place.end)
    }
}

/// The file whose batches stand there.
fn file_at(
    alloc: Global,
    places: HeadPlaces,
    text: &str,
    batches: Option<Stretch>,
    depth: usize,
) -> Result<File, Miss>
    ensures { IfOk result (λ f. (found : Option Data) → StandsOn depth text.now found batches
        → (head : Data) × StandsAt depth text.now head places × HoldsFile head found f) }
{
    let Some(place) = batches else {
        return Err(Miss::Unread);
    };
    let at = place.start;
    if at > text.len() {
        return Err(Miss::Unread);
    }
    let read = read_by(alloc, places, Cursor { text, at, depth })?;
    if read.end == place.end {
        Ok(read.value)
    } else {
        Err(Miss::Unread)
    }
}

/// The file of these parts.
fn file_in(parts: DocumentParts, text: &str, depth: usize) -> Result<File, Miss>
    ensures under { IfOk result (λ f. (ms : Members) → HoldsDocument depth text.now ms parts → AreUnder f.fields f.batches) }
    ensures ok { IfOk result (λ f. (ms : Members) → HoldsDocument depth text.now ms parts → ReadsFile (object ms) (file_of f)) }
{
    let DocumentParts {
        alloc,
        places,
        batches,
        file,
    } = parts;
    if let Some(found) = file {
        if found.places == places {
            return Ok(found.file);
        }
    }
    file_at(alloc, places, text, batches, depth)
}

/// The file of a text. Where the text is at fault, or is written in a way that isn't read here, there is none, and `json_read` tells why.
pub fn read_text(alloc: Global, text: &str) -> Result<File, Miss>
    ensures ok { IfOk result (λ f. Reads text.now (file_of f)) }
    ensures under { IfOk result (λ f. AreUnder f.fields f.batches) }
{
    let mut parts = DocumentParts {
        alloc,
        places: HeadPlaces {
            schema: None,
            dictionaries: None,
        },
        batches: None,
        file: None,
    };
    let end = read_object(alloc, text, 0, MAX_DEPTH, &mut parts)?;
    if after_space(text.as_bytes(), end) < text.len() {
        return Err(Miss::Unread);
    }
    file_in(parts, text, MAX_DEPTH - 1)
}
