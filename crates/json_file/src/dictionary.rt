//! The dictionaries of a file: the entries of its `dictionaries`.

ghost use Rattle.std.specs.Prelude.{◌≡◌, ◌<◌, ◌≤◌, List, Some, length, drop, IfOk, IfSome};
ghost use Rattle.std.specs.Arc.{arc_value};
ghost use Rattle.json_read.specs.Prelude.{Data, WrapsTexts, id_of};
ghost use Rattle.json_scan.specs.Spelling.{Spells};
ghost use Rattle.json_stream.specs.Cursor.{HasValue, HasValues, IsBehind};
ghost use Rattle.json_file.specs.Dictionary.{AreEntries, AreWords, IsEntry};

use crate::texts::read_texts;
use arrays::{INT64, Words};
use json_read::Member;
use json_scan::{
    ItemVisitor, MemberVisitor, Miss, Placed, ScanResult, pass_over, push, read_array, read_object,
};
use json_stream::{Cursor, read_whole};
use std::alloc::Global;
use std::sync::Arc;

/// An entry: the number of a dictionary, and its texts.
#[derive(Drop)]
pub(crate) struct DictionaryEntry {
    pub id: i128,
    /// None where they aren't read, which is missed only if a field names the dictionary.
    pub words: Option<Arc<Words>>,
}

/// The number of a dictionary that stands here, or after spaces.
fn read_id(text: &str, at: usize) -> Option<Placed<i128>>
    requires { at ≤ length text.now }
    ensures reads { IfSome result (λ r. (d : Data) × (id_of d ≡ Some r.value) × Spells (drop at text.now) d (drop r.end text.now)) }
    ensures onward { IfSome result (λ r. at < r.end) }
    ensures within { IfSome result (λ r. r.end ≤ length text.now) }
{
    let id = read_whole(text, at)?;
    if INT64.holds(id.value) {
        Some(id)
    } else {
        None
    }
}

/// The texts of what an entry has as its `data`, which stands here, or after spaces, to be shared.
fn read_words(alloc: Global, cursor: Cursor) -> ScanResult<Arc<Words>>
    ensures ok { IfOk result (λ r. HasValue cursor.entry r.end (λ d. WrapsTexts d (arc_value r.value).items)) }
    ensures onward { IfOk result (λ r. IsBehind cursor.entry r.end) }
{
    let texts = read_texts(alloc, cursor)?;
    match Arc::new(alloc, Words::of(texts.value)) {
        Ok(value) => Ok(Placed {
            value,
            end: texts.end,
        }),
        Err(_) => Err(Miss::NoMemory),
    }
}

/// The same; what isn't read so is passed over.
fn read_or_pass(alloc: Global, cursor: Cursor) -> ScanResult<Option<Arc<Words>>>
    ensures ok { IfOk result (λ r. HasValue cursor.entry r.end (λ d. AreWords (Some d) r.value)) }
    ensures onward { IfOk result (λ r. IsBehind cursor.entry r.end) }
{
    match read_words(alloc, cursor) {
        Ok(words) => return Ok(Placed {
            value: Some(words.value),
            end: words.end,
        }),
        Err(Miss::NoMemory) => return Err(Miss::NoMemory),
        Err(Miss::Unread) => {}
    }
    let end = pass_over(cursor.text, cursor.at, cursor.depth)?;
    Ok(Placed { value: None, end })
}

/// What has been read of an entry.
#[derive(Drop)]
pub(crate) struct EntryParts {
    alloc: Global,
    pub id: Option<i128>,
    pub words: Option<Arc<Words>>,
}

impl MemberVisitor for EntryParts {
    ghost use Rattle.json_file.specs.Dictionary.{HoldsEntry};

    ghost holds = { λ text depth first ms now. HoldsEntry ms now };

    fn visit(&mut self, text: &str, name: &str, at: usize, depth: usize) -> Result<usize, Miss> {
        if name == Member::Id.name() {
            let Some(id) = read_id(text, at) else {
                return Err(Miss::Unread);
            };
            self.id = Some(id.value);
            return Ok(id.end);
        }
        if name == Member::Texts.name() {
            let words = read_or_pass(self.alloc, Cursor { text, at, depth })?;
            self.words = words.value;
            return Ok(words.end);
        }
        pass_over(text, at, depth)
    }
}

/// The entry that stands here, or after spaces.
fn read_entry(alloc: Global, cursor: Cursor) -> ScanResult<DictionaryEntry>
    ensures ok { IfOk result (λ r. HasValue cursor.entry r.end (λ d. IsEntry d r.value)) }
    ensures onward { IfOk result (λ r. IsBehind cursor.entry r.end) }
{
    let mut parts = EntryParts {
        alloc,
        id: None,
        words: None,
    };
    let end = read_object(alloc, cursor.text, cursor.at, cursor.depth, &mut parts)?;
    let EntryParts { id, words, .. } = parts;
    let Some(id) = id else {
        return Err(Miss::Unread);
    };
    Ok(Placed {
        value: DictionaryEntry { id, words },
        end,
    })
}

/// The entries so far.
#[derive(Drop)]
struct Entries {
    alloc: Global,
    entries: Vec<DictionaryEntry>,
}

impl ItemVisitor for Entries {
    ghost use Rattle.json_file.specs.Dictionary.{AreEntries};

    ghost holds = { λ text depth first ds now. AreEntries ds now.entries.items };

    fn visit(&mut self, text: &str, at: usize, depth: usize) -> Result<usize, Miss> {
        let entry = read_entry(self.alloc, Cursor { text, at, depth })?;
        push(&mut self.entries, entry.value)?;
        Ok(entry.end)
    }
}

/// The entries that stand here, or after spaces.
pub(crate) fn read_entries(alloc: Global, cursor: Cursor) -> ScanResult<Vec<DictionaryEntry>>
    ensures ok { IfOk result (λ r. HasValues cursor.entry r.end (λ ds. AreEntries ds r.value.items)) }
    ensures onward { IfOk result (λ r. IsBehind cursor.entry r.end) }
{
    let mut entries = Entries {
        alloc,
        entries: Vec::new(alloc),
    };
    let end = read_array(cursor.text, cursor.at, cursor.depth, &mut entries)?;
    let Entries { entries, .. } = entries;
    Ok(Placed {
        value: entries,
        end,
    })
}
