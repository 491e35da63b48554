//! The parts of keys, each key once.

ghost use Rattle.std.specs.Prelude.{◌≡◌, ◌∷◌, ◌<◌, ◌≤◌, [], IfOk, None, OnErr, OnOk, Some, length, map, slice_get};
ghost use Rattle.std.specs.Option.{ForSome};
ghost use Rattle.indexmap.specs.IndexSet.{insert_key};
ghost use Rattle.keys.specs.PartSets.{one, parts_listed, parts_of_code, parts_shown, parts_stored, same_parts};

use crate::code_set::CodeSet;
use crate::part::{Part, code_of, part_of_code};
use arrays::NoMemory;
use arrayvec::ArrayVec;
use indexmap::IndexSet;
use std::alloc::Global;

/// The parts of keys in order of coming, each key once.
#[derive(Drop)]
pub(crate) enum PartSet {
    /// Keys of one part each, which has a code.
    Coded(CodeSet),
    /// Keys of one part each. They take a fourth of the memory, so that more of them stay in the processor's caches.
    Alone(IndexSet<Part>),
    /// Any keys.
    Lists(IndexSet<ArrayVec<Part, 4>>),
}

/// A key of a set.
pub(crate) enum Stored<'a> {
    Alone(Part),
    Parts(&'a [Part]),
}

impl PartSet {
    /// No keys, which take no memory until the first.
    pub(crate) fn new(alloc: Global) -> PartSet
        ensures { parts_shown result ≡ [] }
    {
        PartSet::Coded(CodeSet::new(alloc))
    }

    /// How many keys there are.
    pub(crate) fn len(&self) -> usize
        ensures { result ≡ length (parts_shown self.now) }
    {
        match self {
            PartSet::Coded(codes) => codes.len(),
            PartSet::Alone(parts) => parts.len(),
            PartSet::Lists(lists) => lists.len(),
        }
    }

    /// The key at a place.
    #[inline(always)]
    pub(crate) fn key_at(&self, place: usize) -> Stored<'_>
        requires { place < length (parts_shown self.now) }
        ensures there { slice_get (parts_shown self.now) place ≡ Some (parts_stored result) }
        ensures few { length (parts_stored result) ≤ 4 }
    {
        match self {
            PartSet::Coded(codes) => Stored::Alone(part_of_code(codes.code_at(place))),
            PartSet::Alone(parts) => Stored::Alone(parts.as_slice()[place]),
            PartSet::Lists(lists) => Stored::Parts(lists.as_slice()[place].as_slice()),
        }
    }

    /// The place of the key of this part alone, which is put at the end where it is new.
    #[inline(always)]
    pub(crate) fn place_of_part(&mut self, part: Part) -> Result<usize, NoMemory>
        ensures keys { OnOk result (parts_shown self.new ≡ insert_key same_parts (parts_shown self.old) (part ∷ [])) }
        ensures place { IfOk result (λ n. slice_get (parts_shown self.new) n ≡ Some (part ∷ [])) }
        ensures err { OnErr result (parts_shown self.new ≡ parts_shown self.old) }
    {
        match self {
            PartSet::Coded(codes) => match place_in_codes(codes, part)? {
                Some(place) => Ok(place),
                None => self.place_hashed(part),
            },
            PartSet::Alone(parts) => place_in_parts(parts, part),
            PartSet::Lists(lists) => place_in_lists(lists, alone(part)),
        }
    }

    /// The same, once parts that have codes are hashed too.
    #[inline(never)]
    fn place_hashed(&mut self, part: Part) -> Result<usize, NoMemory>
        ensures keys { OnOk result (parts_shown self.new ≡ insert_key same_parts (parts_shown self.old) (part ∷ [])) }
        ensures place { IfOk result (λ n. slice_get (parts_shown self.new) n ≡ Some (part ∷ [])) }
        ensures err { OnErr result (parts_shown self.new ≡ parts_shown self.old) }
    {
        if let PartSet::Coded(codes) = self {
            let mut parts = parts_of(codes)?;
            let place = place_in_parts(&mut parts, part)?;
            *self = PartSet::Alone(parts);
            return Ok(place);
        }
        self.place_listed(alone(part))
    }

    /// The place of the key of these parts, which is put at the end where it is new.
    pub(crate) fn place_of(&mut self, parts: ArrayVec<Part, 4>) -> Result<usize, NoMemory>
        ensures keys { OnOk result (parts_shown self.new ≡ insert_key same_parts (parts_shown self.old) parts.items) }
        ensures place { IfOk result (λ n. slice_get (parts_shown self.new) n ≡ Some parts.items) }
        ensures err { OnErr result (parts_shown self.new ≡ parts_shown self.old) }
    {
        match parts.as_slice() {
            [part] => self.place_of_part(*part),
            _ => self.place_listed(parts),
        }
    }

    /// The same, once all keys are lists.
    fn place_listed(&mut self, parts: ArrayVec<Part, 4>) -> Result<usize, NoMemory>
        ensures keys { OnOk result (parts_shown self.new ≡ insert_key same_parts (parts_shown self.old) parts.items) }
        ensures place { IfOk result (λ n. slice_get (parts_shown self.new) n ≡ Some parts.items) }
        ensures err { OnErr result (parts_shown self.new ≡ parts_shown self.old) }
    {
        let mut lists = match self {
            PartSet::Coded(codes) => lists_of(&parts_of(codes)?)?,
            PartSet::Alone(parts) => lists_of(parts)?,
            PartSet::Lists(lists) => return place_in_lists(lists, parts),
        };
        let place = place_in_lists(&mut lists, parts)?;
        *self = PartSet::Lists(lists);
        Ok(place)
    }
}

/// The place of a part that has a code, which is put at the end where it is new; none where it has no code, or there are too many.
#[inline(always)]
fn place_in_codes(codes: &mut CodeSet, part: Part) -> Result<Option<usize>, NoMemory>
    ensures keys { IfOk result (λ o. ForSome o (λ n. map parts_of_code codes.new
        ≡ insert_key same_parts (map parts_of_code codes.old) (part ∷ []))) }
    ensures place { IfOk result (λ o. ForSome o (λ n. slice_get (map parts_of_code codes.new) n ≡ Some (part ∷ []))) }
    ensures none { IfOk result (λ o. o ≡ None → codes.new ≡ codes.old) }
    ensures err { OnErr result (codes.new ≡ codes.old) }
{
    let Some(code) = code_of(part) else {
        return Ok(None);
    };
    if let Some(place) = codes.place_of(code) {
        return Ok(Some(place));
    }
    codes.add_new(code)
}

/// The place of a part in a set, where it is put at the end where it is new.
#[inline(always)]
fn place_in_parts(parts: &mut IndexSet<Part>, part: Part) -> Result<usize, NoMemory>
    ensures keys { OnOk result (map one parts.new.keys ≡ insert_key same_parts (map one parts.old.keys) (part ∷ [])) }
    ensures place { IfOk result (λ n. slice_get (map one parts.new.keys) n ≡ Some (part ∷ [])) }
    ensures err { OnErr result (map one parts.new.keys ≡ map one parts.old.keys) }
{
    let (place, _is_new) = parts.insert_full(part)?;
    Ok(place)
}

/// The place of parts in a set, where they are put at the end where they are new.
fn place_in_lists(
    lists: &mut IndexSet<ArrayVec<Part, 4>>,
    parts: ArrayVec<Part, 4>,
) -> Result<usize, NoMemory>
    ensures keys { OnOk result (parts_listed lists.new.keys ≡ insert_key same_parts (parts_listed lists.old.keys) parts.items) }
    ensures place { IfOk result (λ n. slice_get (parts_listed lists.new.keys) n ≡ Some parts.items) }
    ensures err { OnErr result (parts_listed lists.new.keys ≡ parts_listed lists.old.keys) }
{
    let (place, _is_new) = lists.insert_full(parts)?;
    Ok(place)
}

/// The parts of these codes, hashed.
fn parts_of(codes: &CodeSet) -> Result<IndexSet<Part>, NoMemory>
    ensures { IfOk result (λ s. map one s.keys ≡ map parts_of_code codes.now) }
{
    let mut parts = IndexSet::new(codes.allocator());
    for place in 0..codes.len() {
        place_in_parts(&mut parts, part_of_code(codes.code_at(place)))?;
    }
    Ok(parts)
}

/// The keys of parts, as lists of parts.
fn lists_of(parts: &IndexSet<Part>) -> Result<IndexSet<ArrayVec<Part, 4>>, NoMemory>
    ensures { IfOk result (λ s. parts_listed s.keys ≡ map one parts.now.keys) }
{
    let mut lists = IndexSet::new(*parts.allocator());
    for part in parts.as_slice() {
        place_in_lists(&mut lists, alone(*part))?;
    }
    Ok(lists)
}

/// A part alone.
fn alone(part: Part) -> ArrayVec<Part, 4>
    ensures { result.items ≡ part ∷ [] }
{
    let mut parts = ArrayVec::new();
    parts.push(part);
    parts
}
