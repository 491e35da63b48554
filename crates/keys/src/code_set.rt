//! Codes, each once.

ghost use Rattle.std.specs.Prelude.{◌≡◌, ◌+◌, ◌<◌, ◌^◌, ◌++◌, ◌∷◌, [], IfOk, None, OnErr, OnOk, Some, false, if◌then◌else◌, length, nat_eq, slice_get, slice_index_or, ℕ};
ghost use Rattle.std.specs.Option.{ForSome};
ghost use Rattle.std.specs.List.{IsDistinct, list_any};
ghost use Rattle.keys.specs.CodeSets.{place_end};

use crate::part::NEAR;
use arrays::NoMemory;
use std::alloc::Global;
use std::marker::Model;

/// Codes of parts in order of coming, each once. A table tells where each stands, which takes one look; a hashed part takes two, of
/// which the second waits for the first.
#[derive(Drop)]
pub(crate) struct CodeSet {
    codes: Vec<u32>,
    /// One more than the place of each code of a number, 0 where it has none.
    numbers: Vec<u32>,
    /// The same of the codes behind these.
    others: Vec<u32>,
}

impl Model for CodeSet {
    ghost use Rattle.std.specs.Prelude.{List, ℕ};
    ghost use Rattle.std.specs.Coded.{coded_list, coded_ℕ};
    ghost use Rattle.keys.specs.CodeSets.{ArePlaced, place_end};

    ghost Value = { List ℕ };

    ghost coded = { coded_list coded_ℕ };

    ghost view = { λ s. s.codes.items };

    ghost invariant = { λ s. ArePlaced s.codes.items (place_end s.numbers.items s.others.items) };
}

impl CodeSet {
    /// No codes, which take no memory until the first.
    pub(crate) fn new(alloc: Global) -> CodeSet
        ensures { result ≡ [] }
    {
        CodeSet {
            codes: Vec::new(alloc),
            numbers: Vec::new(alloc),
            others: Vec::new(alloc),
        }
    }

    /// How many codes there are. No code comes twice.
    pub(crate) fn len(&self) -> usize
        ensures count { result ≡ length self.now }
        ensures once { IsDistinct nat_eq self.now }
    {
        self.codes.len()
    }

    pub(crate) fn allocator(&self) -> Global {
        *self.codes.allocator()
    }

    /// The code at a place.
    #[inline(always)]
    pub(crate) fn code_at(&self, place: usize) -> u32
        requires { place < length self.now }
        ensures { slice_get self.now place ≡ Some result }
    {
        self.codes[place]
    }

    /// The place of a code, none where it isn't there.
    #[inline(always)]
    pub(crate) fn place_of(&self, code: u32) -> Option<usize>
        ensures there { ForSome result (λ n. slice_get self.now n ≡ Some code) }
        ensures absent { result ≡ None → list_any (nat_eq code) self.now ≡ false }
    {
        match place_end(self.numbers.as_slice(), self.others.as_slice(), code) {
            0 => None,
            end => Some(end as usize - 1),
        }
    }

    /// Puts a code at the end that isn't there, and tells its place; none where there are too many.
    pub(crate) fn add_new(&mut self, code: u32) -> Result<Option<usize>, NoMemory>
        requires { list_any (nat_eq code) self.old ≡ false }
        ensures codes { IfOk result (λ o. ForSome o (λ n. self.new ≡ self.old ++ code ∷ [])) }
        ensures place { IfOk result (λ o. ForSome o (λ n. slice_get self.new n ≡ Some code)) }
        ensures full { IfOk result (λ o. o ≡ None → self.new ≡ self.old) }
        ensures err { OnErr result (self.new ≡ self.old) }
    {
        let place = self.codes.len();
        let Ok(end) = u32::try_from(place + 1) else {
            return Ok(None);
        };
        self.codes.reserve(1)?;
        put_end(&mut self.numbers, &mut self.others, code, end)?;
        self.codes.push_reserved(code);
        Ok(Some(place))
    }
}

/// One more than the place of a code, by both tables.
#[inline(always)]
fn place_end(numbers: &[u32], others: &[u32], code: u32) -> u32
    ensures { result ≡ place_end numbers.now others.now code }
{
    if code < NEAR {
        end_at(numbers, code as usize)
    } else {
        end_at(others, (code - NEAR) as usize)
    }
}

/// What a table tells of a place, 0 past its end.
#[inline(always)]
fn end_at(ends: &[u32], place: usize) -> u32
    ensures { result ≡ slice_index_or ends.now place 0 }
{
    if place < ends.len() { ends[place] } else { 0 }
}

/// Has the tables tell of a code that it stands before this place, and of others what they gave.
fn put_end(
    numbers: &mut Vec<u32>,
    others: &mut Vec<u32>,
    code: u32,
    end: u32,
) -> Result<(), NoMemory>
    ensures put { (c : ℕ) → OnOk result (place_end numbers.new.items others.new.items c
        ≡ (if nat_eq c code then end else place_end numbers.old.items others.old.items c)) }
    ensures err { (c : ℕ) → OnErr result (place_end numbers.new.items others.new.items c
        ≡ place_end numbers.old.items others.old.items c) }
{
    if code < NEAR {
        put_at(numbers, code as usize, end)
    } else {
        put_at(others, (code - NEAR) as usize, end)
    }
}

/// Has a table tell this of a place, and of others what it gave.
fn put_at(ends: &mut Vec<u32>, place: usize, end: u32) -> Result<(), NoMemory>
    requires { place < 2 ^ 32 }
    ensures put { (k : ℕ) → OnOk result (slice_index_or ends.new.items k 0
        ≡ (if nat_eq k place then end else slice_index_or ends.old.items k 0)) }
    ensures err { OnErr result (ends.new.items ≡ ends.old.items) }
{
    if ends.len() <= place {
        ends.resize(place + 1, 0)?;
    }
    ends[place] = end;
    Ok(())
}
