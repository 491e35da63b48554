//! Arrays, an item at a time. (RFC 8259, section 5)

ghost use Rattle.std.specs.Prelude.{◌≡◌, ◌-◌, ◌<◌, ◌≤◌, ◌++◌, ◌∷◌, [], ℕ, List, length, drop, get_or, IfOk};
ghost use Rattle.serde_json.specs.Data.{Data, array, no_items};
ghost use Rattle.json_scan.specs.Scalars.{AreIntegers};
ghost use Rattle.json_scan.specs.Spelling.{SpellsAt, before};

use crate::mark::{Container, Mark, empty_end, next_mark};
use crate::miss::{Miss, ScanResult, push};
use crate::number::read_integer;
use crate::space::{Placed, after_space};
use crate::word::byte_at;
use std::alloc::Global;

/// Takes the items of an array as they come.
pub trait ItemVisitor {
    /// What holds after the items of a text that are nested so deep: of the visitor as it was before them, and as it is.
    ghost holds: { List ℕ → ℕ → Self → List Data → Self → Type 0 };

    /// Takes the item that stands here, or after spaces, nested as deep as `depth` at most, and gives the place behind it.
    fn visit(&mut self, text: &str, at: usize, depth: usize) -> Result<usize, Miss>
        requires { at ≤ length text.now }
        ensures ok { IfOk result (λ end. (d : Data) × SpellsAt depth (drop at text.now) d (drop end text.now)
            × ((first : Self) (ds : List Data) → holds text.now depth first ds self.old → holds text.now depth first (ds ++ d ∷ []) self.new)) }
        ensures onward { IfOk result (λ end. at < end) }
        ensures within { IfOk result (λ end. end ≤ length text.now) };
}

/// Gives a visitor the items of the array that stands here, or after spaces, nested as deep as `depth` at most. The place is the one behind the
/// array.
pub fn read_array<V: ItemVisitor>(
    text: &str,
    at: usize,
    depth: usize,
    visitor: &mut V,
) -> Result<usize, Miss>
    requires { at ≤ length text.now }
    ensures ok { IfOk result (λ end. (ds : List Data) × SpellsAt depth (drop at text.now) (array (before ds no_items)) (drop end text.now)
        × (V.holds text.now (depth - 1) visitor.old [] visitor.old → V.holds text.now (depth - 1) visitor.old ds visitor.new)) }
    ensures onward { IfOk result (λ end. at < end) }
    ensures within { IfOk result (λ end. end ≤ length text.now) }
{
    let bytes = text.as_bytes();
    let start = after_space(bytes, at);
    if depth == 0 || byte_at(bytes, start) != b'[' {
        return Err(Miss::Unread);
    }
    if let Some(end) = empty_end(bytes, start + 1, Container::Array) {
        return Ok(end);
    }
    let mut next = start + 1;
    'items: loop {
        let end = visitor.visit(text, next, depth - 1)?;
        let mark = next_mark(text, end, Container::Array)?;
        match mark.value {
            Mark::End => return Ok(mark.end),
            Mark::Comma => next = mark.end,
        }
    }
}

/// The integers that were taken.
#[derive(Drop)]
struct Integers {
    values: Vec<i128>,
}

impl ItemVisitor for Integers {
    ghost holds = { λ text depth first ds now. AreIntegers ds now.values.items };

    fn visit(&mut self, text: &str, at: usize, _depth: usize) -> Result<usize, Miss> {
        let Some(read) = read_integer(text.as_bytes(), at) else {
            return Err(Miss::Unread);
        };
        push(&mut self.values, read.value)?;
        Ok(read.end)
    }
}

/// The integers of the array that stands here, or after spaces. At a depth of 0 no array is read.
pub fn read_integers(alloc: Global, text: &str, at: usize, depth: usize) -> ScanResult<Vec<i128>>
    requires { at ≤ length text.now }
    ensures ok { IfOk result (λ r. (ds : List Data) × SpellsAt depth (drop at text.now) (array (before ds no_items)) (drop r.end text.now)
        × AreIntegers ds r.value.items) }
    ensures onward { IfOk result (λ r. at < r.end) }
    ensures within { IfOk result (λ r. r.end ≤ length text.now) }
{
    let mut integers = Integers {
        values: Vec::new(alloc),
    };
    let end = read_array(text, at, depth, &mut integers)?;
    Ok(Placed {
        value: integers.values,
        end,
    })
}
