//! Objects, a member at a time. (RFC 8259, section 4)

ghost use Rattle.std.specs.Prelude.{◌≡◌, ◌-◌, ◌<◌, ◌≤◌, ◌∷◌, ℕ, List, length, drop, get_or, IfOk, IfSome};
ghost use Rattle.serde_json.specs.Data.{Data, object, Members, no_members, put};
ghost use Rattle.json_scan.specs.Member.{IsMemberAt};
ghost use Rattle.json_scan.specs.Spelling.{SpellsAt};

use crate::mark::{Container, Mark, empty_end, next_mark};
use crate::miss::{Miss, ScanResult};
use crate::space::{Placed, after_space};
use crate::text::read_key;
use crate::value::pass_over;
use crate::word::byte_at;
use std::alloc::Global;

/// Takes the members of an object as they come, of two of one name the second after the first.
pub trait MemberVisitor {
    /// What holds after the members of a text whose values are nested so deep: of the visitor as it was before them, and as it is.
    ghost holds: { List ℕ → ℕ → Self → Members → Self → Type 0 };

    /// Takes the member of this name whose value stands here, or after spaces, nested as deep as `depth` at most, and gives the place behind it.
    fn visit(&mut self, text: &str, name: &str, at: usize, depth: usize) -> Result<usize, Miss>
        requires { at ≤ length text.now }
        ensures ok { IfOk result (λ end. (d : Data) × SpellsAt depth (drop at text.now) d (drop end text.now)
            × ((first : Self) (ms : Members) → holds text.now depth first ms self.old → holds text.now depth first (put name.now d ms) self.new)) }
        ensures onward { IfOk result (λ end. at < end) }
        ensures within { IfOk result (λ end. end ≤ length text.now) };
}

/// Gives a visitor the members of the object that stands here, or after spaces, nested as deep as `depth` at most. The place is the one behind the
/// object. A key with an escape wants memory.
pub fn read_object<V: MemberVisitor>(
    alloc: Global,
    text: &str,
    at: usize,
    depth: usize,
    visitor: &mut V,
) -> Result<usize, Miss>
    requires { at ≤ length text.now }
    ensures ok { IfOk result (λ end. (ms : Members) × SpellsAt depth (drop at text.now) (object ms) (drop end text.now)
        × (V.holds text.now (depth - 1) visitor.old no_members visitor.old → V.holds text.now (depth - 1) visitor.old ms visitor.new)) }
    ensures onward { IfOk result (λ end. at < end) }
    ensures within { IfOk result (λ end. end ≤ length text.now) }
{
    let bytes = text.as_bytes();
    let start = after_space(bytes, at);
    if depth == 0 || byte_at(bytes, start) != b'{' {
        return Err(Miss::Unread);
    }
    if let Some(end) = empty_end(bytes, start + 1, Container::Object) {
        return Ok(end);
    }
    let mut buffer = Vec::new(alloc);
    let mut next = start + 1;
    'members: loop {
        let key = read_key(text, next, &mut buffer)?;
        let end = visitor.visit(text, key.value, key.end, depth - 1)?;
        let mark = next_mark(text, end, Container::Object)?;
        match mark.value {
            Mark::End => return Ok(mark.end),
            Mark::Comma => next = mark.end,
        }
    }
}

/// Notes the place of the last member of a name, and passes over all values.
#[derive(Drop)]
struct MemberPlace<'n> {
    name: &'n str,
    place: Option<usize>,
}

impl MemberVisitor for MemberPlace<'_> {
    ghost holds = { λ text depth first ms now. (now.name ≡ first.name) × IsMemberAt depth text first.name.now ms now.place };

    fn visit(&mut self, text: &str, name: &str, at: usize, depth: usize) -> Result<usize, Miss> {
        let end = pass_over(text, at, depth)?;
        if name == self.name {
            self.place = Some(at);
        }
        Ok(end)
    }
}

/// In the object that stands here, or after spaces: the place from which the value of the last member of that name is read, if there is one,
/// and the place behind the object.
pub fn find_member(
    alloc: Global,
    text: &str,
    at: usize,
    depth: usize,
    name: &str,
) -> ScanResult<Option<usize>>
    requires { at ≤ length text.now }
    ensures ok { IfOk result (λ r. (ms : Members) × SpellsAt depth (drop at text.now) (object ms) (drop r.end text.now)
        × IsMemberAt (depth - 1) text.now name.now ms r.value) }
    ensures onward { IfOk result (λ r. at < r.end) }
    ensures within { IfOk result (λ r. r.end ≤ length text.now) }
{
    let mut member = MemberPlace { name, place: None };
    let end = read_object(alloc, text, at, depth, &mut member)?;
    Ok(Placed {
        value: member.place,
        end,
    })
}
