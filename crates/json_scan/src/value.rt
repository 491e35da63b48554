//! Values of any shape, passed over. (RFC 8259, sections 3 to 5)

ghost use Rattle.std.specs.Prelude.{◌≡◌, ◌-◌, ◌+◌, ◌<◌, ◌≤◌, ℕ, List, length, drop, get_or, IfOk, IfSome};
ghost use Rattle.serde_json.specs.Data.{Data};
ghost use Rattle.json_scan.specs.Spelling.{IsKey, Spells, SpellsAt};

use crate::literal::read_literal;
use crate::mark::{Container, Mark, empty_end, read_mark};
use crate::miss::Miss;
use crate::number::pass_number;
use crate::space::after_space;
use crate::text::string_end;
use crate::word::byte_at;

/// The place behind the key that stands here, or after spaces, and its colon.
fn pass_key(text: &[u8], at: usize) -> Option<usize>
    requires { at ≤ length text.now }
    ensures reads { IfSome result (λ end. (k : List ℕ) × IsKey (drop at text.now) k (drop end text.now)) }
    ensures onward { IfSome result (λ end. at < end) }
    ensures within { IfSome result (λ end. end ≤ length text.now) }
{
    let quote = after_space(text, at);
    if byte_at(text, quote) != b'"' {
        return None;
    }
    let colon = after_space(text, string_end(text, quote + 1)?);
    if byte_at(text, colon) == b':' {
        Some(colon + 1)
    } else {
        None
    }
}

/// The place behind the literal or the number that stands here.
fn pass_word(text: &[u8], at: usize) -> Option<usize>
    requires { at ≤ length text.now }
    ensures reads { IfSome result (λ end. (d : Data) × Spells (drop at text.now) d (drop end text.now)) }
    ensures onward { IfSome result (λ end. at < end) }
    ensures within { IfSome result (λ end. end ≤ length text.now) }
{
    match read_literal(text, at) {
        Some(literal) => Some(literal.end),
        None => pass_number(text, at),
    }
}

/// The place behind the value that stands here, or after spaces. Arrays and objects in it are nested as deep as `depth` at most.
#[cycle(values)]
pub fn pass_value(text: &[u8], at: usize, depth: usize) -> Option<usize>
    requires { at ≤ length text.now }
    ensures reads { IfSome result (λ end. (d : Data) × SpellsAt depth (drop at text.now) d (drop end text.now)) }
    ensures onward { IfSome result (λ end. at < end) }
    ensures within { IfSome result (λ end. end ≤ length text.now) }
{
    let start = after_space(text, at);
    match byte_at(text, start) {
        b'"' => string_end(text, start + 1),
        b'[' => pass_array(text, start, depth),
        b'{' => pass_object(text, start, depth),
        _ => pass_word(text, start),
    }
}

/// The same of a text.
pub fn pass_over(text: &str, at: usize, depth: usize) -> Result<usize, Miss>
    requires { at ≤ length text.now }
    ensures ok { IfOk result (λ end. (d : Data) × SpellsAt depth (drop at text.now) d (drop end text.now)) }
    ensures onward { IfOk result (λ end. at < end) }
    ensures within { IfOk result (λ end. end ≤ length text.now) }
{
    pass_value(text.as_bytes(), at, depth).ok_or(Miss::Unread)
}

/// The place behind the array of which the opening bracket stands here.
#[cycle(values)]
fn pass_array(text: &[u8], at: usize, depth: usize) -> Option<usize>
    requires bracket { (at < length text.now) × (get_or text.now at 0 ≡ 91) }
    ensures reads { IfSome result (λ end. (d : Data) × SpellsAt depth (drop at text.now) d (drop end text.now)) }
    ensures onward { IfSome result (λ end. at < end) }
    ensures within { IfSome result (λ end. end ≤ length text.now) }
{
    if depth == 0 {
        return None;
    }
    if let Some(end) = empty_end(text, at + 1, Container::Array) {
        return Some(end);
    }
    let mut next = at + 1;
    'items: loop {
        let end = pass_value(text, next, depth - 1)?;
        let mark = read_mark(text, end, Container::Array)?;
        match mark.value {
            Mark::End => return Some(mark.end),
            Mark::Comma => next = mark.end,
        }
    }
}

/// The place behind the object of which the opening brace stands here.
#[cycle(values)]
fn pass_object(text: &[u8], at: usize, depth: usize) -> Option<usize>
    requires brace { (at < length text.now) × (get_or text.now at 0 ≡ 123) }
    ensures reads { IfSome result (λ end. (d : Data) × SpellsAt depth (drop at text.now) d (drop end text.now)) }
    ensures onward { IfSome result (λ end. at < end) }
    ensures within { IfSome result (λ end. end ≤ length text.now) }
{
    if depth == 0 {
        return None;
    }
    if let Some(end) = empty_end(text, at + 1, Container::Object) {
        return Some(end);
    }
    let mut next = at + 1;
    'members: loop {
        let value = pass_key(text, next)?;
        let end = pass_value(text, value, depth - 1)?;
        let mark = read_mark(text, end, Container::Object)?;
        match mark.value {
            Mark::End => return Some(mark.end),
            Mark::Comma => next = mark.end,
        }
    }
}
