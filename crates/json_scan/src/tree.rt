//! Values of any shape, read as trees. (RFC 8259, sections 3 to 7)

ghost use Rattle.std.specs.Prelude.{◌≡◌, ◌<◌, ◌≤◌, length, drop, get_or, IfOk};
ghost use Rattle.serde_json.specs.View.{view};
ghost use Rattle.json_scan.specs.Scalars.{literal_data};
ghost use Rattle.json_scan.specs.Spelling.{Spells, SpellsAt};

use crate::literal::{Literal, read_literal};
use crate::mark::{Container, Mark, empty_end, next_mark};
use crate::miss::{Miss, ScanResult, push};
use crate::number::{number_word, read_integer};
use crate::space::{Placed, after_space};
use crate::text::{read_key, read_text};
use crate::word::byte_at;
use serde_json::{Map, Number, Value, put};
use std::alloc::Global;

fn literal_value(literal: Literal) -> Value
    ensures { view result ≡ literal_data literal }
{
    match literal {
        Literal::Null => Value::Null,
        Literal::Bool(truth) => Value::Bool(truth),
    }
}

/// The number that stands here, or after spaces. Most are whole, and these want no memory.
fn read_number_value(alloc: Global, text: &[u8], at: usize) -> ScanResult<Value>
    requires { at ≤ length text.now }
    ensures ok { IfOk result (λ r. Spells (drop at text.now) (view r.value) (drop r.end text.now)) }
    ensures onward { IfOk result (λ r. at < r.end) }
    ensures within { IfOk result (λ r. r.end ≤ length text.now) }
{
    if let Some(integer) = read_integer(text, at)
        && let Some(number) = Number::from_i128(integer.value)
    {
        return Ok(Placed {
            value: Value::Number(number),
            end: integer.end,
        });
    }
    let Some(word) = number_word(text, at) else {
        return Err(Miss::Unread);
    };
    match Value::from_slice(alloc, word.value) {
        Ok(value) => Ok(Placed {
            value,
            end: word.end,
        }),
        Err(error) => if error.is_memory() {
            Err(Miss::NoMemory)
        } else {
            Err(Miss::Unread)
        },
    }
}

/// The literal or the number that stands here, or after spaces.
fn read_word_value(alloc: Global, text: &[u8], at: usize) -> ScanResult<Value>
    requires { at ≤ length text.now }
    ensures ok { IfOk result (λ r. Spells (drop at text.now) (view r.value) (drop r.end text.now)) }
    ensures onward { IfOk result (λ r. at < r.end) }
    ensures within { IfOk result (λ r. r.end ≤ length text.now) }
{
    match read_literal(text, at) {
        Some(literal) => Ok(Placed {
            value: literal_value(literal.value),
            end: literal.end,
        }),
        None => read_number_value(alloc, text, at),
    }
}

/// The string that stands here, or after spaces.
fn read_text_value(alloc: Global, text: &str, at: usize) -> ScanResult<Value>
    requires { at ≤ length text.now }
    ensures ok { IfOk result (λ r. Spells (drop at text.now) (view r.value) (drop r.end text.now)) }
    ensures onward { IfOk result (λ r. at < r.end) }
    ensures within { IfOk result (λ r. r.end ≤ length text.now) }
{
    let mut buffer = Vec::new(alloc);
    let read = read_text(text, at, &mut buffer)?;
    match Value::try_from_str(alloc, read.value) {
        Ok(value) => Ok(Placed {
            value,
            end: read.end,
        }),
        Err(_) => Err(Miss::NoMemory),
    }
}

/// The value that stands here, or after spaces, as a tree. Arrays and objects in it are nested as deep as `depth` at most.
#[cycle(trees)]
pub fn read_value(alloc: Global, text: &str, at: usize, depth: usize) -> ScanResult<Value>
    requires { at ≤ length text.now }
    ensures ok { IfOk result (λ r. SpellsAt depth (drop at text.now) (view r.value) (drop r.end text.now)) }
    ensures onward { IfOk result (λ r. at < r.end) }
    ensures within { IfOk result (λ r. r.end ≤ length text.now) }
{
    let bytes = text.as_bytes();
    let start = after_space(bytes, at);
    match byte_at(bytes, start) {
        b'"' => read_text_value(alloc, text, start),
        b'[' => read_array_value(alloc, text, start, depth),
        b'{' => read_object_value(alloc, text, start, depth),
        _ => read_word_value(alloc, bytes, start),
    }
}

/// The array of which the opening bracket stands here.
#[cycle(trees)]
fn read_array_value(alloc: Global, text: &str, at: usize, depth: usize) -> ScanResult<Value>
    requires bracket { (at < length text.now) × (get_or text.now at 0 ≡ 91) }
    ensures ok { IfOk result (λ r. SpellsAt depth (drop at text.now) (view r.value) (drop r.end text.now)) }
    ensures onward { IfOk result (λ r. at < r.end) }
    ensures within { IfOk result (λ r. r.end ≤ length text.now) }
{
    if depth == 0 {
        return Err(Miss::Unread);
    }
    if let Some(end) = empty_end(text.as_bytes(), at + 1, Container::Array) {
        return Ok(Placed {
            value: Value::Array(Vec::new(alloc)),
            end,
        });
    }
    let mut values = Vec::new(alloc);
    let mut next = at + 1;
    'items: loop {
        let item = read_value(alloc, text, next, depth - 1)?;
        push(&mut values, item.value)?;
        let mark = next_mark(text, item.end, Container::Array)?;
        match mark.value {
            Mark::End => return Ok(Placed {
                value: Value::Array(values),
                end: mark.end,
            }),
            Mark::Comma => next = mark.end,
        }
    }
}

/// The object of which the opening brace stands here; of two members of one name it has the second.
#[cycle(trees)]
fn read_object_value(alloc: Global, text: &str, at: usize, depth: usize) -> ScanResult<Value>
    requires brace { (at < length text.now) × (get_or text.now at 0 ≡ 123) }
    ensures ok { IfOk result (λ r. SpellsAt depth (drop at text.now) (view r.value) (drop r.end text.now)) }
    ensures onward { IfOk result (λ r. at < r.end) }
    ensures within { IfOk result (λ r. r.end ≤ length text.now) }
{
    if depth == 0 {
        return Err(Miss::Unread);
    }
    if let Some(end) = empty_end(text.as_bytes(), at + 1, Container::Object) {
        return Ok(Placed {
            value: Value::Object(Map::new(alloc)),
            end,
        });
    }
    let mut values = Map::new(alloc);
    let mut buffer = Vec::new(alloc);
    let mut next = at + 1;
    'members: loop {
        let key = read_key(text, next, &mut buffer)?;
        let member = read_value(alloc, text, key.end, depth - 1)?;
        let Ok(()) = put(&mut values, alloc, key.value, member.value) else {
            return Err(Miss::NoMemory);
        };
        let mark = next_mark(text, member.end, Container::Object)?;
        match mark.value {
            Mark::End => return Ok(Placed {
                value: Value::Object(values),
                end: mark.end,
            }),
            Mark::Comma => next = mark.end,
        }
    }
}
