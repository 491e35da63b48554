//! Strings. (RFC 8259, section 7)

ghost use Rattle.std.specs.Prelude.{◌≡◌, ◌+◌, ◌<◌, ◌≤◌, ℕ, List, length, drop, get_or, slice_range, Some, IfOk, IfSome};
ghost use Rattle.std.specs.Char.{digit_value, encode_utf8};
ghost use Rattle.json.specs.Lex.{lex, in_string, in_escape};
ghost use Rattle.json.specs.Text.{content, plain, after_backslash, after_u, after_high, prepend, code_unit, short_escape};
ghost use Rattle.serde_json.specs.Data.{string};
ghost use Rattle.json_scan.specs.Scalars.{IsTextBody};
ghost use Rattle.json_scan.specs.Spelling.{IsKey, IsString, Spells};

use crate::miss::{Miss, ScanResult};
use crate::space::{Placed, after_space};
use crate::word::byte_at;

/// The first byte from here on that a string doesn't stand for as it is: a quote, a backslash or a control character.
#[inline(always)]
#[tactic(auto, using(crate::proofs::Strings::plain_run))]
fn plain_end(text: &[u8], at: usize) -> usize
    requires { at ≤ length text.now }
    ensures content { content plain (drop at text.now) ≡ prepend (slice_range text.now at result) (content plain (drop result text.now)) }
    ensures passed { lex in_string (drop result text.now) ≡ lex in_string (drop at text.now) }
    ensures onward { at ≤ result }
    ensures within { result ≤ length text.now }
{
    for end in at..text.len() {
        let byte = text[end];
        if byte == b'"' || byte == b'\\' || byte < b' ' {
            return end;
        }
    }
    text.len()
}

/// The value of a digit up to `z`, and 36 for any other byte.
fn digit(byte: u8) -> u32
    ensures { result ≡ digit_value byte }
{
    match byte {
        b'0'..=b'9' => u32::from(byte - b'0'),
        b'A'..=b'Z' => u32::from(byte - b'A') + 10,
        b'a'..=b'z' => u32::from(byte - b'a') + 10,
        _ => 36,
    }
}

/// The number of four hex digits.
#[tactic(auto, unfolding(json::specs::Text::code_unit))]
fn code_unit(text: &[u8], at: usize) -> Option<u32>
    requires { at + 4 ≤ length text.now }
    ensures value { IfSome result (λ u. code_unit (get_or text.now at 0) (get_or text.now (at + 1) 0) (get_or text.now (at + 2) 0) (get_or text.now (at + 3) 0) ≡ Some u) }
    ensures small { IfSome result (λ u. u < 65536) }
{
    let (a, b) = (digit(text[at]), digit(text[at + 1]));
    let (c, d) = (digit(text[at + 2]), digit(text[at + 3]));
    if a < 16 && b < 16 && c < 16 && d < 16 {
        Some(a * 4096 + b * 256 + c * 16 + d)
    } else {
        None
    }
}

/// What a backslash and this byte stand for.
#[tactic(auto, unfolding(json::specs::Text::short_escape))]
fn short_escape(byte: u8) -> Option<u8>
    ensures value { IfSome result (λ c. Some c ≡ short_escape byte) }
    ensures ascii { IfSome result (λ c. c < 128) }
{
    match byte {
        b'"' | b'\\' | b'/' => Some(byte),
        b'b' => Some(8),
        b'f' => Some(12),
        b'n' => Some(b'\n'),
        b'r' => Some(b'\r'),
        b't' => Some(b'\t'),
        _ => None,
    }
}

/// The character of a surrogate pair of which the second escape stands here.
fn read_low_surrogate(text: &[u8], at: usize, high: u32) -> Option<Placed<char>>
    requires within { at ≤ length text.now }
    requires high { (0xd800 ≤ high) × (high < 0xdc00) }
    ensures content { IfSome result (λ r. content (after_high high) (drop at text.now) ≡ prepend (encode_utf8 r.value) (content plain (drop r.end text.now))) }
    ensures passed { IfSome result (λ r. lex in_string (drop at text.now) ≡ lex in_string (drop r.end text.now)) }
    ensures within { IfSome result (λ r. (at < r.end) × (r.end ≤ length text.now)) }
{
    if text.len() - at < 6 || text[at] != b'\\' || text[at + 1] != b'u' {
        return None;
    }
    let low = code_unit(text, at + 2)?;
    if low < 0xdc00 || 0xe000 <= low {
        return None;
    }
    let value = char::from_u32(0x10000 + (high - 0xd800) * 1024 + (low - 0xdc00))?;
    Some(Placed { value, end: at + 6 })
}

/// The character of the digits after `\u`.
fn read_code_point(text: &[u8], at: usize) -> Option<Placed<char>>
    requires { at ≤ length text.now }
    ensures content { IfSome result (λ r. content after_u (drop at text.now) ≡ prepend (encode_utf8 r.value) (content plain (drop r.end text.now))) }
    ensures passed { IfSome result (λ r. lex in_string (drop at text.now) ≡ lex in_string (drop r.end text.now)) }
    ensures within { IfSome result (λ r. (at < r.end) × (r.end ≤ length text.now)) }
{
    if text.len() - at < 4 {
        return None;
    }
    let unit = code_unit(text, at)?;
    if 0xd800 <= unit && unit < 0xdc00 {
        return read_low_surrogate(text, at + 4, unit);
    }
    let value = char::from_u32(unit)?;
    Some(Placed { value, end: at + 4 })
}

/// The character that the escape stands for whose backslash stands just before.
fn read_escape(text: &[u8], at: usize) -> Option<Placed<char>>
    requires { at ≤ length text.now }
    ensures content { IfSome result (λ r. content after_backslash (drop at text.now) ≡ prepend (encode_utf8 r.value) (content plain (drop r.end text.now))) }
    ensures passed { IfSome result (λ r. lex in_escape (drop at text.now) ≡ lex in_string (drop r.end text.now)) }
    ensures within { IfSome result (λ r. (at < r.end) × (r.end ≤ length text.now)) }
{
    if at == text.len() {
        return None;
    }
    if text[at] == b'u' {
        return read_code_point(text, at + 1);
    }
    let value = short_escape(text[at])?;
    Some(Placed {
        value: value as char,
        end: at + 1,
    })
}

/// The place behind the quote that closes the string whose opening quote stands just before.
pub(crate) fn string_end(text: &[u8], at: usize) -> Option<usize>
    requires { at ≤ length text.now }
    ensures reads { IfSome result (λ end. (s : List ℕ) × IsTextBody (drop at text.now) s (drop end text.now)) }
    ensures within { IfSome result (λ end. (at < end) × (end ≤ length text.now)) }
{
    let mut end = at;
    'runs: loop {
        end = plain_end(text, end);
        match byte_at(text, end) {
            b'"' => return Some(end + 1),
            b'\\' => end = read_escape(text, end + 1)?.end,
            _ => return None,
        }
    }
}

/// The string that stands here, or after spaces, if nothing in it is escaped. It is a part of the text.
#[inline(always)]
pub fn read_plain_text<'t>(text: &'t str, at: usize) -> Option<Placed<&'t str>>
    requires { at ≤ length text.now }
    ensures lexeme { IfSome result (λ r. IsString (drop at text.now) r.value.now (drop r.end text.now)) }
    ensures reads { IfSome result (λ r. Spells (drop at text.now) (string r.value.now) (drop r.end text.now)) }
    ensures onward { IfSome result (λ r. at < r.end) }
    ensures within { IfSome result (λ r. r.end ≤ length text.now) }
{
    let bytes = text.as_bytes();
    let quote = after_space(bytes, at);
    if byte_at(bytes, quote) != b'"' {
        return None;
    }
    let stop = plain_end(bytes, quote + 1);
    if byte_at(bytes, stop) != b'"' {
        return None;
    }
    Some(Placed {
        value: &text[quote + 1..stop],
        end: stop + 1,
    })
}

/// Puts what the string stands for whose opening quote stands just before into the buffer, and gives the place behind its closing quote.
fn unescape(text: &[u8], at: usize, buffer: &mut Vec<u8>) -> Result<usize, Miss>
    requires { at ≤ length text.now }
    ensures ok { IfOk result (λ end. IsTextBody (drop at text.now) buffer.new.items (drop end text.now)) }
    ensures within { IfOk result (λ end. (at < end) × (end ≤ length text.now)) }
{
    buffer.clear();
    let mut end = at;
    'runs: loop {
        let stop = plain_end(text, end);
        let Ok(()) = buffer.extend_from_slice(&text[end..stop]) else {
            return Err(Miss::NoMemory);
        };
        match byte_at(text, stop) {
            b'"' => return Ok(stop + 1),
            b'\\' => {}
            _ => return Err(Miss::Unread),
        }
        let Some(escape) = read_escape(text, stop + 1) else {
            return Err(Miss::Unread);
        };
        let mut bytes = [0; 4];
        let character = escape.value.encode_utf8(&mut bytes);
        let Ok(()) = buffer.extend_from_slice(character.as_bytes()) else {
            return Err(Miss::NoMemory);
        };
        end = escape.end;
    }
}

/// The string that stands here, or after spaces: in the buffer where something in it is escaped, else in the text.
pub fn read_text<'t>(text: &'t str, at: usize, buffer: &'t mut Vec<u8>) -> ScanResult<&'t str>
    requires { at ≤ length text.now }
    ensures lexeme { IfOk result (λ r. IsString (drop at text.now) r.value.now (drop r.end text.now)) }
    ensures reads { IfOk result (λ r. Spells (drop at text.now) (string r.value.now) (drop r.end text.now)) }
    ensures onward { IfOk result (λ r. at < r.end) }
    ensures within { IfOk result (λ r. r.end ≤ length text.now) }
{
    if let Some(plain) = read_plain_text(text, at) {
        return Ok(plain);
    }
    let bytes = text.as_bytes();
    let quote = after_space(bytes, at);
    if byte_at(bytes, quote) != b'"' {
        return Err(Miss::Unread);
    }
    let end = unescape(bytes, quote + 1, buffer)?;
    match str::from_utf8(buffer.as_slice()) {
        Ok(value) => Ok(Placed { value, end }),
        Err(_) => Err(Miss::Unread),
    }
}

/// The key that stands here, or after spaces, with its colon: in the buffer where something in it is escaped, else in the text.
#[inline(always)]
pub fn read_key<'t>(text: &'t str, at: usize, buffer: &'t mut Vec<u8>) -> ScanResult<&'t str>
    requires { at ≤ length text.now }
    ensures reads { IfOk result (λ r. IsKey (drop at text.now) r.value.now (drop r.end text.now)) }
    ensures onward { IfOk result (λ r. at < r.end) }
    ensures within { IfOk result (λ r. r.end ≤ length text.now) }
{
    let key = read_text(text, at, buffer)?;
    let bytes = text.as_bytes();
    let colon = after_space(bytes, key.end);
    if byte_at(bytes, colon) != b':' {
        return Err(Miss::Unread);
    }
    Ok(Placed {
        value: key.value,
        end: colon + 1,
    })
}
