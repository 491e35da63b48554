//! Numbers. (RFC 8259, section 6)

ghost use Rattle.std.specs.Prelude.{◌≡◌, ◌+◌, ◌<◌, ◌≤◌, ◌==◌, if◌then◌else◌, length, drop, get_or, slice_range, true, Some, IfSome};
ghost use Rattle.std.specs.List.{prefix_len};
ghost use Rattle.std.specs.Char.{is_ascii_digit};
ghost use Rattle.std.specs.Str.Parse.{AllDigits, digits_value};
ghost use Rattle.fast_float.specs.Text.{with_sign};
ghost use Rattle.json.specs.Lex.{lex, in_word};
ghost use Rattle.json.specs.Word.{after_minus, after_sign, after_digits, after_whole, after_fraction, after_exponent, after_number};
ghost use Rattle.serde_json.specs.Data.{Num, Data, number};
ghost use Rattle.serde_json.specs.Find.{as_integer, of_integer};
ghost use Rattle.serde_json.specs.Read.{number_of, read};
ghost use Rattle.json_scan.specs.Scalars.{begins_number};
ghost use Rattle.json_scan.specs.Spelling.{Spells};

use crate::space::{Placed, after_space};
use crate::word::{byte_at, ends_word, is_digit};
use fast_float::Numeral;

/// Where the digits that begin here end.
#[inline(always)]
#[tactic(auto, using(crate::proofs::Lexemes::digit_over))]
fn digits_end(text: &[u8], at: usize) -> usize
    requires { at ≤ length text.now }
    ensures count { result ≡ at + prefix_len is_ascii_digit (drop at text.now) }
    ensures word { lex in_word (drop result text.now) ≡ lex in_word (drop at text.now) }
    ensures within { result ≤ length text.now }
{
    for end in at..text.len() {
        if !is_digit(text[end]) {
            return end;
        }
    }
    text.len()
}

/// The same of one digit or more.
#[inline(always)]
fn some_digits_end(text: &[u8], at: usize) -> Option<usize>
    requires { at ≤ length text.now }
    ensures part { IfSome result (λ end. after_digits (drop at text.now) ≡ Some (drop end text.now)) }
    ensures word { IfSome result (λ end. lex in_word (drop end text.now) ≡ lex in_word (drop at text.now)) }
    ensures within { IfSome result (λ end. (at ≤ end) × (end ≤ length text.now)) }
{
    let end = digits_end(text, at);
    if end == at { None } else { Some(end) }
}

#[inline(always)]
#[tactic(auto, using(crate::proofs::Lexemes::byte_over))]
fn minus_end(text: &[u8], at: usize) -> usize
    requires { at ≤ length text.now }
    ensures sign { result ≡ (if get_or text.now at 32 == 45 then at + 1 else at) }
    ensures part { drop result text.now ≡ after_minus (drop at text.now) }
    ensures word { lex in_word (drop result text.now) ≡ lex in_word (drop at text.now) }
    ensures within { (at ≤ result) × (result ≤ length text.now) }
{
    if byte_at(text, at) == b'-' {
        at + 1
    } else {
        at
    }
}

#[inline(always)]
#[tactic(auto, using(crate::proofs::Lexemes::byte_over))]
fn sign_end(text: &[u8], at: usize) -> usize
    requires { at ≤ length text.now }
    ensures part { drop result text.now ≡ after_sign (drop at text.now) }
    ensures word { lex in_word (drop result text.now) ≡ lex in_word (drop at text.now) }
    ensures within { (at ≤ result) × (result ≤ length text.now) }
{
    let byte = byte_at(text, at);
    if byte == b'-' || byte == b'+' {
        at + 1
    } else {
        at
    }
}

#[inline(always)]
#[tactic(auto, using(crate::proofs::Lexemes::byte_over))]
fn whole_end(text: &[u8], at: usize) -> Option<usize>
    requires { at ≤ length text.now }
    ensures part { IfSome result (λ end. after_whole (drop at text.now) ≡ Some (drop end text.now)) }
    ensures word { IfSome result (λ end. lex in_word (drop end text.now) ≡ lex in_word (drop at text.now)) }
    ensures within { IfSome result (λ end. (at ≤ end) × (end ≤ length text.now)) }
{
    if byte_at(text, at) == b'0' {
        Some(at + 1)
    } else {
        some_digits_end(text, at)
    }
}

#[inline(always)]
#[tactic(auto, using(crate::proofs::Lexemes::byte_over))]
fn fraction_end(text: &[u8], at: usize) -> Option<usize>
    requires { at ≤ length text.now }
    ensures part { IfSome result (λ end. after_fraction (drop at text.now) ≡ Some (drop end text.now)) }
    ensures word { IfSome result (λ end. lex in_word (drop end text.now) ≡ lex in_word (drop at text.now)) }
    ensures within { IfSome result (λ end. (at ≤ end) × (end ≤ length text.now)) }
{
    if byte_at(text, at) == b'.' {
        some_digits_end(text, at + 1)
    } else {
        Some(at)
    }
}

#[inline(always)]
#[tactic(auto, using(crate::proofs::Lexemes::byte_over))]
fn exponent_end(text: &[u8], at: usize) -> Option<usize>
    requires { at ≤ length text.now }
    ensures part { IfSome result (λ end. after_exponent (drop at text.now) ≡ Some (drop end text.now)) }
    ensures word { IfSome result (λ end. lex in_word (drop end text.now) ≡ lex in_word (drop at text.now)) }
    ensures within { IfSome result (λ end. (at ≤ end) × (end ≤ length text.now)) }
{
    let byte = byte_at(text, at);
    if byte == b'e' || byte == b'E' {
        some_digits_end(text, sign_end(text, at + 1))
    } else {
        Some(at)
    }
}

/// Where the number that stands here ends by the grammar.
#[inline(always)]
fn number_end(text: &[u8], at: usize) -> Option<usize>
    requires { at ≤ length text.now }
    ensures part { IfSome result (λ end. after_number (drop at text.now) ≡ Some (drop end text.now)) }
    ensures word { IfSome result (λ end. lex in_word (drop end text.now) ≡ lex in_word (drop at text.now)) }
    ensures within { IfSome result (λ end. (at ≤ end) × (end ≤ length text.now)) }
{
    let whole = whole_end(text, minus_end(text, at))?;
    let fraction = fraction_end(text, whole)?;
    exponent_end(text, fraction)
}

/// Whether a double can be near the number, as any integer of 64 bits is.
fn is_finite(word: &[u8]) -> bool
    ensures { result ≡ true → (n : Num) × (number_of word.now ≡ Some n) }
{
    if byte_at(word, 0) == b'-' {
        let numeral = Numeral::scan(&word[1..]);
        numeral.to_float::<f64>(true).is_finite()
    } else {
        let numeral = Numeral::scan(word);
        numeral.to_float::<f64>(false).is_finite()
    }
}

#[inline(always)]
pub(crate) fn begins_number(byte: u8) -> bool
    ensures { result ≡ begins_number byte }
{
    byte == b'-' || is_digit(byte)
}

/// The word of the number that stands here, or after spaces: by itself it is a text of that number.
pub(crate) fn number_word<'t>(text: &'t [u8], at: usize) -> Option<Placed<&'t [u8]>>
    requires { at ≤ length text.now }
    ensures reads { IfSome result (λ r. (n : Num) × Spells (drop at text.now) (number n) (drop r.end text.now) × (read r.value.now ≡ Some (number n))) }
    ensures onward { IfSome result (λ r. at < r.end) }
    ensures within { IfSome result (λ r. r.end ≤ length text.now) }
{
    let start = after_space(text, at);
    if !begins_number(byte_at(text, start)) {
        return None;
    }
    let end = number_end(text, start)?;
    let value = &text[start..end];
    if end > start && ends_word(byte_at(text, end)) && is_finite(value) {
        Some(Placed { value, end })
    } else {
        None
    }
}

/// Where the number ends that stands here, or after spaces.
pub fn pass_number(text: &[u8], at: usize) -> Option<usize>
    requires { at ≤ length text.now }
    ensures reads { IfSome result (λ end. (n : Num) × Spells (drop at text.now) (number n) (drop end text.now)) }
    ensures onward { IfSome result (λ end. at < end) }
    ensures within { IfSome result (λ end. end ≤ length text.now) }
{
    let word = number_word(text, at)?;
    Some(word.end)
}

/// The number that the digits which begin here write, if it is below 2^64.
#[inline(always)]
#[tactic(auto, using(crate::proofs::Lexemes::digit_over))]
fn read_digits(text: &[u8], at: usize) -> Option<Placed<u64>>
    requires { at ≤ length text.now }
    ensures digits { IfSome result (λ r. AllDigits 10 (slice_range text.now at r.end)) }
    ensures value { IfSome result (λ r. r.value ≡ digits_value 10 (slice_range text.now at r.end)) }
    ensures count { IfSome result (λ r. r.end ≡ at + prefix_len is_ascii_digit (drop at text.now)) }
    ensures word { IfSome result (λ r. lex in_word (drop r.end text.now) ≡ lex in_word (drop at text.now)) }
    ensures within { IfSome result (λ r. (at < r.end) × (r.end ≤ length text.now)) }
{
    let mut value = 0u64;
    let mut end = at;
    while end < text.len() && is_digit(text[end]) {
        value = value
            .checked_mul(10)?
            .checked_add(u64::from(text[end] - b'0'))?;
        end += 1;
    }
    if end == at {
        None
    } else {
        Some(Placed { value, end })
    }
}

/// The same with no 0 before other digits.
#[inline(always)]
fn read_whole(text: &[u8], at: usize) -> Option<Placed<u64>>
    requires { at ≤ length text.now }
    ensures digits { IfSome result (λ r. AllDigits 10 (slice_range text.now at r.end)) }
    ensures value { IfSome result (λ r. r.value ≡ digits_value 10 (slice_range text.now at r.end)) }
    ensures part { IfSome result (λ r. after_whole (drop at text.now) ≡ Some (drop r.end text.now)) }
    ensures word { IfSome result (λ r. lex in_word (drop r.end text.now) ≡ lex in_word (drop at text.now)) }
    ensures within { IfSome result (λ r. (at < r.end) × (r.end ≤ length text.now)) }
{
    let digits = read_digits(text, at)?;
    if byte_at(text, at) == b'0' && digits.end > at + 1 {
        None
    } else {
        Some(digits)
    }
}

#[inline(always)]
fn signed(minus: bool, magnitude: u64) -> i128
    ensures { result ≡ with_sign minus magnitude }
{
    let integer = i128::from(magnitude);
    if minus { -integer } else { integer }
}

/// The whole number that stands here, or after spaces, written in digits alone: from -2^63 up to 2^64 - 1. A 0 after a minus is none, since it
/// is read as a float.
pub fn read_integer(text: &[u8], at: usize) -> Option<Placed<i128>>
    requires { at ≤ length text.now }
    ensures reads { IfSome result (λ r. (n : Num) × (as_integer n ≡ Some r.value)
        × Spells (drop at text.now) (number n) (drop r.end text.now) × (n ≡ of_integer r.value)) }
    ensures onward { IfSome result (λ r. at < r.end) }
    ensures within { IfSome result (λ r. r.end ≤ length text.now) }
{
    let start = after_space(text, at);
    let minus = byte_at(text, start) == b'-';
    let digits = read_whole(text, minus_end(text, start))?;
    if !ends_word(byte_at(text, digits.end)) {
        return None;
    }
    if minus && (digits.value == 0 || digits.value > 1 << 63) {
        return None;
    }
    Some(Placed {
        value: signed(minus, digits.value),
        end: digits.end,
    })
}
