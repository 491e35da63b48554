ghost use Rattle.std.specs.Prelude.{◌≡◌, ◌<◌, ◌^◌, option_and_then, IfSome};
ghost use Rattle.arrays.specs.Prelude.{IsOfType};
ghost use Rattle.serde_json.specs.View.{view, number_view};
ghost use Rattle.json_base.specs.JsonNumber.{integer_of, fitting, spelled, narrow, numeral, below, count_of, flag_of, width_of};

use arrays::{IntType, Width};
use serde_json::{Number, Value};

/// The integer of the type that the value spells, as a number or as a text.
#[tactic(auto, using(crate::proofs::JsonNumbers::ranges))]
pub fn integer(ty: IntType, value: &Value) -> Option<i128>
    ensures value { result ≡ integer_of ty (view value.now) }
    ensures of_type { IfSome result (IsOfType ty) }
{
    match value.as_str() {
        Some(text) => fitting(ty, text_integer(text)?),
        None => fitting(ty, value.as_number()?.as_i128()?),
    }
}

/// The number, if it is in the type's range.
#[tactic(auto, using(crate::proofs::JsonNumbers::ranges))]
fn fitting(ty: IntType, number: i128) -> Option<i128>
    ensures value { result ≡ fitting ty number }
    ensures of_type { IfSome result (IsOfType ty) }
{
    if ty.holds(number) { Some(number) } else { None }
}

/// A count: a whole number up to 2^31 - 1.
pub fn count(value: &Value) -> Option<u32>
    ensures value { result ≡ count_of (view value.now) }
    ensures small { IfSome result (λ n. n < 2 ^ 31) }
{
    let number = value.as_u64()?;
    if number < 0x8000_0000 {
        Some(number as u32)
    } else {
        None
    }
}

/// A flag: 1, 0, true or false.
pub fn flag(value: &Value) -> Option<bool>
    ensures { result ≡ flag_of (view value.now) }
{
    match value.as_bool() {
        Some(flag) => Some(flag),
        None => match value.as_u64()? {
            0 => Some(false),
            1 => Some(true),
            _ => None,
        },
    }
}

/// The number that a text spells: an optional minus and one or more decimal digits, nothing else.
/// It is none from 2^64 on, and so below 0.
pub fn text_integer(text: &str) -> Option<i128>
    ensures { result ≡ option_and_then narrow (spelled text.now) }
{
    match text.as_bytes() {
        [b'-', digits @ ..] => Some(-i128::from(numeral(digits)?)),
        digits => Some(i128::from(numeral(digits)?)),
    }
}

/// The number that one or more decimal digits spell, if it is below 2^64.
fn numeral(digits: &[u8]) -> Option<u64>
    ensures { result ≡ option_and_then (below (2 ^ 64)) (numeral digits.now) }
{
    if digits.is_empty() {
        return None;
    }
    let mut number = 0u64;
    for digit in digits {
        if !digit.is_ascii_digit() {
            return None;
        }
        number = number
            .checked_mul(10)?
            .checked_add(u64::from(*digit - b'0'))?;
    }
    Some(number)
}

/// A width that is read.
pub fn width(number: &Number) -> Option<Width>
    ensures { result ≡ width_of (number_view number.now) }
{
    match number.as_u64()? {
        8 => Some(Width::W8),
        16 => Some(Width::W16),
        32 => Some(Width::W32),
        64 => Some(Width::W64),
        _ => None,
    }
}
