//! Numbers from 0 up, and flags.

ghost use Rattle.std.specs.Prelude.{◌≡◌, ◌<◌, ◌≤◌, ◌^◌, length, drop, Some, IfOk, IfSome};
ghost use Rattle.json_read.specs.Prelude.{Data, Num, as_u64, count_of, flag_number, flag_of, number};
ghost use Rattle.json_scan.specs.Spelling.{Spells};
ghost use Rattle.json_stream.specs.Cursor.{HasValue, IsBehind};

use crate::cursor::Cursor;
use json_scan::{Literal, Miss, Placed, ScanResult, read_integer, read_literal};

/// The whole number from 0 up to 2^31 - 1 that stands here, or after spaces.
#[inline(always)]
pub fn read_natural(text: &[u8], at: usize) -> Option<Placed<u32>>
    requires { at ≤ length text.now }
    ensures reads { IfSome result (λ r. (n : Num) × (as_u64 n ≡ Some r.value)
        × Spells (drop at text.now) (number n) (drop r.end text.now)) }
    ensures small { IfSome result (λ r. r.value < 2 ^ 31) }
    ensures onward { IfSome result (λ r. at < r.end) }
    ensures within { IfSome result (λ r. r.end ≤ length text.now) }
{
    let integer = read_integer(text, at)?;
    if 0 <= integer.value && integer.value < 0x8000_0000 {
        Some(Placed {
            value: integer.value as u32,
            end: integer.end,
        })
    } else {
        None
    }
}

/// The same as a count.
pub fn read_count(cursor: Cursor) -> ScanResult<u32>
    ensures ok { IfOk result (λ r. HasValue cursor.entry r.end (λ d. count_of d ≡ Some r.value)) }
    ensures onward { IfOk result (λ r. IsBehind cursor.entry r.end) }
{
    match read_natural(cursor.text.as_bytes(), cursor.at) {
        Some(count) => Ok(count),
        None => Err(Miss::Unread),
    }
}

/// The flag that a number is.
fn number_flag(number: u32) -> Option<bool>
    ensures { result ≡ flag_number number }
{
    match number {
        0 => Some(false),
        1 => Some(true),
        _ => None,
    }
}

/// The flag that a number is which stands here, or after spaces.
#[inline(always)]
fn read_number_flag(text: &[u8], at: usize) -> Option<Placed<bool>>
    requires { at ≤ length text.now }
    ensures reads { IfSome result (λ r. (d : Data) × (flag_of d ≡ Some r.value)
        × Spells (drop at text.now) d (drop r.end text.now)) }
    ensures onward { IfSome result (λ r. at < r.end) }
    ensures within { IfSome result (λ r. r.end ≤ length text.now) }
{
    let number = read_natural(text, at)?;
    Some(Placed {
        value: number_flag(number.value)?,
        end: number.end,
    })
}

/// The flag that stands here, or after spaces: 1, 0, true or false.
#[inline(always)]
pub(crate) fn read_flag(text: &[u8], at: usize) -> Option<Placed<bool>>
    requires { at ≤ length text.now }
    ensures reads { IfSome result (λ r. (d : Data) × (flag_of d ≡ Some r.value)
        × Spells (drop at text.now) d (drop r.end text.now)) }
    ensures onward { IfSome result (λ r. at < r.end) }
    ensures within { IfSome result (λ r. r.end ≤ length text.now) }
{
    if let Some(flag) = read_number_flag(text, at) {
        return Some(flag);
    }
    let literal = read_literal(text, at)?;
    match literal.value {
        Literal::Bool(value) => Some(Placed {
            value,
            end: literal.end,
        }),
        Literal::Null => None,
    }
}
