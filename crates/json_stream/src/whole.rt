//! Whole numbers, as JSON numbers and as texts.

ghost use Rattle.std.specs.Prelude.{◌≡◌, ◌<◌, ◌≤◌, length, drop, Some, IfSome};
ghost use Rattle.json_read.specs.Prelude.{Data, whole_of};
ghost use Rattle.json_scan.specs.Spelling.{Spells};

use json_read::text_integer;
use json_scan::{Placed, read_integer, read_plain_text};

/// The whole number that stands here, or after spaces, as a number or as a text in which nothing is escaped. A text's is less than 2^64 away
/// from 0.
#[inline(always)]
pub fn read_whole(text: &str, at: usize) -> Option<Placed<i128>>
    requires { at ≤ length text.now }
    ensures reads { IfSome result (λ r. (d : Data) × (whole_of d ≡ Some r.value)
        × Spells (drop at text.now) d (drop r.end text.now)) }
    ensures onward { IfSome result (λ r. at < r.end) }
    ensures within { IfSome result (λ r. r.end ≤ length text.now) }
{
    if let Some(integer) = read_integer(text.as_bytes(), at) {
        return Some(integer);
    }
    let digits = read_plain_text(text, at)?;
    Some(Placed {
        value: text_integer(digits.value)?,
        end: digits.end,
    })
}
