//! `true`, `false` and `null`. (RFC 8259, section 3)

ghost use Rattle.std.specs.Prelude.{◌≡◌, ◌+◌, ◌<◌, ◌≤◌, ◌++◌, length, drop, true, IfSome};
ghost use Rattle.json.specs.Word.{ends_word};
ghost use Rattle.json_scan.specs.Spelling.{Spells};
ghost use Rattle.json_scan.specs.Scalars.{literal_data};

use crate::space::{Placed, after_space};
use crate::word::{byte_at, ends_word};

#[derive(Clone, Copy, Debug, Drop, PartialEq, Eq)]
pub enum Literal {
    Null,
    Bool(bool),
}

/// Where the word of this name that stands here ends.
#[inline(always)]
fn name_end(text: &[u8], at: usize, name: &[u8]) -> Option<usize>
    requires { at ≤ length text.now }
    ensures word { IfSome result (λ end. drop at text.now ≡ name.now ++ drop end text.now) }
    ensures ends { IfSome result (λ end. ends_word (drop end text.now) ≡ true) }
    ensures onward { IfSome result (λ end. end ≡ at + length name.now) }
    ensures within { IfSome result (λ end. end ≤ length text.now) }
{
    if !text[at..].starts_with(name) {
        return None;
    }
    let end = at + name.len();
    if ends_word(byte_at(text, end)) {
        Some(end)
    } else {
        None
    }
}

/// The literal that stands here, or after spaces.
pub fn read_literal(text: &[u8], at: usize) -> Option<Placed<Literal>>
    requires { at ≤ length text.now }
    ensures reads { IfSome result (λ r. Spells (drop at text.now) (literal_data r.value) (drop r.end text.now)) }
    ensures onward { IfSome result (λ r. at < r.end) }
    ensures within { IfSome result (λ r. r.end ≤ length text.now) }
{
    let start = after_space(text, at);
    match byte_at(text, start) {
        b't' => Some(Placed {
            value: Literal::Bool(true),
            end: name_end(text, start, b"true")?,
        }),
        b'f' => Some(Placed {
            value: Literal::Bool(false),
            end: name_end(text, start, b"false")?,
        }),
        b'n' => Some(Placed {
            value: Literal::Null,
            end: name_end(text, start, b"null")?,
        }),
        _ => None,
    }
}
