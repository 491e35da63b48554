//! What stands between the items of an array and the members of an object, and after the last. (RFC 8259, sections 4 and 5)

ghost use Rattle.std.specs.Prelude.{◌≡◌, ◌<◌, ◌≤◌, length, drop, false, true, IfOk, IfSome, IsTrue};
ghost use Rattle.json.specs.Lex.{lex, between, begins_colon, operator_lexeme};
ghost use Rattle.json.specs.Word.{is_operator};
ghost use Rattle.json_scan.specs.Spelling.{IsMark, mark_lexeme};

use crate::miss::{Miss, ScanResult};
use crate::space::{Placed, after_space};

#[derive(Clone, Copy, Debug, Drop, PartialEq, Eq)]
pub enum Container {
    Array,
    Object,
}

impl Container {
    fn closing(self) -> u8
        ensures operator { is_operator result ≡ true }
        ensures lexeme { operator_lexeme result ≡ mark_lexeme self Mark.End }
    {
        match self {
            Container::Array => b']',
            Container::Object => b'}',
        }
    }
}

/// What follows an item or a member: a comma where another comes, or the bracket or brace that ends the array or object.
#[derive(Clone, Copy, Debug, Drop, PartialEq, Eq)]
pub enum Mark {
    Comma,
    End,
}

/// The mark that stands here, or after spaces.
#[inline(always)]
#[tactic(auto, using(crate::proofs::Lexemes::mark_after))]
pub fn read_mark(text: &[u8], at: usize, container: Container) -> Option<Placed<Mark>>
    requires { at ≤ length text.now }
    ensures reads { IfSome result (λ r. IsMark container (drop at text.now) r.value (drop r.end text.now)) }
    ensures onward { IfSome result (λ r. at < r.end) }
    ensures within { IfSome result (λ r. r.end ≤ length text.now) }
{
    let end = after_space(text, at);
    if end >= text.len() {
        return None;
    }
    let byte = text[end];
    if byte == b',' {
        return Some(Placed {
            value: Mark::Comma,
            end: end + 1,
        });
    }
    if byte == container.closing() {
        return Some(Placed {
            value: Mark::End,
            end: end + 1,
        });
    }
    None
}

/// The same of a text.
pub(crate) fn next_mark(text: &str, at: usize, container: Container) -> ScanResult<Mark>
    requires { at ≤ length text.now }
    ensures ok { IfOk result (λ r. IsMark container (drop at text.now) r.value (drop r.end text.now)) }
    ensures onward { IfOk result (λ r. at < r.end) }
    ensures within { IfOk result (λ r. r.end ≤ length text.now) }
{
    read_mark(text.as_bytes(), at, container).ok_or(Miss::Unread)
}

/// Whether an item or a member ends here, or after spaces: its mark follows, and no colon.
pub fn ends_in(text: &str, at: usize, container: Container) -> bool
    requires { at ≤ length text.now }
    ensures { IsTrue result → begins_colon (lex between (drop at text.now)) ≡ false }
{
    read_mark(text.as_bytes(), at, container).is_some()
}

/// The place behind what ends an array or an object that begins just before, if nothing is in it.
#[inline(always)]
pub fn empty_end(text: &[u8], at: usize, container: Container) -> Option<usize>
    requires { at ≤ length text.now }
    ensures reads { IfSome result (λ end. IsMark container (drop at text.now) Mark.End (drop end text.now)) }
    ensures onward { IfSome result (λ end. at < end) }
    ensures within { IfSome result (λ end. end ≤ length text.now) }
{
    let mark = read_mark(text, at, container)?;
    match mark.value {
        Mark::End => Some(mark.end),
        Mark::Comma => None,
    }
}
