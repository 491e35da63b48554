//! Spaces between the parts of a document. (RFC 8259, section 2)

ghost use Rattle.std.specs.Prelude.{◌≡◌, ◌≤◌, length, drop};
ghost use Rattle.json.specs.Lex.{lex, between};
ghost use Rattle.json.specs.Word.{is_space};

/// What stands at a place, and where the text goes on behind it.
#[derive(Clone, Copy, Debug, Drop)]
pub struct Placed<T> {
    pub value: T,
    pub end: usize,
}

#[inline(always)]
pub(crate) fn is_space(byte: u8) -> bool
    ensures { result ≡ is_space byte }
{
    byte <= b' ' && (byte == b' ' || byte == b'\t' || byte == b'\n' || byte == b'\r')
}

/// The first place from here on where no space stands.
#[inline(always)]
#[tactic(auto, using(crate::proofs::Lexemes::space_lexed))]
pub fn after_space(text: &[u8], at: usize) -> usize
    requires { at ≤ length text.now }
    ensures same { lex between (drop result text.now) ≡ lex between (drop at text.now) }
    ensures onward { at ≤ result }
    ensures within { result ≤ length text.now }
{
    for end in at..text.len() {
        if !is_space(text[end]) {
            return end;
        }
    }
    text.len()
}
