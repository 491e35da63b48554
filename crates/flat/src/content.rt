//! What a node holds.

ghost use Rattle.std.specs.Prelude.{◌≡◌, ◌==◌};
ghost use Rattle.flat.specs.Format.{format_content, letter_content, list_content};
ghost use Rattle.flat.specs.Content.{child_count, content_with};

use arrays::{IntType, OffsetWidth, Width};

/// What a node holds: values, or what the nodes behind it are for.
#[derive(Clone, Copy, Debug, PartialEq, Eq)]
pub(crate) enum Content {
    Int(IntType),
    Bool,
    Texts(OffsetWidth),
    /// Lists of the items of the column behind it.
    Lists(OffsetWidth),
    /// Indices into the texts of the node behind it.
    Codes(IntType),
}

impl Content {
    /// What the format names: `c C s S i I l L` integers, `b` truth values, `u U` texts, `+l +L` lists. (Arrow C data interface,
    /// "Data type description -- format strings")
    pub(crate) fn of_format(format: &[u8]) -> Option<Content>
        ensures { result ≡ format_content format.now }
    {
        match format {
            [letter] => Content::of_letter(*letter),
            [b'+', letter] => Content::of_lists(*letter),
            _ => None,
        }
    }

    /// What one letter names.
    fn of_letter(letter: u8) -> Option<Content>
        ensures { result ≡ letter_content letter }
    {
        match letter {
            b'c' => Some(int(Width::W8, true)),
            b'C' => Some(int(Width::W8, false)),
            b's' => Some(int(Width::W16, true)),
            b'S' => Some(int(Width::W16, false)),
            b'i' => Some(int(Width::W32, true)),
            b'I' => Some(int(Width::W32, false)),
            b'l' => Some(int(Width::W64, true)),
            b'L' => Some(int(Width::W64, false)),
            b'b' => Some(Content::Bool),
            b'u' => Some(Content::Texts(OffsetWidth::Narrow)),
            b'U' => Some(Content::Texts(OffsetWidth::Wide)),
            _ => None,
        }
    }

    /// What a letter names behind a `+`.
    fn of_lists(letter: u8) -> Option<Content>
        ensures { result ≡ list_content letter }
    {
        match letter {
            b'l' => Some(Content::Lists(OffsetWidth::Narrow)),
            b'L' => Some(Content::Lists(OffsetWidth::Wide)),
            _ => None,
        }
    }

    /// The same with so many children, and with a dictionary unless that is 0; none where it has other ones.
    pub(crate) fn with(self, children: u64, dictionary: u32) -> Option<Content>
        ensures { result ≡ content_with children dictionary self }
    {
        if children != self.child_count() {
            return None;
        }
        if dictionary == 0 {
            return Some(self);
        }
        match self {
            Content::Int(ty) => Some(Content::Codes(ty)),
            _ => None,
        }
    }

    /// How many children it has.
    fn child_count(self) -> u64
        ensures { result ≡ child_count self }
    {
        match self {
            Content::Lists(_) => 1,
            _ => 0,
        }
    }
}

fn int(bits: Width, signed: bool) -> Content
    ensures { result ≡ Content.Int (record { bits = bits; signed = signed }) }
{
    Content::Int(IntType { bits, signed })
}
