//! The parts of keys, and the codes of most of them.

ghost use Rattle.std.specs.Prelude.{◌≡◌, ◌^◌, false, int_lt, pos, true};
ghost use Rattle.std.specs.Option.{ForSome};
ghost use Rattle.arrays.specs.Prelude.{is_negative, natural};
ghost use Rattle.keys.specs.PartSets.{part_of_code};

/// So many numbers from 0 on have codes, and so many texts, so that a table of places by them stays in a processor's cache.
pub(crate) const NEAR: u32 = 1 << 17;

/// An item of a key.
#[derive(Clone, Copy, Debug, PartialEq, Eq, Hash)]
pub(crate) enum Part {
    Null,
    Int(i128),
    Bool(bool),
    /// A text by its place among the texts.
    Text(usize),
}

impl Default for Part {
    fn default() -> Part {
        Part::Null
    }
}

/// The code of a part, none where it has none: that of a number is the number, null comes behind these, and then texts.
#[inline(always)]
pub(crate) fn code_of(part: Part) -> Option<u32>
    ensures { ForSome result (λ c. part_of_code c ≡ part) }
{
    match part {
        Part::Int(number) if 0 <= number && number < i128::from(NEAR) => Some(number as u32),
        Part::Null => Some(NEAR),
        Part::Text(place) if place < NEAR as usize => Some(NEAR + 1 + place as u32),
        _ => None,
    }
}

/// The part of which this is the code.
#[inline(always)]
pub(crate) fn part_of_code(code: u32) -> Part
    ensures { result ≡ part_of_code code }
{
    if code < NEAR {
        Part::Int(i128::from(code))
    } else if code == NEAR {
        Part::Null
    } else {
        Part::Text((code - NEAR - 1) as usize)
    }
}

/// The place that a code of a dictionary names.
#[inline(always)]
pub(crate) fn place_of(code: i128) -> usize
    requires counted { is_negative code ≡ false }
    requires short { int_lt code (pos (2 ^ 64)) ≡ true }
    ensures { result ≡ natural code }
{
    code as usize
}
