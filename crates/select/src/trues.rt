//! Rows whose bit is 1.

ghost use Rattle.std.specs.Prelude.{◌≡◌, ◌<◌, ◌≤◌, true, count_by, length};
ghost use Rattle.select.specs.Picked.{ones_left, rows_of_ones};
ghost use Rattle.arrays.specs.Prelude.{most_slots};

use crate::rows::{Place, Rows};
use arrays::Bits;

/// The rows whose bit is 1, in their order.
#[derive(Drop)]
pub(crate) struct Trues<'a> {
    bits: Bits<'a>,
    ones: u32,
    ghost counted: { ones ≡ count_by (λ b. b) bits },
    ghost short: { length bits ≤ most_slots },
}

impl<'a> Trues<'a> {
    /// Those of the bits, which are counted.
    pub(crate) fn of(bits: Bits<'a>) -> Trues<'a>
        requires { length bits ≤ most_slots }
        ensures { result.bits ≡ bits.entry }
    {
        let ones = bits.count_ones();
        Trues {
            bits,
            ones: ones as u32,
        }
    }

    /// Goes on to the next word that has a 1.
    #[inline(always)]
    fn find_word(&self, place: &mut Place)
        requires { 0 < length (ones_left self.now.bits place.old.at place.old.ones) }
        ensures same { ones_left self.now.bits place.new.at place.new.ones ≡ ones_left self.now.bits place.old.at place.old.ones }
        ensures some { 0 < place.new.ones }
    {
        while place.ones == 0 {
            place.at += 1;
            place.ones = self.bits.word(64 * place.at as usize);
        }
    }
}

impl<'a> Rows for Trues<'a> {
    ghost picks = { λ r. rows_of_ones r.bits };

    ghost rest = { λ r p. ones_left r.bits p.at p.ones };

    fn slots(&self) -> u32 {
        self.ones
    }

    fn are_rows(&self) -> bool {
        true
    }

    fn first(&self) -> Place {
        Place {
            at: 0,
            ones: self.bits.word(0),
        }
    }

    #[inline(always)]
    fn next(&self, place: &mut Place) -> Option<usize> {
        self.find_word(place);
        let j = place.ones.trailing_zeros();
        place.ones &= !(1 << j);
        Some(64 * place.at as usize + j as usize)
    }
}
