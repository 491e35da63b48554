//! Whether two items stand to each other as wanted, at each place: numbers, truth values or texts.

ghost use Rattle.std.specs.Prelude.{◌≡◌, ◌≤◌, true, false, length, slice_index_or};
ghost use Rattle.std.specs.Cmp.Lexicographic.{slice_cmp};
ghost use Rattle.std.specs.Ordering.{bool_cmp, int_cmp, nat_cmp};
ghost use Rattle.arrays.specs.Prelude.{is_text, item_at, most_slots, of_slot, order};
ghost use Rattle.kernels.specs.Wanted.{wants};

use super::packed::{Equal, Less, chosen, tests};
use super::wanted::Wanted;
use crate::side::Side;
use arrays::{Texts, View};
use colbits::{Bits, Places};

/// Numbers.
#[derive(Drop)]
pub(crate) struct Numbers<A: Side + Drop, B: Side + Drop> {
    pub(crate) a: A,
    pub(crate) b: B,
    pub(crate) wanted: Wanted,
    pub(crate) slots: u32,
    ghost a_has: { slots ≤ A.count a },
    ghost b_has: { slots ≤ B.count b },
    ghost short: { slots ≤ most_slots },
}

impl<A: Side + Drop, B: Side + Drop> Places for Numbers<A, B> {
    ghost at = { λ p i. wants p.wanted (int_cmp (A.number p.a i) (B.number p.b i)) };

    ghost count = { λ p. p.slots };

    fn len(&self) -> usize {
        self.slots as usize
    }

    fn at(&self, i: usize) -> bool {
        self.wanted.numbers(self.a.at(i), self.b.at(i))
    }

    #[inline(always)]
    fn word(&self, i: usize) -> u64 {
        let wanted = self.wanted;
        if wanted.less == wanted.greater {
            let equal = tests::<Equal, A, B>(&self.a, &self.b, i);
            return chosen(equal, wanted.equal, wanted.less);
        }
        if wanted.equal == wanted.greater {
            let less = tests::<Less, A, B>(&self.a, &self.b, i);
            return chosen(less, wanted.less, wanted.equal);
        }
        let greater = tests::<Less, B, A>(&self.b, &self.a, i);
        chosen(greater, wanted.greater, wanted.equal)
    }
}

/// Truth values.
#[derive(Drop)]
pub(crate) struct Bools<'a, 'b> {
    pub(crate) a: Bits<'a>,
    pub(crate) b: Bits<'b>,
    pub(crate) wanted: Wanted,
    pub(crate) slots: u32,
    ghost a_has: { length a ≡ slots },
    ghost b_has: { length b ≡ slots },
    ghost short: { slots ≤ most_slots },
}

impl<'a, 'b> Places for Bools<'a, 'b> {
    ghost at = { λ p i. wants p.wanted (bool_cmp (slice_index_or p.a i false) (slice_index_or p.b i false)) };

    ghost count = { λ p. p.slots };

    fn len(&self) -> usize {
        self.slots as usize
    }

    fn at(&self, i: usize) -> bool {
        self.wanted.bools(self.a.get(i), self.b.get(i))
    }
}

/// Texts of which neither column is dictionary-encoded.
#[derive(Drop)]
pub(crate) struct PlainTexts<'a, 'b> {
    pub(crate) a: Texts<'a>,
    pub(crate) b: Texts<'b>,
    pub(crate) wanted: Wanted,
    ghost lengths: { a.slots ≡ b.slots },
}

impl<'a, 'b> Places for PlainTexts<'a, 'b> {
    ghost at = { λ p i. wants p.wanted (slice_cmp nat_cmp (of_slot p.a.offsets p.a.bytes.now i) (of_slot p.b.offsets p.b.bytes.now i)) };

    ghost count = { λ p. p.a.slots };

    fn len(&self) -> usize {
        self.a.slots as usize
    }

    fn at(&self, i: usize) -> bool {
        let x = self.a.read(i);
        let y = self.b.read(i);
        self.wanted.bytes(x, y)
    }
}

/// Texts, dictionary-encoded or not.
#[derive(Drop)]
pub(crate) struct Shown<'a, 'b, 'c, 'd> {
    pub(crate) a: &'c View<'a>,
    pub(crate) b: &'d View<'b>,
    pub(crate) wanted: Wanted,
    pub(crate) slots: u32,
    ghost a_is: { is_text a.now.kind ≡ true },
    ghost b_is: { is_text b.now.kind ≡ true },
    ghost a_has: { length a.now.items ≡ slots },
    ghost b_has: { length b.now.items ≡ slots },
    ghost short: { slots ≤ most_slots },
}

impl<'a, 'b, 'c, 'd> Places for Shown<'a, 'b, 'c, 'd> {
    ghost at = { λ p i. wants p.wanted (order (item_at p.a.now.items i) (item_at p.b.now.items i)) };

    ghost count = { λ p. p.slots };

    fn len(&self) -> usize {
        self.slots as usize
    }

    fn at(&self, i: usize) -> bool {
        let x = self.a.text_at(i);
        let y = self.b.text_at(i);
        match (x, y) {
            (Some(x), Some(y)) => self.wanted.has(x.cmp(y)),
            _ => self.wanted.equal,
        }
    }
}
