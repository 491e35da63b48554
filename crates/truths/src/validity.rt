//! The slots that are valid in a view, or in both of two, and those that have an item.

ghost use Rattle.std.specs.Prelude.{◌≡◌, length, IfOk};
ghost use Rattle.arrays.specs.Prelude.{holds_at, kept, valid_in};
ghost use Rattle.truths.specs.Valid.{both_valid};

use crate::array::known_of;
use arrays::View;
use arrays::validity::{is_valid, valid_lanes, valid_word};
use colbits::{BitmapBuf, Bits, Both, NoMemory, Places};
use std::alloc::Global;
use std::simd::prelude::*;

/// The validity of slots that are valid where those of two views are: none where all of them are.
pub fn both_valid(alloc: Global, a: &View<'_>, b: &View<'_>) -> Result<Option<BitmapBuf>, NoMemory>
    requires { length a.now.items ≡ length b.now.items }
    ensures { IfOk result (λ v. v ≡ kept (both_valid a.now b.now)) }
{
    let (a, b) = (Valid::of(a), Valid::of(b));
    known_of(alloc, &Both { a: &a, b: &b })
}

/// Whether the slots of a view are valid.
#[derive(Drop)]
pub struct Valid<'a> {
    pub bits: Option<Bits<'a>>,
    pub len: usize,
}

impl<'a> Valid<'a> {
    /// Of a view.
    pub fn of(view: &View<'a>) -> Valid<'a>
        ensures bits { result.bits ≡ view.now.validity }
        ensures len { result.len ≡ length view.now.items }
    {
        Valid {
            bits: view.validity(),
            len: view.len(),
        }
    }
}

impl<'a> Places for Valid<'a> {
    ghost at = { λ v. valid_in v.bits };

    ghost count = { λ v. v.len };

    fn len(&self) -> usize {
        self.len
    }

    fn at(&self, i: usize) -> bool {
        is_valid(&self.bits, i)
    }

    fn are_ones(&self) -> bool {
        self.bits.is_none()
    }

    #[inline(always)]
    fn word(&self, i: usize) -> u64 {
        valid_word(&self.bits, i)
    }

    #[inline(always)]
    fn lanes(&self, i: usize) -> u8x32 {
        prove!(self.len >= i + 256);
        valid_lanes(&self.bits, i)
    }
}

/// Whether the slots of a view have an item: they are valid, and the entry that one names isn't null.
#[derive(Drop)]
pub struct Items<'a, 'b> {
    pub view: &'a View<'b>,
}

impl<'a, 'b> Places for Items<'a, 'b> {
    ghost at = { λ p. holds_at p.view.now };

    ghost count = { λ p. length p.view.now.items };

    fn len(&self) -> usize {
        self.view.len()
    }

    fn at(&self, i: usize) -> bool {
        self.view.holds(i)
    }
}
