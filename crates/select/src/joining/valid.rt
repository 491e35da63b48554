//! Which slots of views one after the other are valid.

ghost use Rattle.std.specs.Prelude.{◌≡◌, ℕ, ◌+◌, ◌<◌, ◌≤◌, Option, false, is_some, length, not, slice_index_or, IfOk};
ghost use Rattle.std.specs.List.{list_all};
ghost use Rattle.arrays.specs.Prelude.{Seen, bit_in, joined_items, kept, most_slots};
ghost use Rattle.select.specs.Joined.{AreStarts, IsPlace, joined_valid};

use arrays::validity::{valid_word, validity_of};
use arrays::{BitmapBuf, NoMemory, Places, View};
use std::alloc::Global;

/// The validity of the slots of views, which have so many together: none where each of them is valid.
pub(super) fn joined_validity(
    alloc: Global,
    views: &[View<'_>],
    slots: usize,
) -> Result<Option<BitmapBuf>, NoMemory>
    requires slots { slots ≡ length (joined_items views.now) }
    requires short { slots ≤ most_slots }
    ensures { IfOk result (λ v. v ≡ kept (joined_valid views.now)) }
{
    if have_no_validity(views) {
        return Ok(None);
    }
    let starts = starts_of(alloc, views)?;
    let joined = JoinedSlots {
        views,
        starts,
        slots,
    };
    validity_of(alloc, &joined)
}

/// Whether no view has a validity, so that all slots are valid.
fn have_no_validity(views: &[View<'_>]) -> bool
    ensures { result ≡ list_all (λ (s : Seen). not (is_some s.validity)) views.now }
{
    views.iter().all(|view| view.validity().is_none())
}

/// How many slots come before each view's.
fn starts_of(alloc: Global, views: &[View<'_>]) -> Result<Vec<usize>, NoMemory>
    requires { length (joined_items views.now) ≤ most_slots }
    ensures { IfOk result (λ v. AreStarts views.now (length views.now) v.items) }
{
    let mut starts = Vec::with_capacity(alloc, views.len())?;
    let mut slots = 0;
    for view in views {
        starts.push(slots)?;
        slots += view.len();
    }
    Ok(starts)
}

/// The slots of views, one view after the other.
#[derive(Drop)]
struct JoinedSlots<'a, 'b> {
    views: &'a [View<'b>],
    /// How many slots come before each view's.
    starts: Vec<usize>,
    slots: usize,
    ghost begun: { AreStarts views.now (length views.now) starts.items },
    ghost count: { slots ≡ length (joined_items views.now) },
    ghost short: { slots ≤ most_slots },
}

impl<'a, 'b> JoinedSlots<'a, 'b> {
    /// The view that slot `i` of all lies in, and its place there.
    #[inline(always)]
    fn place_of(&self, i: usize) -> (usize, usize)
        requires { i < self.now.slots }
        ensures { IsPlace self.now.views.now i result.0 result.1 }
    {
        let (mut low, mut high) = (0, self.views.len());
        while high - low > 1 {
            let middle = low + (high - low) / 2;
            if self.starts[middle] <= i {
                low = middle;
            } else {
                high = middle;
            }
        }
        (low, i - self.starts[low])
    }

    /// Which of slots `i` to `i + 63` are valid, one by one: they may lie in several views.
    #[inline(never)]
    fn bit_by_bit(&self, i: usize) -> u64
        requires { i + 64 ≤ self.now.slots }
        ensures { (j : ℕ) → j < 64 → bit_in result j ≡ slice_index_or (joined_valid self.now.views.now) (i + j) false }
    {
        prove!(self.slots as usize >= i + 64);
        let mut word = 0;
        for j in 0..64 {
            word |= u64::from(self.at(i + j)) << j;
        }
        word
    }
}

impl<'a, 'b> Places for JoinedSlots<'a, 'b> {
    ghost at = { λ p i. slice_index_or (joined_valid p.views.now) i false };

    ghost count = { λ p. p.slots };

    fn len(&self) -> usize {
        self.slots
    }

    fn at(&self, i: usize) -> bool {
        let (k, j) = self.place_of(i);
        self.views[k].is_valid(j)
    }

    fn word(&self, i: usize) -> u64 {
        let (k, j) = self.place_of(i);
        let view = &self.views[k];
        if j + 64 <= view.len() {
            valid_word(&view.validity(), j)
        } else {
            self.bit_by_bit(i)
        }
    }
}
