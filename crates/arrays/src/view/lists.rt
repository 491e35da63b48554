//! The lists of a column, one by one.

ghost use Rattle.std.specs.Prelude.{◌≡◌, ◌+◌, ◌<◌, ◌≤◌, ℕ, None, false, length, true};
ghost use Rattle.types.specs.Kind as kind;
ghost use Rattle.types.specs.Prelude.{depth, kind_of, most_slots, same_kind};
ghost use Rattle.layout.specs.Prelude.{AreOffsets, fault, reading, start_of};
ghost use Rattle.layout.specs.declared.raw.RawArray.{out-RawArray};
ghost use Rattle.arrays.specs.Slot.{is_list, item_at};

use crate::validity::is_valid;
use crate::view::{View, ViewType};
use colbits::Bits;
use layout::{Offsets, RawArray, buffers};

/// The lists of a column, one for each slot, whose items lie behind one another in a child.
#[derive(Drop)]
pub struct Lists<'a> {
    /// Where each list begins and the last one ends.
    pub offsets: Offsets<'a>,
    /// The slots that the offsets count in. There may be more than those of the lists, and any slots under a null.
    pub child: View<'a>,
    /// Which slots are valid, none where all of them are.
    pub validity: Option<Bits<'a>>,
    /// How many slots there are.
    pub slots: u32,
    ghost bounds: { AreOffsets slots offsets (length child.items) },
    ghost ends: { (j : ℕ) → j ≤ slots → start_of offsets j ≤ length child.items },
    ghost short: { slots ≤ most_slots },
    ghost child_short: { length child.items ≤ most_slots },
}

impl<'a> Lists<'a> {
    ghost use Rattle.arrays.specs.Values.{IsRange, item_of_range, items_of_lists, range_in};

    /// The slots of the child that are the list of slot `i`: the first one, and how many. None where it is null.
    #[inline(always)]
    pub fn get(&self, i: usize) -> Option<(usize, usize)>
        requires { i < self.now.slots }
        ensures value { result ≡ range_in self.now.offsets self.now.validity i }
        ensures item { item_at (items_of_lists self.now) i ≡ item_of_range self.now.child.items result }
        ensures within { IsRange (length self.now.child.items) result }
        ensures short { IsRange most_slots result }
    {
        if is_valid(&self.validity, i) {
            let start = self.offsets.get(i);
            let end = self.offsets.get(i + 1);
            Some((start, end - start))
        } else {
            None
        }
    }
}

impl<'a> View<'a> {
    ghost use Rattle.arrays.specs.Values.{HasLists, items_of_lists};

    /// The lists of a view of such.
    pub fn lists(&self) -> Lists<'a>
        requires { is_list self.now.kind ≡ true }
        ensures value { HasLists result.offsets result.child self.now }
        ensures validity { result.validity ≡ self.now.validity }
        ensures slots { result.slots ≡ length self.now.items }
        ensures items { items_of_lists result ≡ self.now.items }

        // Lists of texts with a dictionary there are none, nor more than 8 lists in one another.
        ensures no_dict { same_kind result.child.kind kind.dict ≡ false }
        ensures depth { depth result.child.kind < 8 }
    {
        let ViewType::List(width, _item) = self.ty else {
            unreachable!();
        };
        let first = buffers::bytes_at(self.buffers, 1);
        let children = self.children;
        let child = child_view(&children[0]);
        let validity = self.validity();
        let slots = self.slots();
        Lists {
            offsets: Offsets::new(width, first, self.start, slots),
            child,
            validity,
            slots,
        }
    }
}

/// All slots of a checked child.
fn child_view(child: &RawArray) -> View<'_>
    requires lawful { fault child.now ≡ None }
    requires plain { same_kind (kind_of (out-RawArray child.now).ty) kind.dict ≡ false }
    ensures { result ≡ (reading child.now).seen }
{
    View::whole(
        ViewType::of(&child.ty),
        &child.buffers,
        &child.children,
        None,
        child.length,
    )
}
