//! The rows of a view where a mask is true.

ghost use Rattle.std.specs.Prelude.{◌≡◌, ◌<◌, ◌&&◌, None, length, IfErr, IfOk};
ghost use Rattle.arrays.specs.Prelude.{bit_of, is_too_big};
ghost use Rattle.arrays.specs.Kind as kind;
ghost use Rattle.select.specs.Chosen.{chosen};
ghost use Rattle.select.specs.Fault.{IsFull, IsSelectFault};
ghost use Rattle.select.specs.Masked.{AreTrue};
ghost use Rattle.select.specs.Selection.{filter_fault, kept};

use crate::fault::SelectFault;
use crate::gather::gather;
use crate::trues::Trues;
use arrays::{Array, BitmapBuf, Bits, Bools, MOST_SLOTS, Places, View, ViewType};
use std::alloc::Global;

/// The items where the mask is true; where it is false or null they are dropped. A dictionary-encoded view keeps
/// its kind and shares its dictionary. `WrongKind` unless the mask is of truth values, else `LengthsDiffer` unless it
/// is as long as the view. `NoMemory` where a growth was refused.
///
/// Of `["a", "b", "c"]` the mask `[true, false, null]` keeps `["a"]`.
pub fn filter(alloc: Global, view: &View<'_>, mask: &View<'_>) -> Result<Array, SelectFault>
    ensures ok { IfOk result (λ r. (filter_fault view.now mask.now ≡ None)
        × (r ≡ chosen view.now.kind (λ items. kept items mask.now.items) view.now)) }
    ensures err { IfErr result (IsSelectFault (filter_fault view.now mask.now) (filter_fault view.now mask.now)
        (is_too_big view.now.kind (kept view.now.items mask.now.items))) }
{
    match mask.ty() {
        ViewType::Bool => {}
        _ => return Err(SelectFault::WrongKind),
    }
    if mask.len() != view.len() {
        return Err(SelectFault::LengthsDiffer);
    }
    keep_true(alloc, view, mask)
}

/// The items where a mask of truth values, as long as the view, is true.
fn keep_true(alloc: Global, view: &View<'_>, mask: &View<'_>) -> Result<Array, SelectFault>
    requires kind { mask.now.kind ≡ kind.boolean }
    requires lengths { length mask.now.items ≡ length view.now.items }
    ensures ok { IfOk result (λ r. r ≡ chosen view.now.kind (λ items. kept items mask.now.items) view.now) }
    ensures err { IfErr result (IsFull (is_too_big view.now.kind (kept view.now.items mask.now.items))) }
{
    let Bools {
        values,
        validity,
        ..
    } = mask.bools();
    match validity {
        None => keep_ones(alloc, view, mask, values),
        Some(valid) => {
            let trues = BitmapBuf::from_places(
                alloc,
                &TrueSlots {
                    bits: values,
                    valid,
                },
            )?;
            keep_ones(alloc, view, mask, trues.bits())
        }
    }
}

/// The items whose bit is 1: the bits say where the mask is true.
fn keep_ones(
    alloc: Global,
    view: &View<'_>,
    mask: &View<'_>,
    bits: Bits<'_>,
) -> Result<Array, SelectFault>
    requires lengths { length mask.now.items ≡ length view.now.items }
    requires trues { AreTrue bits mask.now.items }
    ensures ok { IfOk result (λ r. r ≡ chosen view.now.kind (λ items. kept items mask.now.items) view.now) }
    ensures err { IfErr result (IsFull (is_too_big view.now.kind (kept view.now.items mask.now.items))) }
{
    prove!(mask.slots() as usize <= MOST_SLOTS);
    gather(alloc, view, &Trues::of(bits))
}

/// Which slots of a mask are true: their bit is 1, and they are valid.
#[derive(Drop)]
struct TrueSlots<'a> {
    bits: Bits<'a>,
    valid: Bits<'a>,
}

impl<'a> Places for TrueSlots<'a> {
    ghost at = { λ p i. bit_of p.bits i && bit_of p.valid i };

    ghost count = { λ p. length p.bits };

    fn len(&self) -> usize {
        self.bits.len()
    }

    fn at(&self, i: usize) -> bool {
        self.bits.get(i) && is_one(&self.valid, i)
    }

    #[inline(always)]
    fn word(&self, i: usize) -> u64 {
        self.bits.whole_word(i) & self.valid.word(i)
    }
}

/// Whether bit `i` is there and 1.
fn is_one(bits: &Bits<'_>, i: usize) -> bool
    ensures { result ≡ bit_of bits.now i }
{
    i < bits.len() && bits.get(i)
}
