ghost use Rattle.std.specs.Prelude.{◌≡◌, ◌⊎◌, false, None, Some, IfErr, IfOk};
ghost use Rattle.types.specs.Kind.{dict, kind_of, same_kind};
ghost use Rattle.layout.specs.Prelude.{own_fault_of, reading};
ghost use Rattle.arrays.specs.FromParts.{list_parts};

use super::Array;
use crate::offset_slots::OffsetSlots;
use colbits::NoMemory;
use layout::{LayoutFault, RawArray, own_fault, release};
use std::alloc::Global;
use types::{DataType, Field};

// Arrays of lists whose parts come from outside.
impl Array {
    /// An array of lists of the field's type, of parts that come from outside: each slot holds the items of the child between
    /// its offsets. The child is lawful already, and isn't checked again.
    ///
    /// The first fault of the other parts is reported, in the order of the faults' table; the parts are gone then. Want
    /// of memory may be reported in its stead.
    ///
    /// Offsets `[0, 2, 2, 3]` over the child `[1, 2, 3]` hold `[[1, 2], [], [3]]`.
    pub fn try_list(
        alloc: Global,
        item: Field,
        slots: OffsetSlots,
        child: Array,
    ) -> Result<Array, LayoutFault>
        requires no_dict { same_kind child.kind dict ≡ false }
        ensures lawful { IfOk result (λ _. (list_parts slots.width (kind_of item.ty) slots.len slots.validity slots.offsets child).fault ≡ None) }
        ensures shows { IfOk result (λ a. a ≡ (list_parts slots.width (kind_of item.ty) slots.len slots.validity slots.offsets child).seen) }
        ensures err { IfErr result (λ e.
            ((list_parts slots.width (kind_of item.ty) slots.len slots.validity slots.offsets child).fault ≡ Some e) ⊎ (e ≡ LayoutFault.NoMemory)) }
    {
        match Array::raw_list(alloc, item, slots, child) {
            Ok(raw) => Array::checked_list(alloc, raw),
            Err(NoMemory) => Err(LayoutFault::NoMemory),
        }
    }

    /// The parts of an array of lists over the child.
    fn raw_list(
        alloc: Global,
        item: Field,
        slots: OffsetSlots,
        child: Array,
    ) -> Result<RawArray, NoMemory>
        requires no_dict { same_kind child.kind dict ≡ false }
        ensures reads { IfOk result (λ raw. reading raw ≡ list_parts slots.width (kind_of item.ty) slots.len slots.validity slots.offsets child) }
        ensures own { IfOk result (λ raw.
            own_fault_of raw ≡ (list_parts slots.width (kind_of item.ty) slots.len slots.validity slots.offsets child).fault) }
    {
        let OffsetSlots {
            width,
            len,
            validity,
            offsets,
        } = slots;
        Ok(RawArray {
            ty: DataType::of_lists(width, Box::new(alloc, item)?),
            length: u64::from(len),
            null_count: None,
            buffers: vec![in alloc; validity, Some(offsets)]?,
            children: vec![in alloc; child.into_raw(alloc)?]?,
            dictionary: None,
        })
    }

    /// The array of parts whose child is lawful.
    fn checked_list(alloc: Global, raw: RawArray) -> Result<Array, LayoutFault>
        requires below { (reading raw).fault ≡ own_fault_of raw }
        ensures lawful { IfOk result (λ _. (reading raw).fault ≡ None) }
        ensures shows { IfOk result (λ a. a ≡ (reading raw).seen) }
        ensures err { IfErr result (λ e. ((reading raw).fault ≡ Some e) ⊎ (e ≡ LayoutFault.NoMemory)) }
    {
        match own_fault(&raw) {
            Some(fault) => {
                release(raw);
                Err(fault)
            }
            None => Array::from_lawful(alloc, raw).map_err(|_| LayoutFault::NoMemory),
        }
    }
}
