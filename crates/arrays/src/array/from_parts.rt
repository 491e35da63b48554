ghost use Rattle.std.specs.Prelude.{◌≡◌, ◌*◌, ◌<◌, ◌≤◌, length, false, Some, IfOk};
ghost use Rattle.types.specs.Prelude.{bytes_of, depth, dict, kind_of, most_slots, same_kind};
ghost use Rattle.layout.specs.Prelude.{AreOffsetBytes, checked, is_validity_short, reading};
ghost use Rattle.arrays.specs.FromParts.{AreTexts, show_bits, show_lists, show_numbers, show_texts};

use super::Array;
use super::parts::{Parts, into_raw};
use crate::offset_slots::OffsetSlots;
use colbits::{Buffer, NoMemory};
use layout::RawArray;
use std::alloc::Global;
use types::{DataType, Field, IntType};

// Arrays of parts that are known to be lawful: nothing is checked.
impl Array {
    /// An array of integers: `len` little-endian numbers, valid where their bit is 1, all of them where
    /// there are no bits. It fails for want of memory alone, and the parts are gone then.
    pub fn from_numbers(
        alloc: Global,
        ty: IntType,
        len: u32,
        validity: Option<Buffer>,
        values: Buffer,
    ) -> Result<Array, NoMemory>
        requires short { len ≤ most_slots }
        requires numbers { len * bytes_of ty.bits ≤ length values }
        requires bits { is_validity_short len validity ≡ false }
        ensures { IfOk result (λ a. a ≡ show_numbers ty len validity values) }
    {
        let parts = Parts {
            ty: DataType::Int(ty),
            length: u64::from(len),
            buffers: vec![in alloc; validity, Some(values)]?,
            children: Vec::new(alloc),
        };
        Array::plain(alloc, parts)
    }

    /// An array of truth values: `len` bits, valid where their bit of the validity is 1, all of them where
    /// there is no validity. It fails for want of memory alone, and the parts are gone then.
    pub fn from_bits(
        alloc: Global,
        len: u32,
        validity: Option<Buffer>,
        bits: Buffer,
    ) -> Result<Array, NoMemory>
        requires short { len ≤ most_slots }
        requires bits { is_validity_short len (Some bits) ≡ false }
        requires validity { is_validity_short len validity ≡ false }
        ensures { IfOk result (λ a. a ≡ show_bits len validity bits) }
    {
        let parts = Parts {
            ty: DataType::Bool,
            length: u64::from(len),
            buffers: vec![in alloc; validity, Some(bits)]?,
            children: Vec::new(alloc),
        };
        Array::plain(alloc, parts)
    }

    /// An array of texts: each slot is the bytes between its offsets. It fails for want of memory alone, and the parts are
    /// gone then.
    pub fn from_texts(alloc: Global, slots: OffsetSlots, bytes: Buffer) -> Result<Array, NoMemory>
        requires short { slots.len ≤ most_slots }
        requires validity { is_validity_short slots.len slots.validity ≡ false }
        requires offsets { AreOffsetBytes slots.width slots.len slots.offsets (length bytes) }
        requires texts { AreTexts slots.width slots.len slots.validity slots.offsets bytes }
        ensures { IfOk result (λ a. a ≡ show_texts slots.width slots.len slots.validity slots.offsets bytes) }
    {
        let OffsetSlots {
            width,
            len,
            validity,
            offsets,
        } = slots;
        let parts = Parts {
            ty: DataType::of_texts(width),
            length: u64::from(len),
            buffers: vec![in alloc; validity, Some(offsets), Some(bytes)]?,
            children: Vec::new(alloc),
        };
        Array::plain(alloc, parts)
    }

    /// An array of lists of the field's type: each slot holds the items of the child between its offsets. It fails for want
    /// of memory alone, and the parts are gone then.
    pub fn from_list(
        alloc: Global,
        item: Field,
        slots: OffsetSlots,
        child: Array,
    ) -> Result<Array, NoMemory>
        requires short { slots.len ≤ most_slots }
        requires validity { is_validity_short slots.len slots.validity ≡ false }
        requires offsets { AreOffsetBytes slots.width slots.len slots.offsets (length child.items) }
        requires kind { kind_of item.ty ≡ child.kind }
        requires no_dict { same_kind child.kind dict ≡ false }
        requires depth { depth child.kind < 8 }
        ensures { IfOk result (λ a. a ≡ show_lists slots.width slots.len slots.validity slots.offsets child) }
    {
        let OffsetSlots {
            width,
            len,
            validity,
            offsets,
        } = slots;
        let parts = Parts {
            ty: DataType::of_lists(width, Box::new(alloc, item)?),
            length: u64::from(len),
            buffers: vec![in alloc; validity, Some(offsets)]?,
            children: vec![in alloc; child.into_raw(alloc)?]?,
        };
        Array::plain(alloc, parts)
    }

    /// The parts of an array that has no dictionary.
    pub(super) fn into_raw(self, alloc: Global) -> Result<RawArray, NoMemory>
        requires { same_kind self.kind dict ≡ false }
        ensures { IfOk result (λ raw. reading raw ≡ checked self) }
    {
        let Array { parts, encoding: _ } = self;
        into_raw(alloc, parts)
    }
}
