//! The offsets of texts or lists in the making.

ghost use Rattle.std.specs.Prelude.{◌≡◌, ◌+◌, ◌<◌, ◌≤◌, [], ◌∷◌, ◌++◌, length, IfOk, OnErr, OnOk};
ghost use Rattle.arrays.specs.Growing.{AreLaid, lengths_by};
ghost use Rattle.arrays.specs.Lengths.{total};
ghost use Rattle.layout.specs.Offsets.{AreBytesOf, AreOffsets, start_of};
ghost use Rattle.types.specs.Prelude.{most_of, most_slots};

use super::validity::ValidityBuilder;
use crate::offset_slots::OffsetSlots;
use crate::validity::buffer_of;
use colbits::{Buffer, NoMemory};
use layout::Offsets;
use std::alloc::Global;
use std::marker::Model;
use types::OffsetWidth;

/// Offsets of which the lengths are given one by one: they begin at 0, and a null is empty. Whoever pushes a length sees
/// to it that the offsets can count it.
#[derive(Drop)]
pub(crate) struct OffsetsBuilder {
    pub(crate) width: OffsetWidth,
    pub(crate) offsets: Vec<u8>,
    /// How long all are together.
    pub(crate) total: usize,
    pub(crate) valid: ValidityBuilder,
}

impl Model for OffsetsBuilder {
    ghost use Rattle.arrays.specs.Column.{SizedColumn, sized_column_code};
    ghost use Rattle.arrays.specs.Growing.{AreFresh, lengths_where};

    ghost Value = { SizedColumn };

    ghost coded = { sized_column_code };

    ghost view = { λ b. record { width = b.width; lengths = lengths_where b.width b.valid b.offsets.items } };

    ghost invariant = { λ b. AreFresh b.width b.valid b.offsets.items b.total };
}

impl OffsetsBuilder {
    /// No slots, with room for so many.
    pub(crate) fn with_capacity(
        alloc: Global,
        width: OffsetWidth,
        slots: usize,
    ) -> Result<OffsetsBuilder, NoMemory>
        requires { slots ≤ most_slots }
        ensures width { IfOk result (λ b. b.width ≡ width) }
        ensures empty { IfOk result (λ b. b.lengths ≡ []) }
    {
        let mut offsets = Vec::with_capacity(alloc, (slots + 1) * width.bytes() + 63)?;
        width.push(&mut offsets, 0)?;
        Ok(OffsetsBuilder {
            width,
            offsets,
            total: 0,
            valid: ValidityBuilder::new(alloc),
        })
    }

    /// How wide the offsets are.
    #[inline(always)]
    pub(crate) fn width(&self) -> OffsetWidth
        ensures { result ≡ self.now.width }
    {
        self.width
    }

    /// How long all slots are together.
    #[inline(always)]
    pub(crate) fn total(&self) -> usize
        ensures { result ≡ total self.now.lengths }
    {
        self.total
    }

    /// Adds a slot at the end: its length, or null.
    pub(crate) fn push(&mut self, slot: Option<usize>) -> Result<(), NoMemory>
        requires room { length self.old.lengths < most_slots }
        requires fits { total (self.old.lengths ++ slot ∷ []) ≤ most_of self.old.width }
        ensures width { self.new.width ≡ self.old.width }
        ensures ok { OnOk result (self.new.lengths ≡ self.old.lengths ++ slot ∷ []) }
        ensures err { OnErr result (self.new.lengths ≡ self.old.lengths) }
    {
        let end = self.total + slot.unwrap_or(0);
        let before = self.offsets.len();
        self.width.push(&mut self.offsets, end)?;
        match self.valid.push(slot.is_some()) {
            Ok(()) => {
                self.total = end;
                Ok(())
            }
            Err(error) => {
                self.offsets.truncate(before);
                Err(error)
            }
        }
    }

    /// Adds so many valid slots at the end, as long as the first slots of the offsets. Where these are as wide and go on from
    /// the last one here, their bytes are copied at once.
    pub(crate) fn push_all(&mut self, offsets: &Offsets<'_>, count: usize) -> Result<(), NoMemory>
        requires offsets { AreOffsets count offsets.now (start_of offsets.now count) }
        requires room { length self.old.lengths + count ≤ most_slots }
        requires fits { total (self.old.lengths ++ lengths_by offsets.now count) ≤ most_of self.old.width }
        ensures width { self.new.width ≡ self.old.width }
        ensures ok { OnOk result (self.new.lengths ≡ self.old.lengths ++ lengths_by offsets.now count) }
    {
        let (width, bytes) = offsets.bytes();
        if width == self.width && offsets.get(0) == self.total {
            return self.push_bytes(offsets, bytes, count);
        }
        self.push_each(offsets, count)
    }

    /// The same where the bytes are those of the offsets, and go on from the last one here.
    fn push_bytes(
        &mut self,
        offsets: &Offsets<'_>,
        bytes: &[u8],
        count: usize,
    ) -> Result<(), NoMemory>
        requires bytes { AreBytesOf self.old.width bytes.now offsets.now }
        requires goes_on { start_of offsets.now 0 ≡ total self.old.lengths }
        requires offsets { AreOffsets count offsets.now (start_of offsets.now count) }
        requires room { length self.old.lengths + count ≤ most_slots }
        requires fits { total (self.old.lengths ++ lengths_by offsets.now count) ≤ most_of self.old.width }
        ensures width { self.new.width ≡ self.old.width }
        ensures ok { OnOk result (self.new.lengths ≡ self.old.lengths ++ lengths_by offsets.now count) }
    {
        let before = self.offsets.len();
        let first = self.width.bytes();
        self.offsets.extend_from_slice(&bytes[first..])?;
        match self.valid.push_valid(count) {
            Ok(()) => {
                self.total = offsets.get(count);
                Ok(())
            }
            Err(error) => {
                self.offsets.truncate(before);
                Err(error)
            }
        }
    }

    /// The same one by one.
    fn push_each(&mut self, offsets: &Offsets<'_>, count: usize) -> Result<(), NoMemory>
        requires offsets { AreOffsets count offsets.now (start_of offsets.now count) }
        requires room { length self.old.lengths + count ≤ most_slots }
        requires fits { total (self.old.lengths ++ lengths_by offsets.now count) ≤ most_of self.old.width }
        ensures width { self.new.width ≡ self.old.width }
        ensures ok { OnOk result (self.new.lengths ≡ self.old.lengths ++ lengths_by offsets.now count) }
    {
        for i in 0..count {
            self.push(Some(offsets.get(i + 1) - offsets.get(i)))?;
        }
        Ok(())
    }

    /// The slots in memory, with a validity only where there is a null.
    pub(crate) fn finish(self) -> Result<OffsetSlots, NoMemory>
        ensures width { IfOk result (λ o. o.width ≡ self.width) }
        ensures laid { IfOk result (λ o. AreLaid o.width self.lengths o.len o.validity o.offsets) }
    {
        let OffsetsBuilder {
            width,
            offsets,
            total: _,
            valid,
        } = self;
        let len = valid.len() as u32;
        let validity = valid.finish()?;
        let offsets = Buffer::from_vec(offsets)?;
        Ok(OffsetSlots {
            width,
            len,
            validity: buffer_of(validity),
            offsets,
        })
    }
}
