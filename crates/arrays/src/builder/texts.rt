//! A column of texts in the making.

ghost use Rattle.std.specs.Prelude.{◌≡◌, ◌<◌, ◌≤◌, false, [], ◌∷◌, ◌++◌, ◌+◌, None, length, IfErr, IfOk, OnErr, OnOk};
ghost use Rattle.std.specs.Option.{option_copied};
ghost use Rattle.layout.specs.Item as item;
ghost use Rattle.types.specs.Kind as kind;
ghost use Rattle.arrays.specs.Lengths.{IsBuildFault, IsFull, text_bytes};
ghost use Rattle.arrays.specs.Shown.{shown};
ghost use Rattle.arrays.specs.Slot.{item_of_text};
ghost use Rattle.arrays.specs.Values.{items_of_texts};
ghost use Rattle.types.specs.Prelude.{is_full, most_slots};

use super::fault::BuildFault;
use super::offsets::OffsetsBuilder;
use crate::array::Array;
use crate::view::Texts;
use colbits::{Buffer, NoMemory};
use std::alloc::Global;
use std::marker::Model;
use types::OffsetWidth;

/// A column of texts in the making: their offsets begin at 0, and a null has no bytes.
#[derive(Drop)]
pub struct TextBuilder {
    alloc: Global,
    slots: OffsetsBuilder,
    bytes: Vec<u8>,
}

impl Model for TextBuilder {
    ghost use Rattle.std.specs.Prelude.{◌≡◌, false, length};
    ghost use Rattle.types.specs.OffsetSize.{is_full};
    ghost use Rattle.arrays.specs.Column.{TextColumn, text_column_code};
    ghost use Rattle.arrays.specs.Growing.{AreTextsOf, cut_texts};

    ghost Value = { TextColumn };

    ghost coded = { text_column_code };

    ghost view = { λ b. record { width = b.slots.width; items = cut_texts b.slots.lengths b.bytes.items } };

    ghost invariant = { λ b. record {
      texts : AreTextsOf b.slots.lengths b.bytes.items;
      room : is_full b.slots.width (length b.bytes.items) ≡ false;
    } };
}

impl TextBuilder {
    /// An empty column whose offsets are of this width, with room for so many slots and bytes, and for the padding of the
    /// bytes.
    pub fn with_capacity(
        alloc: Global,
        width: OffsetWidth,
        slots: usize,
        bytes: usize,
    ) -> Result<TextBuilder, NoMemory>
        requires { slots ≤ most_slots }
        ensures width { IfOk result (λ b. b.width ≡ width) }
        ensures empty { IfOk result (λ b. b.items ≡ []) }
    {
        Ok(TextBuilder {
            alloc,
            slots: OffsetsBuilder::with_capacity(alloc, width, slots)?,
            bytes: Vec::with_capacity(alloc, bytes.saturating_add(63))?,
        })
    }

    /// Adds a slot at the end: the text, or null.
    pub fn push(&mut self, text: Option<&str>) -> Result<(), BuildFault>
        requires room { length self.old.items < most_slots }
        ensures width { self.new.width ≡ self.old.width }
        ensures ok { OnOk result (self.new.items ≡ self.old.items ++ item_of_text (option_copied text.entry) ∷ []) }
        ensures err { OnErr result (self.new.items ≡ self.old.items) }
        ensures fault { IfErr result
            (IsBuildFault (is_full self.old.width (text_bytes (self.old.items ++ item_of_text (option_copied text.entry) ∷ [])))) }
        // What the offsets count together is what they can count.
        ensures fits { OnOk result (is_full self.new.width (text_bytes self.new.items) ≡ false) }
    {
        match text {
            Some(text) => self.push_text(text),
            None => {
                self.slots.push(None)?;
                Ok(())
            }
        }
    }

    /// Adds a text at the end.
    fn push_text(&mut self, text: &str) -> Result<(), BuildFault>
        requires room { length self.old.items < most_slots }
        ensures width { self.new.width ≡ self.old.width }
        ensures ok { OnOk result (self.new.items ≡ self.old.items ++ item.text text.now ∷ []) }
        ensures err { OnErr result (self.new.items ≡ self.old.items) }
        ensures fault { IfErr result
            (IsBuildFault (is_full self.old.width (text_bytes (self.old.items ++ item.text text.now ∷ [])))) }
        ensures fits { OnOk result (is_full self.new.width (text_bytes self.new.items) ≡ false) }
    {
        let before = self.bytes.len();
        if self.slots.width().is_full(before + text.len()) {
            return Err(BuildFault::OffsetsFull);
        }

        // Wide offsets count whatever bytes there is room for.
        self.bytes.extend_from_slice(text.as_bytes())?;
        match self.slots.push(Some(text.len())) {
            Ok(()) => Ok(()),
            Err(NoMemory) => {
                self.bytes.truncate(before);
                Err(BuildFault::NoMemory)
            }
        }
    }

    /// The column with all slots of typed texts at its end. Where none of them is null, their bytes are copied at once.
    ///
    /// # Errors
    /// `OffsetsFull` where the texts with them have more bytes than the column's offsets count; `NoMemory` where a growth was
    /// refused. The column is gone then.
    pub fn extended(self, texts: &Texts<'_>) -> Result<TextBuilder, BuildFault>
        requires room { length self.items + texts.now.slots ≤ most_slots }
        ensures width { IfOk result (λ b. b.width ≡ self.width) }
        ensures items { IfOk result (λ b. b.items ≡ self.items ++ items_of_texts texts.now) }
        ensures err { IfErr result (IsFull (is_full self.width (text_bytes (self.items ++ items_of_texts texts.now)))) }
    {
        match texts.validity {
            None => self.extended_at_once(texts),
            Some(_) => self.extended_by_slots(texts),
        }
    }

    /// The same where no slot is null.
    fn extended_at_once(self, texts: &Texts<'_>) -> Result<TextBuilder, BuildFault>
        requires valid { texts.now.validity ≡ None }
        requires room { length self.items + texts.now.slots ≤ most_slots }
        ensures width { IfOk result (λ b. b.width ≡ self.width) }
        ensures items { IfOk result (λ b. b.items ≡ self.items ++ items_of_texts texts.now) }
        ensures err { IfErr result (IsFull (is_full self.width (text_bytes (self.items ++ items_of_texts texts.now)))) }
    {
        let TextBuilder {
            alloc,
            mut slots,
            mut bytes,
        } = self;
        let more = texts.all();
        if slots.width().is_full(bytes.len() + more.len()) {
            return Err(BuildFault::OffsetsFull);
        }

        bytes.extend_from_slice(more)?;
        slots.push_all(&texts.offsets, texts.slots as usize)?;
        Ok(TextBuilder {
            alloc,
            slots,
            bytes,
        })
    }

    /// The same one by one.
    fn extended_by_slots(self, texts: &Texts<'_>) -> Result<TextBuilder, BuildFault>
        requires room { length self.items + texts.now.slots ≤ most_slots }
        ensures width { IfOk result (λ b. b.width ≡ self.width) }
        ensures items { IfOk result (λ b. b.items ≡ self.items ++ items_of_texts texts.now) }
        ensures err { IfErr result (IsFull (is_full self.width (text_bytes (self.items ++ items_of_texts texts.now)))) }
    {
        let mut all = self;
        for i in 0..texts.slots as usize {
            all.push(texts.get(i))?;
        }
        Ok(all)
    }

    /// The column as an array, with a validity only where there is a null.
    pub fn finish(self) -> Result<Array, NoMemory>
        ensures { IfOk result (λ a. a ≡ shown (kind.texts self.width) self.items) }
    {
        let TextBuilder {
            alloc,
            slots,
            bytes,
        } = self;
        let slots = slots.finish()?;
        let bytes = Buffer::from_vec(bytes)?;
        Array::from_texts(alloc, slots, bytes)
    }
}
