//! Which slots are valid, in the making.

ghost use Rattle.std.specs.Prelude.{◌≡◌, ◌+◌, ◌<◌, ◌≤◌, List, Bool, [], ◌∷◌, ◌++◌, true, map, length, replicate, IfOk, OnErr, OnOk};
ghost use Rattle.std.specs.List.{range_with_len};
ghost use Rattle.colbits.specs.Bitmap.{bit_of};
ghost use Rattle.layout.specs.Seen.{valid_in};
ghost use Rattle.arrays.specs.Shown.{kept};
ghost use Rattle.types.specs.Limits.{most_slots};

use crate::validity::kept_of;
use colbits::{BitmapBuf, BitmapBuilder, Bits, NoMemory, Places};
use std::alloc::Global;
use std::marker::Model;

/// The validity of a column in the making: nothing is written before the first null that is pushed.
#[derive(Drop)]
pub struct ValidityBuilder {
    alloc: Global,
    /// How many valid slots come first.
    before: usize,
    /// The slots behind them.
    after: BitmapBuilder,
}

impl Model for ValidityBuilder {
    ghost use Rattle.types.specs.Limits.{most_slots};
    ghost use Rattle.std.specs.Prelude.{List, Bool};
    ghost use Rattle.std.specs.Prelude.{◌+◌, ◌≤◌, length};
    ghost use Rattle.arrays.specs.Slots.{show_validity};

    ghost Value = { List Bool };

    ghost view = { show_validity };

    ghost invariant = { λ b. b.before + length b.after ≤ most_slots };
}

impl ValidityBuilder {
    /// No slots. No memory is taken.
    pub fn new(alloc: Global) -> ValidityBuilder
        ensures { result ≡ [] }
    {
        ValidityBuilder {
            alloc,
            before: 0,
            after: BitmapBuilder::new(alloc),
        }
    }

    /// How many slots there are.
    pub fn len(&self) -> usize
        ensures count { result ≡ length self.now }
        ensures short { result ≤ most_slots }
    {
        self.before + self.after.len()
    }

    /// Adds a slot at the end.
    #[inline(always)]
    pub fn push(&mut self, valid: bool) -> Result<(), NoMemory>
        requires room { length self.old < most_slots }
        ensures ok { OnOk result (self.new ≡ self.old ++ valid ∷ []) }
        ensures err { OnErr result (self.new ≡ self.old) }
    {
        if valid && self.after.is_empty() {
            self.before += 1;
            return Ok(());
        }
        self.after.push(valid)?;
        Ok(())
    }

    /// Adds so many valid slots at the end.
    pub fn push_valid(&mut self, count: usize) -> Result<(), NoMemory>
        requires room { length self.old + count ≤ most_slots }
        ensures ok { OnOk result (self.new ≡ self.old ++ replicate count true) }
        ensures err { OnErr result (self.new ≡ self.old) }
    {
        if self.after.is_empty() {
            self.before += count;
            return Ok(());
        }
        self.after.push_ones(count)?;
        Ok(())
    }

    /// Adds so many slots at the end, valid where the validity says so: 64 of them at a time.
    pub fn push_slots(&mut self, validity: &Option<Bits<'_>>, count: usize) -> Result<(), NoMemory>
        requires room { length self.old + count ≤ most_slots }
        ensures ok { OnOk result (self.new ≡ self.old ++ map (valid_in validity.now) (range_with_len 0 count)) }
        ensures err { OnErr result (self.new ≡ self.old) }
    {
        match validity {
            None => self.push_valid(count),
            Some(bits) => {
                self.after.push_places(&Slots { bits, count })?;
                Ok(())
            }
        }
    }

    /// The validity, none where each slot is valid.
    pub fn finish(self) -> Result<Option<BitmapBuf>, NoMemory>
        ensures { IfOk result (λ v. v ≡ kept self) }
    {
        let ValidityBuilder {
            alloc,
            before,
            after,
        } = self;
        if after.is_empty() {
            return Ok(None);
        }
        let mut slots = BitmapBuilder::with_capacity(alloc, before + after.len())?;
        slots.push_ones(before)?;
        let after = after.finish()?;
        slots.push_bits(&after.bits())?;
        Ok(kept_of(slots.finish()?))
    }
}

/// So many slots, valid where their bit is 1.
#[derive(Drop)]
struct Slots<'a, 'b> {
    bits: &'a Bits<'b>,
    count: usize,
}

impl<'a, 'b> Places for Slots<'a, 'b> {
    ghost at = { λ s i. bit_of s.bits.now i };

    ghost count = { λ s. s.count };

    fn len(&self) -> usize {
        self.count
    }

    fn at(&self, i: usize) -> bool {
        i < self.bits.len() && self.bits.get(i)
    }

    #[inline(always)]
    fn word(&self, i: usize) -> u64 {
        self.bits.word(i)
    }
}
