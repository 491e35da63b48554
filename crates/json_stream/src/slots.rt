//! Columns in the making, a slot at a time from the text.

ghost use Rattle.std.specs.Prelude.{◌≡◌, ◌<◌, ◌≤◌, ◌∷◌, ◌++◌, [], length, drop, true, IfOk, OnErr, OnOk};
ghost use Rattle.std.specs.Arc.{arc_value};
ghost use Rattle.std.specs.List.{All};
ghost use Rattle.arrays.specs.Prelude.{int, int32, is_code, most_slots, null};
ghost use Rattle.json_read.specs.Prelude.{Data, HasNextItem};
ghost use Rattle.json_scan.specs.Spelling.{Spells};
ghost use Rattle.json_stream.specs.Slots.{spelling_at};

use crate::natural::read_flag;
use crate::whole::read_whole;
use arrays::{Array, BoolBuilder, BuildFault, IntBuilder, IntType, NoMemory, TextBuilder};
use json_read::Coding;
use json_scan::{Miss, read_text};

/// A column in the making, of which each slot has a value of its own. Where nothing is added, the column is as it was.
pub(crate) trait SlotBuilder: Drop {
    ghost use Rattle.std.specs.Prelude.{List, Option};
    ghost use Rattle.arrays.specs.Prelude.{Item, Kind};
    ghost use Rattle.json_read.specs.JsonCatalog.{Coding};

    ghost kind: { Self → Kind };

    // How it is encoded.
    ghost coding: { Self → Option Coding };

    ghost items: { Self → List Item };

    /// Adds the item that the value spells which stands here, or after spaces, and gives the place behind it.
    fn push_value(&mut self, text: &str, at: usize) -> Result<usize, Miss>
        requires at { at ≤ length text.now }
        requires room { length (items self.old) < most_slots }
        ensures kind { kind self.new ≡ kind self.old }
        ensures coding { coding self.new ≡ coding self.old }
        ensures ok { IfOk result (λ end. (d : Data) × Spells (drop at text.now) d (drop end text.now)
            × HasNextItem (spelling_at (kind self.old) (coding self.old)) (items self.old) d (items self.new)) }
        ensures err { OnErr result (items self.new ≡ items self.old) }
        ensures onward { IfOk result (λ end. at < end) }
        ensures within { IfOk result (λ end. end ≤ length text.now) };

    /// Adds a null.
    fn push_null(&mut self) -> Result<(), NoMemory>
        requires room { length (items self.old) < most_slots }
        ensures kind { kind self.new ≡ kind self.old }
        ensures coding { coding self.new ≡ coding self.old }
        ensures ok { OnOk result (items self.new ≡ items self.old ++ null ∷ []) }
        ensures err { OnErr result (items self.new ≡ items self.old) };

    /// The column as an array.
    fn finish(self) -> Result<Array, NoMemory>
        ensures kind { IfOk result (λ a. a.kind ≡ kind self) }
        ensures items { IfOk result (λ a. a.items ≡ items self) };
}

/// A column of integers in the making.
#[derive(Drop)]
pub(crate) struct IntColumn {
    pub ty: IntType,
    pub builder: IntBuilder,
    ghost one_type: { builder.ty ≡ ty },
}

impl SlotBuilder for IntColumn {
    ghost use Rattle.std.specs.Prelude.{None};
    ghost use Rattle.arrays.specs.Kind.{int};

    ghost kind = { λ c. int c.ty };

    ghost coding = { λ _. None };

    ghost items = { λ c. c.builder.items };

    #[inline]
    fn push_value(&mut self, text: &str, at: usize) -> Result<usize, Miss> {
        let Some(number) = read_whole(text, at) else {
            return Err(Miss::Unread);
        };
        if !self.ty.holds(number.value) {
            return Err(Miss::Unread);
        }
        match self.builder.push(Some(number.value)) {
            Ok(()) => Ok(number.end),
            Err(NoMemory) => Err(Miss::NoMemory),
        }
    }

    #[inline]
    fn push_null(&mut self) -> Result<(), NoMemory> {
        self.builder.push(None)
    }

    fn finish(self) -> Result<Array, NoMemory> {
        let IntColumn { ty: _, builder } = self;
        builder.finish()
    }
}

impl SlotBuilder for BoolBuilder {
    ghost use Rattle.std.specs.Prelude.{None};
    ghost use Rattle.arrays.specs.Kind.{boolean};

    ghost kind = { λ _. boolean };

    ghost coding = { λ _. None };

    ghost items = { λ items. items };

    #[inline]
    fn push_value(&mut self, text: &str, at: usize) -> Result<usize, Miss> {
        let Some(truth) = read_flag(text.as_bytes(), at) else {
            return Err(Miss::Unread);
        };
        match self.push(Some(truth.value)) {
            Ok(()) => Ok(truth.end),
            Err(NoMemory) => Err(Miss::NoMemory),
        }
    }

    #[inline]
    fn push_null(&mut self) -> Result<(), NoMemory> {
        self.push(None)
    }

    fn finish(self) -> Result<Array, NoMemory> {
        BoolBuilder::finish(self)
    }
}

/// A column of texts in the making.
#[derive(Drop)]
pub(crate) struct TextColumn {
    pub builder: TextBuilder,
    /// What a text stands for in which something is escaped.
    pub buffer: Vec<u8>,
}

impl SlotBuilder for TextColumn {
    ghost use Rattle.std.specs.Prelude.{None};
    ghost use Rattle.arrays.specs.Kind.{texts};

    ghost kind = { λ c. texts c.builder.width };

    ghost coding = { λ _. None };

    ghost items = { λ c. c.builder.items };

    #[inline]
    fn push_value(&mut self, text: &str, at: usize) -> Result<usize, Miss> {
        let read = read_text(text, at, &mut self.buffer)?;
        match self.builder.push(Some(read.value)) {
            Ok(()) => Ok(read.end),
            Err(BuildFault::OffsetsFull) => Err(Miss::Unread),
            Err(BuildFault::NoMemory) => Err(Miss::NoMemory),
        }
    }

    #[inline]
    fn push_null(&mut self) -> Result<(), NoMemory> {
        self.builder.push(None).map_err(|_| NoMemory)
    }

    fn finish(self) -> Result<Array, NoMemory> {
        let TextColumn { builder, buffer: _ } = self;
        builder.finish()
    }
}

/// Whether an index names one of so many entries.
#[inline(always)]
fn is_entry(index: i128, entries: u32) -> bool
    ensures { result ≡ is_code entries (int index) }
{
    0 <= index && index < i128::from(entries)
}

/// A column of codes in the making: of indices into a dictionary.
#[derive(Drop)]
pub(crate) struct CodeColumn<'c> {
    pub coding: &'c Coding,
    /// How many entries the dictionary has.
    pub entries: u32,
    pub builder: IntBuilder,
    ghost few: { entries ≤ most_slots },
    ghost counted: { length (arc_value coding.now.words).items ≡ entries },
    ghost one_type: { builder.ty ≡ int32 },
    ghost codes: { All (λ c. is_code (length (arc_value coding.now.words).items) c ≡ true) builder.items },
}

impl SlotBuilder for CodeColumn<'_> {
    ghost use Rattle.std.specs.Prelude.{map, Some};
    ghost use Rattle.std.specs.Arc.{arc_value};
    ghost use Rattle.arrays.specs.Dictionary.{looked_up};
    ghost use Rattle.arrays.specs.Kind.{dict};
    ghost use Rattle.json_read.specs.CatalogParts.{coding_of};

    ghost kind = { λ _. dict };

    ghost coding = { λ c. Some (coding_of c.coding.now) };

    ghost items = { λ c. map (looked_up (arc_value c.coding.now.words).items) c.builder.items };

    #[inline]
    fn push_value(&mut self, text: &str, at: usize) -> Result<usize, Miss> {
        let Some(index) = read_whole(text, at) else {
            return Err(Miss::Unread);
        };
        if !self.coding.index.holds(index.value) || !is_entry(index.value, self.entries) {
            return Err(Miss::Unread);
        }
        match self.builder.push_as::<i32>(Some(index.value)) {
            Ok(()) => Ok(index.end),
            Err(NoMemory) => Err(Miss::NoMemory),
        }
    }

    #[inline]
    fn push_null(&mut self) -> Result<(), NoMemory> {
        self.builder.push_as::<i32>(None)
    }

    fn finish(self) -> Result<Array, NoMemory> {
        let CodeColumn {
            coding,
            builder,
            ..
        } = self;
        let codes = builder.finish()?;
        match coding.words.clone() {
            Ok(words) => Ok(Array::dict(codes, words)),
            Err(_) => Err(NoMemory),
        }
    }
}
