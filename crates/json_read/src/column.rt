ghost use Rattle.std.specs.Prelude.{◌≡◌, ◌+◌, ◌<◌, ◌^◌, ◌∷◌, ◌++◌, [], length, false, Option, Some, None, IfOk, IfErr, IfSome, OnOk, option_map, option_and_then};
ghost use Rattle.arrays.specs.Prelude.{null};
ghost use Rattle.arrays.specs.Kind as kind;
ghost use Rattle.json_base.specs.Prelude.{IsObject, ListFault, MemberFault, Tells, as_array, count_of, item, items_view, member_of, no_items, view};
ghost use Rattle.json_read.specs.JsonBatch.{HoldsColumn};
ghost use Rattle.json_read.specs.JsonColumn.{flags_of, flagged_at, numbers, truths, texts, spelling_of, overflows, ReadsSlots, HasSlots};
ghost use Rattle.json_read.specs.JsonColumnFault.{CountFault, FlagsFault, NoSlots, SlotsFault, ColumnFault};
ghost use Rattle.json_read.specs.SlotParts.{flags_in, values_in};
ghost use Rattle.json_read.specs.Unfit.{HasNextItem, IsUnfit, IsSlotFault};
ghost use Rattle.json_base.specs.declared.path.Member.TheVariants as member;

use arrays::{
    Array, BoolBuilder, BuildFault, IntBuilder, IntType, LayoutFault, NoMemory, OffsetWidth,
    TextBuilder,
};
use json_base::member::{check_object, count_member, required};
use json_base::number::{flag, integer};
use json_base::{JsonFault, JsonFaultKind, Member, Step, Value};
use std::alloc::Global;

/// That the column's count is what the batch has.
#[tactic(auto, using(crate::proofs::JsonColumnFaults::count_faults))]
pub(crate) fn check_count(alloc: Global, column: &Value, count: u32) -> Result<(), JsonFault>
    requires { IsObject (view column.now) }
    ensures ok { OnOk result
        (option_and_then count_of (member_of member.Count (view column.now)) ≡ Some count) }
    ensures err { IfErr result (Tells (CountFault count (view column.now))) }
{
    if count_member(alloc, column, Member::Count)? == count {
        Ok(())
    } else {
        Err(JsonFault::at(
            alloc,
            JsonFaultKind::CountDiffers,
            &[Step::Member(Member::Count)],
        ))
    }
}

/// The items of an array that is to have `len` of them.
#[tactic(auto, using(crate::proofs::JsonColumnFaults::list_faults))]
pub(crate) fn list_of<'v>(
    alloc: Global,
    value: &'v Value,
    len: usize,
) -> Result<&'v [Value], JsonFault>
    ensures items { IfOk result (λ items. as_array (view value.now) ≡ Some (items_view items.now)) }
    ensures whole { IfOk result (λ items. length items.now ≡ len) }
    ensures err { IfErr result (Tells (ListFault len (view value.now))) }
{
    let Some(items) = value.as_array() else {
        return Err(JsonFault::at(alloc, JsonFaultKind::WrongMember, &[]));
    };
    let items = items.as_slice();
    if items.len() == len {
        Ok(items)
    } else {
        Err(JsonFault::at(alloc, JsonFaultKind::CountDiffers, &[]))
    }
}

/// The member of an object, an array that is to have `len` items.
#[tactic(auto, using(crate::proofs::JsonColumnFaults::list_faults))]
pub(crate) fn list_member<'v>(
    alloc: Global,
    object: &'v Value,
    member: Member,
    len: usize,
) -> Result<&'v [Value], JsonFault>
    requires { IsObject (view object.now) }
    ensures items { IfOk result (λ items.
        option_and_then as_array (member_of member (view object.now)) ≡ Some (items_view items.now)) }
    ensures whole { IfOk result (λ items. length items.now ≡ len) }
    ensures err { IfErr result (Tells (MemberFault member (ListFault len) (view object.now))) }
{
    let found = required(alloc, object, member)?;
    list_of(alloc, found, len).map_err(|fault| fault.under(alloc, Step::Member(member)))
}

/// The item of a member of an object, an array that is to have exactly one.
#[tactic(auto, using(crate::proofs::JsonLists::single_found))]
pub(crate) fn single_member(
    alloc: Global,
    object: &Value,
    member: Member,
) -> Result<&Value, JsonFault>
    requires { IsObject (view object.now) }
    ensures single { IfOk result (λ found.
        option_and_then as_array (member_of member (view object.now)) ≡ Some (item (view found.now) no_items)) }
    ensures err { IfErr result (Tells (MemberFault member (ListFault 1) (view object.now))) }
{
    let items = list_member(alloc, object, member, 1)?;
    Ok(&items[0])
}

/// The flags of a column, none where all its slots are valid.
#[tactic(auto, using(crate::proofs::JsonColumnFaults::flags_faults))]
pub(crate) fn flags<'v>(
    alloc: Global,
    column: &'v Value,
    count: u32,
) -> Result<Option<&'v [Value]>, JsonFault>
    ensures flags { IfOk result (λ flags. flags_of (member_of member.Validity (view column.now))
        ≡ Some (option_map (λ fs. items_view fs.now) flags)) }
    ensures whole { IfOk result (λ flags. IfSome flags (λ fs. length fs.now ≡ count)) }
    ensures err { IfErr result (Tells (FlagsFault count (view column.now))) }
{
    let Some(found) = column.get(Member::Validity.name()) else {
        return Ok(None);
    };
    if found.is_null() {
        return Ok(None);
    }
    let flags = list_of(alloc, found, count as usize);
    let flags = flags.map_err(|fault| fault.under(alloc, Step::Member(Member::Validity)))?;
    Ok(Some(flags))
}

/// The flags and values of a column's slots.
#[derive(Drop)]
pub(crate) struct Slots<'v> {
    /// None where all slots are valid.
    pub flags: Option<&'v [Value]>,
    pub values: &'v [Value],
}

impl Slots<'_> {
    /// Whether a slot is valid; none where its flag is no flag.
    #[inline]
    #[tactic(auto, using(crate::proofs::JsonSlots::flags_read))]
    pub(crate) fn valid_at(&self, index: usize) -> Option<bool>
        requires short { index < 2 ^ 31 }
        requires within { IfSome self.now.flags (λ fs. index < length fs.now) }
        ensures { result ≡ flagged_at (flags_in self.now) index }
    {
        match self.flags {
            None => Some(true),
            Some(flags) => flag(&flags[index]),
        }
    }
}

/// The flags and values of a column of `count` slots.
#[tactic(auto, using(crate::proofs::JsonColumnFaults::no_slots_faults))]
pub(crate) fn read_slots<'v>(
    alloc: Global,
    count: u32,
    column: &'v Value,
) -> Result<Slots<'v>, JsonFault>
    ensures given { IfOk result (λ s. HasSlots count (view column.now) (flags_in s) (values_in s)) }
    ensures flagged { IfOk result (λ s. IfSome s.flags (λ fs. length fs.now ≡ count)) }
    ensures whole { IfOk result (λ s. length s.values.now ≡ count) }
    ensures err { IfErr result (Tells (NoSlots count (view column.now))) }
{
    check_object(alloc, column)?;
    check_count(alloc, column, count)?;
    let flags = flags(alloc, column, count)?;
    let values = list_member(alloc, column, Member::Data, count as usize)?;
    Ok(Slots { flags, values })
}

/// Why a value isn't taken into a column.
enum Unfit {
    /// It spells nothing that the column may hold, which is reported as this kind.
    Unspelled(JsonFaultKind),
    /// With it the column would be more than its offsets count.
    TooLong,
    /// A growth was refused.
    NoMemory,
}

/// A column in the making, of which each slot has a value of its own.
trait ColumnBuilder: Drop {
    ghost use Rattle.std.specs.Prelude.{List};
    ghost use Rattle.arrays.specs.Prelude.{Item, Kind};

    ghost kind: { Self → Kind };

    ghost items: { Self → List Item };

    /// Adds the item that the value spells.
    fn push_value(&mut self, value: &Value) -> Result<(), Unfit>
        requires room { length (items self.old) < 2147483647 }
        ensures kept { kind self.new ≡ kind self.old }
        ensures ok { OnOk result
            (HasNextItem (spelling_of (kind self.old)) (items self.old) (view value.now) (items self.new)) }
        ensures err { IfErr result (IsUnfit (spelling_of (kind self.old)) (items self.old) (view value.now)) };

    /// Adds a null.
    fn push_null(&mut self) -> Result<(), NoMemory>
        requires room { length (items self.old) < 2147483647 }
        ensures kept { kind self.new ≡ kind self.old }
        ensures ok { OnOk result (items self.new ≡ items self.old ++ null ∷ []) };

    /// The column as an array.
    fn finish(self) -> Result<Array, NoMemory>
        ensures kind { IfOk result (λ a. a.kind ≡ kind self) }
        ensures items { IfOk result (λ a. a.items ≡ items self) };
}

/// A column of integers in the making.
#[derive(Drop)]
struct IntColumn {
    ty: IntType,
    builder: IntBuilder,
    ghost one_type: { builder.ty ≡ ty },
}

impl ColumnBuilder for IntColumn {
    ghost use Rattle.arrays.specs.Kind.{int};

    ghost kind = { λ c. int c.ty };

    ghost items = { λ c. c.builder.items };

    #[inline]
    #[tactic(auto, using(crate::proofs::JsonSlots::taken))]
    fn push_value(&mut self, value: &Value) -> Result<(), Unfit> {
        let Some(number) = integer(self.ty, value) else {
            return Err(Unfit::Unspelled(JsonFaultKind::BadNumber));
        };
        match self.builder.push(Some(number)) {
            Ok(()) => Ok(()),
            Err(NoMemory) => Err(Unfit::NoMemory),
        }
    }

    #[inline]
    fn push_null(&mut self) -> Result<(), NoMemory> {
        self.builder.push(None)
    }

    fn finish(self) -> Result<Array, NoMemory> {
        let IntColumn { ty: _, builder } = self;
        builder.finish()
    }
}

impl ColumnBuilder for BoolBuilder {
    ghost use Rattle.arrays.specs.Kind.{boolean};

    ghost kind = { λ _. boolean };

    ghost items = { λ items. items };

    #[inline]
    #[tactic(auto, using(crate::proofs::JsonSlots::taken))]
    fn push_value(&mut self, value: &Value) -> Result<(), Unfit> {
        let Some(truth) = flag(value) else {
            return Err(Unfit::Unspelled(JsonFaultKind::WrongMember));
        };
        match self.push(Some(truth)) {
            Ok(()) => Ok(()),
            Err(NoMemory) => Err(Unfit::NoMemory),
        }
    }

    #[inline]
    fn push_null(&mut self) -> Result<(), NoMemory> {
        self.push(None)
    }

    fn finish(self) -> Result<Array, NoMemory> {
        BoolBuilder::finish(self)
    }
}

impl ColumnBuilder for TextBuilder {
    ghost use Rattle.arrays.specs.Kind.{texts as texts_kind};

    ghost kind = { λ c. texts_kind c.width };

    ghost items = { λ c. c.items };

    #[inline]
    #[tactic(auto, using(crate::proofs::JsonSlots::taken))]
    fn push_value(&mut self, value: &Value) -> Result<(), Unfit> {
        let Some(text) = value.as_str() else {
            return Err(Unfit::Unspelled(JsonFaultKind::WrongMember));
        };
        match self.push(Some(text)) {
            Ok(()) => Ok(()),
            Err(BuildFault::OffsetsFull) => Err(Unfit::TooLong),
            Err(BuildFault::NoMemory) => Err(Unfit::NoMemory),
        }
    }

    #[inline]
    fn push_null(&mut self) -> Result<(), NoMemory> {
        match self.push(None) {
            Ok(()) => Ok(()),
            Err(_) => Err(NoMemory),
        }
    }

    fn finish(self) -> Result<Array, NoMemory> {
        TextBuilder::finish(self)
    }
}

/// The fault of the value of a slot that isn't taken.
#[cold]
fn unfit_at(alloc: Global, index: usize, unfit: Unfit) -> JsonFault
    ensures { IsSlotFault index unfit result }
{
    match unfit {
        Unfit::Unspelled(kind) => JsonFault::at(
            alloc,
            kind,
            &[Step::Member(Member::Data), Step::Item(index)],
        ),
        Unfit::TooLong => JsonFault::at(alloc, JsonFaultKind::Layout(LayoutFault::TooLong), &[]),
        Unfit::NoMemory => JsonFault::no_memory(alloc),
    }
}

/// Adds a slot to the column of those before it.
#[inline]
#[tactic(auto, using(crate::proofs::JsonSlots::slots_faults))]
fn push_slot<B: ColumnBuilder>(
    alloc: Global,
    builder: &mut B,
    slots: &Slots,
    index: usize,
) -> Result<(), JsonFault>
    requires short { index < 2147483647 }
    requires within { index < length slots.now.values.now }
    requires flagged { IfSome slots.now.flags (λ fs. index < length fs.now) }
    requires so_far { ReadsSlots (spelling_of (B.kind builder.old))
        (flags_in slots.now) (values_in slots.now) index (B.items builder.old) }
    requires fits { overflows (spelling_of (B.kind builder.old)) (B.items builder.old) ≡ false }
    ensures kept { B.kind builder.new ≡ B.kind builder.old }
    ensures ok { OnOk result (ReadsSlots (spelling_of (B.kind builder.old))
        (flags_in slots.now) (values_in slots.now) (index + 1) (B.items builder.new)) }
    ensures fits { OnOk result (overflows (spelling_of (B.kind builder.old)) (B.items builder.new) ≡ false) }
    ensures err { IfErr result (Tells (SlotsFault (spelling_of (B.kind builder.old))
        (flags_in slots.now) (values_in slots.now))) }
{
    match slots.valid_at(index) {
        Some(true) => match builder.push_value(&slots.values[index]) {
            Ok(()) => Ok(()),
            Err(unfit) => Err(unfit_at(alloc, index, unfit)),
        },
        Some(false) => match builder.push_null() {
            Ok(()) => Ok(()),
            Err(NoMemory) => Err(JsonFault::no_memory(alloc)),
        },
        None => Err(JsonFault::at(
            alloc,
            JsonFaultKind::WrongMember,
            &[Step::Member(Member::Validity), Step::Item(index)],
        )),
    }
}

/// The column with all slots added, which has none yet.
#[tactic(auto, using(crate::proofs::JsonSlots::slots_faults))]
fn filled<B: ColumnBuilder>(alloc: Global, builder: B, slots: &Slots) -> Result<B, JsonFault>
    requires empty { B.items builder ≡ [] }
    requires short { length slots.now.values.now < 2 ^ 31 }
    requires whole { IfSome slots.now.flags (λ fs. length fs.now ≡ length slots.now.values.now) }
    ensures kept { IfOk result (λ b. B.kind b ≡ B.kind builder) }
    ensures ok { IfOk result (λ b. ReadsSlots (spelling_of (B.kind builder))
        (flags_in slots.now) (values_in slots.now) (length slots.now.values.now) (B.items b)) }
    ensures fits { IfOk result (λ b. overflows (spelling_of (B.kind builder)) (B.items b) ≡ false) }
    ensures err { IfErr result (Tells (SlotsFault (spelling_of (B.kind builder))
        (flags_in slots.now) (values_in slots.now))) }
{
    let mut column = builder;
    for index in 0..slots.values.len() {
        push_slot(alloc, &mut column, slots, index)?;
    }
    Ok(column)
}

/// The array of all slots, by a column that has none yet.
fn array_of<B: ColumnBuilder>(alloc: Global, builder: B, slots: &Slots) -> Result<Array, JsonFault>
    requires empty { B.items builder ≡ [] }
    requires short { length slots.now.values.now < 2 ^ 31 }
    requires whole { IfSome slots.now.flags (λ fs. length fs.now ≡ length slots.now.values.now) }
    ensures kind { IfOk result (λ a. a.kind ≡ B.kind builder) }
    ensures ok { IfOk result (λ a. ReadsSlots (spelling_of (B.kind builder))
        (flags_in slots.now) (values_in slots.now) (length slots.now.values.now) a.items) }
    ensures fits { IfOk result (λ a. overflows (spelling_of (B.kind builder)) a.items ≡ false) }
    ensures err { IfErr result (Tells (SlotsFault (spelling_of (B.kind builder))
        (flags_in slots.now) (values_in slots.now))) }
{
    let column = filled(alloc, builder, slots)?;
    match column.finish() {
        Ok(array) => Ok(array),
        Err(NoMemory) => Err(JsonFault::no_memory(alloc)),
    }
}

/// The column of `count` integers that a column object holds.
#[tactic(auto, using(crate::proofs::JsonColumnFaults::column_faults))]
pub(crate) fn read_numbers(
    alloc: Global,
    ty: IntType,
    count: u32,
    column: &Value,
) -> Result<Array, JsonFault>
    requires { count < 2 ^ 31 }
    ensures ok { IfOk result (HoldsColumn (kind.int ty) count (view column.now)) }
    ensures err { IfErr result (Tells (ColumnFault (numbers ty) count (view column.now))) }
{
    let slots = read_slots(alloc, count, column)?;
    match IntBuilder::with_capacity(alloc, ty, slots.values.len()) {
        Ok(builder) => array_of(alloc, IntColumn { ty, builder }, &slots),
        Err(NoMemory) => Err(JsonFault::no_memory(alloc)),
    }
}

/// The column of `count` truth values that a column object holds.
#[tactic(auto, using(crate::proofs::JsonColumnFaults::column_faults))]
pub(crate) fn read_truths(alloc: Global, count: u32, column: &Value) -> Result<Array, JsonFault>
    requires { count < 2 ^ 31 }
    ensures ok { IfOk result (HoldsColumn kind.boolean count (view column.now)) }
    ensures err { IfErr result (Tells (ColumnFault truths count (view column.now))) }
{
    let slots = read_slots(alloc, count, column)?;
    match BoolBuilder::with_capacity(alloc, slots.values.len()) {
        Ok(builder) => array_of(alloc, builder, &slots),
        Err(NoMemory) => Err(JsonFault::no_memory(alloc)),
    }
}

/// The column of `count` texts, with offsets of this width, that a column object holds.
#[tactic(auto, using(crate::proofs::JsonColumnFaults::column_faults))]
pub(crate) fn read_texts(
    alloc: Global,
    width: OffsetWidth,
    count: u32,
    column: &Value,
) -> Result<Array, JsonFault>
    requires { count < 2 ^ 31 }
    ensures ok { IfOk result (HoldsColumn (kind.texts width) count (view column.now)) }
    ensures err { IfErr result (Tells (ColumnFault (texts width) count (view column.now))) }
{
    let slots = read_slots(alloc, count, column)?;
    match TextBuilder::with_capacity(alloc, width, slots.values.len(), 0) {
        Ok(builder) => array_of(alloc, builder, &slots),
        Err(NoMemory) => Err(JsonFault::no_memory(alloc)),
    }
}
