//! Columns of indices into a dictionary.

ghost use Rattle.std.specs.Prelude.{◌≡◌, ◌+◌, ◌<◌, ◌^◌, length, true, Some, IfOk, IfErr, IfSome, OnOk};
ghost use Rattle.std.specs.Arc.{arc_value};
ghost use Rattle.arrays.specs.Prelude.{int, is_code};
ghost use Rattle.arrays.specs.Kind as kind;
ghost use Rattle.json_base.specs.Prelude.{Tells, view};
ghost use Rattle.json_read.specs.CodeParts.{HoldsCodes};
ghost use Rattle.json_read.specs.JsonCodes.{ReadsCodes};
ghost use Rattle.json_read.specs.JsonCodesFault.{CodesFault, IndicesFault};
ghost use Rattle.json_read.specs.JsonColumn.{flagged_at};
ghost use Rattle.json_read.specs.SlotParts.{flags_in, values_in};

use crate::column::{Slots, read_slots};
use arrays::{Array, IntBuilder, IntType, Integer, LayoutFault, NoMemory, View, Words};
use json_base::number::integer;
use json_base::{JsonFault, JsonFaultKind, Member, Step, Value};
use std::alloc::Global;
use std::sync::Arc;

/// Whether an index names one of so many entries.
fn is_entry(index: i128, entries: u32) -> bool
    ensures { result ≡ is_code entries (int index) }
{
    0 <= index && index < entries as i128
}

/// Adds the code of a valid slot to those before it. An index that 32 bits don't hold is past each dictionary.
#[tactic(auto, using(crate::proofs::JsonCodes::codes_faults))]
fn push_index(
    alloc: Global,
    builder: &mut IntBuilder,
    ty: IntType,
    texts: &View<'_>,
    slots: &Slots,
    index: usize,
) -> Result<(), JsonFault>
    requires short { index < 2147483647 }
    requires within { index < length slots.now.values.now }
    requires valid { flagged_at (flags_in slots.now) index ≡ Some true }
    requires so_far { HoldsCodes ty texts.now.items (flags_in slots.now) (values_in slots.now) index builder.old }
    ensures ok { OnOk result
        (HoldsCodes ty texts.now.items (flags_in slots.now) (values_in slots.now) (index + 1) builder.new) }
    ensures err { IfErr result (Tells (IndicesFault ty texts.now.items (flags_in slots.now) (values_in slots.now))) }
{
    let Some(number) = integer(ty, &slots.values[index]) else {
        let place = [Step::Member(Member::Data), Step::Item(index)];
        return Err(JsonFault::at(alloc, JsonFaultKind::BadNumber, &place));
    };
    if !is_entry(number, texts.slots()) {
        let past = LayoutFault::IndexPastDictionary { row: index };
        return Err(JsonFault::at(alloc, JsonFaultKind::Layout(past), &[]));
    }
    match builder.push(Some(number)) {
        Ok(()) => Ok(()),
        Err(NoMemory) => Err(JsonFault::no_memory(alloc)),
    }
}

/// Adds the code of a slot to those before it.
#[tactic(auto, using(crate::proofs::JsonCodes::codes_faults))]
fn push_code(
    alloc: Global,
    builder: &mut IntBuilder,
    ty: IntType,
    texts: &View<'_>,
    slots: &Slots,
    index: usize,
) -> Result<(), JsonFault>
    requires short { index < 2147483647 }
    requires within { index < length slots.now.values.now }
    requires flagged { IfSome slots.now.flags (λ fs. index < length fs.now) }
    requires so_far { HoldsCodes ty texts.now.items (flags_in slots.now) (values_in slots.now) index builder.old }
    ensures ok { OnOk result
        (HoldsCodes ty texts.now.items (flags_in slots.now) (values_in slots.now) (index + 1) builder.new) }
    ensures err { IfErr result (Tells (IndicesFault ty texts.now.items (flags_in slots.now) (values_in slots.now))) }
{
    match slots.valid_at(index) {
        Some(true) => push_index(alloc, builder, ty, texts, slots, index),
        Some(false) => match builder.push(None) {
            Ok(()) => Ok(()),
            Err(NoMemory) => Err(JsonFault::no_memory(alloc)),
        },
        None => {
            let place = [Step::Member(Member::Validity), Step::Item(index)];
            Err(JsonFault::at(alloc, JsonFaultKind::WrongMember, &place))
        }
    }
}

/// The codes of all slots, and no more.
#[tactic(auto, using(crate::proofs::JsonCodes::codes_faults))]
fn codes_of(
    alloc: Global,
    ty: IntType,
    texts: &View<'_>,
    slots: &Slots,
) -> Result<IntBuilder, JsonFault>
    requires short { length slots.now.values.now < 2 ^ 31 }
    requires whole { IfSome slots.now.flags (λ fs. length fs.now ≡ length slots.now.values.now) }
    ensures ok { IfOk result (HoldsCodes ty texts.now.items (flags_in slots.now) (values_in slots.now)
        (length slots.now.values.now)) }
    ensures err { IfErr result (Tells (IndicesFault ty texts.now.items (flags_in slots.now) (values_in slots.now))) }
{
    let Ok(mut builder) = IntBuilder::with_capacity(alloc, i32::ty(), slots.values.len()) else {
        return Err(JsonFault::no_memory(alloc));
    };
    for index in 0..slots.values.len() {
        push_code(alloc, &mut builder, ty, texts, slots, index)?;
    }
    Ok(builder)
}

/// The column of `count` indices that a column object holds, with the dictionary that they lead into.
#[tactic(auto, using(crate::proofs::JsonCodes::column_faults))]
pub(crate) fn read_codes(
    alloc: Global,
    ty: IntType,
    words: &Arc<Words>,
    count: u32,
    column: &Value,
) -> Result<Array, JsonFault>
    requires { count < 2 ^ 31 }
    ensures kind { IfOk result (λ a. a.kind ≡ kind.dict) }
    ensures ok { IfOk result (λ a. ReadsCodes ty (arc_value words.now).items count (view column.now) a.items) }
    ensures err { IfErr result (Tells (CodesFault ty (arc_value words.now).items count (view column.now))) }
{
    let slots = read_slots(alloc, count, column)?;
    let texts = words.view();
    let codes = codes_of(alloc, ty, &texts, &slots)?;
    let Ok(codes) = codes.finish() else {
        return Err(JsonFault::no_memory(alloc));
    };
    match words.clone() {
        Ok(words) => Ok(Array::dict(codes, words)),
        Err(_) => Err(JsonFault::no_memory(alloc)),
    }
}
