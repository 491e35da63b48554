//! The slots of columns as text.

ghost use Rattle.std.specs.Prelude.{◌≡◌, ◌+◌, ◌++◌, ◌<◌, All, IfOk, OnOk, length, slice_index_or, sum_by, true, option_copied};
ghost use Rattle.arrays.specs.Prelude.{IsItemOf, item_of_text, joined_items, null};
ghost use Rattle.json_base.specs.Prelude.{array};
ghost use Rattle.json_print.specs.ColumnData.{code_data, each, flag_data, item_length, offsets_data};
ghost use Rattle.json_print.specs.Slots.{AddsEach, IsPartOf, code_in, is_sized, part_data, starts_tokens};
ghost use Rattle.json_print.specs.Written.{Adds, AddsItems};

use crate::number::{write_number, write_offset};
use crate::output::Output;
use crate::text_set::TextSet;
use arrays::{IntType, NoMemory, OffsetWidth, View, ViewType};

/// What is written of each slot of a column.
#[derive(Clone, Copy)]
pub(crate) enum Part<'a> {
    /// The numbers of a type.
    Numbers(IntType),
    /// The truth values.
    Truths,
    /// The texts, whose offsets are of this width.
    Texts(OffsetWidth),
    /// The places of texts in a dictionary.
    Codes(&'a TextSet),
    /// Whether there is an item, whatever the column's kind.
    Flags,
}

/// Writes 1 or 0.
fn write_flag(out: &mut Output, flag: bool) -> Result<(), NoMemory>
    ensures { OnOk result (Adds (flag_data flag) out.old out.new) }
{
    out.number(u64::from(flag))
}

/// Writes the code of a text, 0 where there is none.
fn write_code(out: &mut Output, texts: &TextSet, text: Option<&str>) -> Result<(), NoMemory>
    ensures { OnOk result (Adds (code_data (code_in texts.now) (item_of_text (option_copied text.entry))) out.old out.new) }
{
    match text {
        Some(text) => out.number(texts.place_of(text).unwrap_or(0) as u64),
        None => out.number(0),
    }
}

/// Writes a part of slot `i`.
fn write_slot(out: &mut Output, part: Part<'_>, view: &View<'_>, i: usize) -> Result<(), NoMemory>
    requires part { IsPartOf view.now.kind part }
    requires items { All (IsItemOf view.now.kind) view.now.items }
    requires within { i < length view.now.items }
    ensures { OnOk result (Adds (part_data part.entry (slice_index_or view.now.items i null)) out.old out.new) }
{
    match part {
        Part::Numbers(ty) => write_number(out, ty, view.int_as(ty, i).unwrap_or(0)),
        Part::Truths => write_flag(out, view.bool_at(i).unwrap_or(false)),
        Part::Texts(width) => out.string(view.text_as(width, i).unwrap_or("")),
        Part::Codes(texts) => write_code(out, texts, view.text_at(i)),
        Part::Flags => write_flag(out, view.holds(i)),
    }
}

/// Writes a part of each slot.
fn write_slots(out: &mut Output, part: Part<'_>, view: &View<'_>) -> Result<(), NoMemory>
    requires { IsPartOf view.now.kind part }
    ensures { OnOk result (AddsEach (part_data part.entry) view.now.items out.old out.new) }
{
    view.tell_items();
    for i in 0..view.len() {
        write_slot(out, part, view, i)?;
    }
    Ok(())
}

/// Writes an array of a part of each slot of the columns, one column behind the other.
pub(crate) fn write_array(
    out: &mut Output,
    part: Part<'_>,
    columns: &[View<'_>],
) -> Result<(), NoMemory>
    requires { All (λ c. IsPartOf c.kind part) columns.now }
    ensures { OnOk result (Adds (array (each (part_data part.entry) (joined_items columns.now))) out.old out.new) }
{
    out.begin_array()?;
    write_items(out, part, columns)
}

/// Writes a part of each slot of the columns, and the end of the array.
fn write_items(out: &mut Output, part: Part<'_>, columns: &[View<'_>]) -> Result<(), NoMemory>
    requires { All (λ c. IsPartOf c.kind part) columns.now }
    ensures { OnOk result (AddsItems (each (part_data part.entry) (joined_items columns.now)) out.old out.new) }
{
    for column in columns {
        write_slots(out, part, column)?;
    }
    out.end_array()
}

/// How many bytes the text of slot `i` has, or how many items its list, none where it is null.
fn item_length(view: &View<'_>, i: usize) -> usize
    requires kind { is_sized view.now.kind ≡ true }
    requires within { i < length view.now.items }
    ensures { result ≡ item_length (slice_index_or view.now.items i null) }
{
    match view.ty() {
        ViewType::Text(width) => view.text_as(width, i).unwrap_or("").len(),
        _ => match view.list_at(i) {
            Some(list) => list.len(),
            None => 0,
        },
    }
}

/// Writes where each slot begins, the first one at `start`, and tells where the last one ends. Numbers past 64 bits
/// are of more bytes or items than a memory holds.
fn write_starts(
    out: &mut Output,
    width: OffsetWidth,
    view: &View<'_>,
    start: u64,
) -> Result<u64, NoMemory>
    requires { is_sized view.now.kind ≡ true }
    ensures starts { OnOk result (out.new ≡ out.old ++ starts_tokens width start view.now.items) }
    ensures end { IfOk result (λ end. end ≡ start + sum_by item_length view.now.items) }
{
    let mut end = start;
    for i in 0..view.len() {
        write_offset(out, width, end)?;
        end = end
            .checked_add(item_length(view, i) as u64)
            .ok_or(NoMemory)?;
    }
    Ok(end)
}

/// Writes the offsets of columns, one column behind the other, and the end of the array.
fn write_ends(out: &mut Output, width: OffsetWidth, columns: &[View<'_>]) -> Result<(), NoMemory>
    requires { All (λ c. is_sized c.kind ≡ true) columns.now }
    ensures { OnOk result (AddsItems (offsets_data width 0 (joined_items columns.now)) out.old out.new) }
{
    let mut end = 0;
    for column in columns {
        end = write_starts(out, width, column, end)?;
    }
    write_offset(out, width, end)?;
    out.end_array()
}

/// Writes the array of offsets of columns, one column behind the other.
pub(crate) fn write_offsets(
    out: &mut Output,
    width: OffsetWidth,
    columns: &[View<'_>],
) -> Result<(), NoMemory>
    requires { All (λ c. is_sized c.kind ≡ true) columns.now }
    ensures { OnOk result (Adds (array (offsets_data width 0 (joined_items columns.now))) out.old out.new) }
{
    out.begin_array()?;
    write_ends(out, width, columns)
}

/// How many slots the columns have together.
pub(crate) fn slot_count(columns: &[View<'_>]) -> Result<u64, NoMemory>
    ensures { IfOk result (λ n. n ≡ length (joined_items columns.now)) }
{
    let mut count = 0u64;
    for column in columns {
        count = count
            .checked_add(u64::from(column.slots()))
            .ok_or(NoMemory)?;
    }
    Ok(count)
}
