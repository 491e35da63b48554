//! Columns as text.

ghost use Rattle.std.specs.Prelude.{◌≡◌, All, OnOk};
ghost use Rattle.arrays.specs.Kind as kind;
ghost use Rattle.arrays.specs.Prelude.{field_of, inner_items, joined_items, kind_of, out-Field};
ghost use Rattle.json_print.specs.ColumnData.{column_data, list_column, only, plain_column, sized, text_column};
ghost use Rattle.json_print.specs.Slots.{AreOf, IsPartOf, code_in, part_data};
ghost use Rattle.json_print.specs.Written.{Adds, AddsMembers};

use crate::lists::lists_of;
use crate::output::Output;
use crate::slots::{Part, slot_count, write_array, write_offsets};
use crate::text_set::TextSet;
use arrays::{DataType, Field, NoMemory, OffsetWidth, View};
use std::alloc::Global;

/// Writes the members with which each column ends.
pub(crate) fn write_sized(out: &mut Output, count: u64, name: &str) -> Result<(), NoMemory>
    ensures { OnOk result (AddsMembers (sized count name.now) out.old out.new) }
{
    out.key("count")?;
    out.number(count)?;
    out.key("name")?;
    out.string(name)?;
    out.end_object()
}

/// Writes a column with a value for each slot.
fn write_plain(
    out: &mut Output,
    part: Part<'_>,
    name: &str,
    columns: &[View<'_>],
) -> Result<(), NoMemory>
    requires { All (λ c. IsPartOf c.kind part) columns.now }
    ensures { OnOk result (Adds (plain_column (part_data part.entry) name.now (joined_items columns.now)) out.old out.new) }
{
    let count = slot_count(columns)?;
    out.begin_object()?;
    out.key("DATA")?;
    write_array(out, part, columns)?;
    out.key("VALIDITY")?;
    write_array(out, Part::Flags, columns)?;
    write_sized(out, count, name)
}

/// Writes a column of texts whose offsets are of this width.
fn write_texts(
    out: &mut Output,
    width: OffsetWidth,
    name: &str,
    columns: &[View<'_>],
) -> Result<(), NoMemory>
    requires { AreOf (kind.texts width) columns.now }
    ensures { OnOk result (Adds (text_column width name.now (joined_items columns.now)) out.old out.new) }
{
    let count = slot_count(columns)?;
    out.begin_object()?;
    out.key("DATA")?;
    write_array(out, Part::Texts(width), columns)?;
    out.key("OFFSET")?;
    write_offsets(out, width, columns)?;
    out.key("VALIDITY")?;
    write_array(out, Part::Flags, columns)?;
    write_sized(out, count, name)
}

/// Writes a column of lists, of which `list` has the width of the offsets and the field of the items.
#[cycle(columns)]
fn write_lists(
    alloc: Global,
    out: &mut Output,
    texts: &TextSet,
    list: (OffsetWidth, &Field),
    name: &str,
    columns: &[View<'_>],
) -> Result<(), NoMemory>
    requires { AreOf (kind.lists list.0 (kind_of (out-Field list.1.now).ty)) columns.now }
    ensures { OnOk result (Adds (list_column list.entry.0
        (column_data (code_in texts.now) (field_of list.entry.1.now) (inner_items (joined_items columns.now)))
        name.now (joined_items columns.now)) out.old out.new) }
{
    let (width, item) = list;
    let count = slot_count(columns)?;
    let lists = lists_of(alloc, columns)?;
    out.begin_object()?;
    out.key("OFFSET")?;
    write_offsets(out, width, columns)?;
    out.key("VALIDITY")?;
    write_array(out, Part::Flags, columns)?;
    out.key("children")?;
    write_children(alloc, out, texts, item, &lists)?;
    write_sized(out, count, name)
}

/// Writes the one child of a column of lists, whose items some columns are together.
#[cycle(columns)]
fn write_children(
    alloc: Global,
    out: &mut Output,
    texts: &TextSet,
    item: &Field,
    lists: &[View<'_>],
) -> Result<(), NoMemory>
    requires { AreOf (kind_of (out-Field item.now).ty) lists.now }
    ensures { OnOk result (Adds (only (column_data (code_in texts.now) (field_of item.now) (joined_items lists.now)))
        out.old out.new) }
{
    out.begin_array()?;
    write_column(alloc, out, texts, item, lists)?;
    out.end_array()
}

/// Writes the column of a field that some columns are together, one behind the other. The codes of a
/// dictionary-encoded one are the places of its texts in the set, at which no other column looks.
#[cycle(columns)]
pub(crate) fn write_column(
    alloc: Global,
    out: &mut Output,
    texts: &TextSet,
    field: &Field,
    columns: &[View<'_>],
) -> Result<(), NoMemory>
    requires { AreOf (kind_of (out-Field field.now).ty) columns.now }
    ensures { OnOk result (Adds (column_data (code_in texts.now) (field_of field.now) (joined_items columns.now))
        out.old out.new) }
{
    let name = field.name.as_str();
    match &field.ty {
        DataType::Int(int) => write_plain(out, Part::Numbers(*int), name, columns),
        DataType::Bool => write_plain(out, Part::Truths, name, columns),
        DataType::Utf8 => write_texts(out, OffsetWidth::Narrow, name, columns),
        DataType::LargeUtf8 => write_texts(out, OffsetWidth::Wide, name, columns),
        DataType::List(item) => write_lists(
            alloc,
            out,
            texts,
            (OffsetWidth::Narrow, item),
            name,
            columns,
        ),
        DataType::LargeList(item) => write_lists(
            alloc,
            out,
            texts,
            (OffsetWidth::Wide, item),
            name,
            columns,
        ),
        DataType::Dict => write_plain(out, Part::Codes(texts), name, columns),
    }
}
