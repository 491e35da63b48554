//! Picked texts: their offsets in one walk, their bytes in another.

ghost use Rattle.std.specs.Prelude.{◌≡◌, ◌+◌, ◌≤◌, ◌++◌, IfErr, IfOk, OnOk, length};
ghost use Rattle.std.specs.List.{All};
ghost use Rattle.std.specs.Option.{option_copied};
ghost use Rattle.arrays.specs.Kind as kind;
ghost use Rattle.arrays.specs.Prelude.{Wide, is_full, item_of_text, items_of_texts, most_of, shown, text_bytes, text_length};
ghost use Rattle.select.specs.Fault.{IsFull};
ghost use Rattle.select.specs.Picked.{IsPick, picked, picked_at};
ghost use Rattle.select.specs.Texts.{AreOffsetsOf, all_bytes, bytes_in};

use super::bits::picked_validity;
use crate::fault::SelectFault;
use crate::rows::Rows;
use arrays::{Array, Buffer, NoMemory, OffsetSlots, OffsetWidth, Texts, View};
use std::alloc::Global;

/// The picked rows of a view of texts without a dictionary whose offsets are of this width.
pub(super) fn gather<R: Rows>(
    alloc: Global,
    width: OffsetWidth,
    view: &View<'_>,
    rows: &R,
) -> Result<Array, SelectFault>
    requires kind { view.now.kind ≡ kind.texts width }
    requires within { All (IsPick (length view.now.items)) (R.picks rows.now) }
    ensures ok { IfOk result (λ r. r ≡ shown (kind.texts width) (picked view.now.items (R.picks rows.now))) }
    ensures err { IfErr result (IsFull (is_full width (text_bytes (picked view.now.items (R.picks rows.now))))) }
{
    let texts = view.texts(width);
    let laid = picked_offsets(alloc, width, &texts, rows)?;
    let filled = picked_bytes(alloc, &texts, rows, laid.end)?;
    let slots = OffsetSlots {
        width,
        len: rows.slots(),
        validity: picked_validity(alloc, &texts.validity, rows)?,
        offsets: Buffer::from_vec(laid.offsets)?,
    };
    let bytes = Buffer::from_vec(filled)?;
    Ok(Array::from_texts(alloc, slots, bytes)?)
}

/// Where texts begin, little-endian, and where the last one ends.
#[derive(Drop)]
struct Laid {
    offsets: Vec<u8>,
    end: usize,
}

/// The offsets of the picked texts.
fn picked_offsets<R: Rows>(
    alloc: Global,
    width: OffsetWidth,
    texts: &Texts<'_>,
    rows: &R,
) -> Result<Laid, SelectFault>
    requires within { All (IsPick texts.now.slots) (R.picks rows.now) }
    ensures ok { IfOk result (λ o. AreOffsetsOf width (picked (items_of_texts texts.now) (R.picks rows.now)) o.offsets.items o.end) }
    ensures err { IfErr result (IsFull (is_full width (text_bytes (picked (items_of_texts texts.now) (R.picks rows.now))))) }
{
    let count = rows.slots() as usize;

    // Room for the padding too, so that the offsets aren't copied again.
    let mut offsets = Vec::with_capacity(alloc, (count + 1) * width.bytes() + 63)?;
    width.push(&mut offsets, 0)?;
    let mut end = 0;
    let mut place = rows.first();
    for _slot in 0..count {
        let row = rows.next(&mut place);
        end = end_after(alloc, width, end, text_at(texts, row))?;
        width.push(&mut offsets, end)?;
    }
    Ok(Laid { offsets, end })
}

/// Where the next text ends.
#[inline(always)]
fn end_after(
    alloc: Global,
    width: OffsetWidth,
    end: usize,
    text: Option<&str>,
) -> Result<usize, SelectFault>
    requires { end ≤ most_of width }
    ensures ok { IfOk result (λ e. e ≡ end + text_length (item_of_text (option_copied text.entry))) }
    ensures short { IfOk result (λ e. e ≤ most_of width) }
    ensures err { IfErr result (IsFull (is_full width (end + text_length (item_of_text (option_copied text.entry))))) }
{
    let next = end + size_of(text);
    if next <= width.most() {
        return Ok(next);
    }
    if width.is_full(next) {
        return Err(SelectFault::OffsetsFull);
    }

    // No memory holds so many bytes: it refuses them.
    let _room = Vec::<u8>::with_capacity(alloc, next)?;
    Err(SelectFault::NoMemory)
}

/// The bytes of the picked texts, of which there are so many.
fn picked_bytes<R: Rows>(
    alloc: Global,
    texts: &Texts<'_>,
    rows: &R,
    size: usize,
) -> Result<Vec<u8>, NoMemory>
    requires within { All (IsPick texts.now.slots) (R.picks rows.now) }
    requires size { size ≤ most_of Wide }
    ensures { IfOk result (λ b. b.items ≡ all_bytes (picked (items_of_texts texts.now) (R.picks rows.now))) }
{
    let count = rows.slots() as usize;
    let mut bytes = Vec::with_capacity(alloc, size + 63)?;
    let mut place = rows.first();
    for _slot in 0..count {
        let row = rows.next(&mut place);
        push_text(&mut bytes, text_at(texts, row))?;
    }
    Ok(bytes)
}

/// How many bytes the text has: 0 where there is none.
#[inline(always)]
fn size_of(text: Option<&str>) -> usize
    ensures { result ≡ text_length (item_of_text (option_copied text.entry)) }
{
    match text {
        Some(text) => text.len(),
        None => 0,
    }
}

/// Adds the bytes of the text, if there is one.
#[inline(always)]
fn push_text(bytes: &mut Vec<u8>, text: Option<&str>) -> Result<(), NoMemory>
    ensures { OnOk result (bytes.new.items ≡ bytes.old.items ++ bytes_in (item_of_text (option_copied text.entry))) }
{
    if let Some(text) = text {
        bytes.extend_from_slice(text.as_bytes())?;
    }
    Ok(())
}

/// The text of the picked row, none where there is none.
#[inline(always)]
fn text_at<'a>(texts: &Texts<'a>, pick: Option<usize>) -> Option<&'a str>
    requires { IsPick texts.now.slots pick }
    ensures { item_of_text (option_copied result) ≡ picked_at (items_of_texts texts.now) pick }
{
    match pick {
        Some(i) => texts.get(i),
        None => None,
    }
}
