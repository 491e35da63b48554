//! The first fault of the parts of an array.

ghost use Rattle.std.specs.Prelude.{◌≡◌, None, map, option_map};
ghost use Rattle.types.specs.First.{first};
ghost use Rattle.layout.specs.Reading.{child_fault, dictionary_fault, fault, reading};
ghost use Rattle.layout.specs.Inner.{content_faults_of, own_fault_of, shape_faults_of};

use crate::fault::LayoutFault;
use crate::raw::RawArray;
use crate::{contents, shapes};
use types::{MOST_SLOTS, is_too_deep};

/// The first fault of lengths and shapes, before any content is read.
fn shape_fault(raw: &RawArray) -> Option<LayoutFault>
    ensures { result ≡ first (shape_faults_of raw.now) }
{
    if raw.length > MOST_SLOTS as u64 {
        return Some(LayoutFault::TooLong);
    }
    if is_too_deep(&raw.ty) {
        return Some(LayoutFault::TooDeep);
    }
    if shapes::is_missing(&raw.ty, &raw.buffers) {
        return Some(LayoutFault::MissingBuffer);
    }
    if shapes::is_extra(&raw.ty, &raw.buffers) {
        return Some(LayoutFault::ExtraBuffer);
    }
    if shapes::do_parts_differ(&raw.ty, &raw.children, &raw.dictionary) {
        return Some(LayoutFault::ChildDiffers);
    }
    let n = raw.length as usize;
    if shapes::is_validity_short(&raw.buffers, n)
        || shapes::is_data_short(&raw.ty, n, &raw.buffers)
    {
        return Some(LayoutFault::BufferTooShort);
    }
    None
}

/// The first fault of what the buffers hold, where lengths and shapes have none.
fn content_fault(raw: &RawArray) -> Option<LayoutFault>
    requires { first (shape_faults_of raw.now) ≡ None }
    ensures { result ≡ first (content_faults_of raw.now) }
{
    let n = raw.length as usize;
    if contents::has_negative_offset(&raw.ty, n, &raw.buffers) {
        return Some(LayoutFault::OffsetNegative);
    }
    if let Some(row) = contents::decreasing_row(&raw.ty, n, &raw.buffers) {
        return Some(LayoutFault::OffsetDecreases { row });
    }
    if contents::is_past_end(&raw.ty, n, &raw.buffers, &raw.children) {
        return Some(LayoutFault::OffsetPastEnd);
    }
    if contents::does_count_differ(raw.null_count, n, &raw.buffers) {
        return Some(LayoutFault::NullCountDiffers);
    }
    if let Some(row) = contents::bad_text_row(&raw.ty, n, &raw.buffers) {
        return Some(LayoutFault::NotUtf8 { row });
    }
    if let Some(row) = contents::bad_code_row(&raw.ty, n, &raw.buffers, &raw.dictionary) {
        return Some(LayoutFault::IndexPastDictionary { row });
    }
    None
}

/// The first fault of an array itself, whatever its child and its dictionary hold. It takes no memory.
pub fn own_fault(raw: &RawArray) -> Option<LayoutFault>
    ensures { result ≡ own_fault_of raw.now }
{
    if let Some(fault) = shape_fault(raw) {
        return Some(fault);
    }
    content_fault(raw)
}

/// The first fault of the parts: the array's own, else its child's, else its dictionary's. It takes no memory.
///
/// It goes down at most 9 levels: an array with no fault of its own has a type of at most 8 lists in
/// one another, its child has the type of its items, and its dictionary the type of texts, which has neither.
#[cycle(first_fault)]
pub fn first_fault(raw: &RawArray) -> Option<LayoutFault>
    ensures { result ≡ fault raw.now }
{
    if let Some(fault) = own_fault(raw) {
        return Some(fault);
    }
    if let Some(fault) = child_fault(&raw.children) {
        return Some(fault);
    }
    dictionary_fault(&raw.dictionary)
}

/// The first fault of the child, if there is one.
#[cycle(first_fault)]
fn child_fault(children: &[RawArray]) -> Option<LayoutFault>
    ensures { result ≡ child_fault (map reading children.now) }
{
    match children {
        [child, ..] => first_fault(child),
        [] => None,
    }
}

/// The first fault of the dictionary, if there is one.
#[cycle(first_fault)]
fn dictionary_fault(dictionary: &Option<Box<RawArray>>) -> Option<LayoutFault>
    ensures { result ≡ dictionary_fault (option_map (λ b. reading b.value) dictionary.now) }
{
    match dictionary {
        Some(entries) => first_fault(entries),
        None => None,
    }
}
