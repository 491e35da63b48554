//! Dictionary-encoded views one after the other: their dictionaries too, and their codes shifted.

ghost use Rattle.std.specs.Prelude.{◌≡◌, ◌+◌, ◌++◌, ◌<◌, ◌≤◌, IfErr, IfOk, OnOk, length, map};
ghost use Rattle.std.specs.List.{All};
ghost use Rattle.std.specs.Option.{ForSome};
ghost use Rattle.arrays.specs.Prelude.{IsOfType, Seen, int32, item_of, joined_items, most_slots, shown};
ghost use Rattle.arrays.specs.Kind as kind;
ghost use Rattle.select.specs.Fault.{IsFull};
ghost use Rattle.select.specs.Joined.{IsEncoded, is_content_too_big, joined, joined_codes, joined_entries, shifted};

use super::{slots_of, texts};
use crate::fault::SelectFault;
use arrays::{Array, INT32, IntBuilder, NoMemory, OffsetWidth, View, Words};
use std::alloc::Global;
use std::sync::Arc;

/// The dictionary-encoded texts of views, which have so many slots together.
pub(super) fn join(alloc: Global, views: &[View<'_>], slots: usize) -> Result<Array, SelectFault>
    requires kinds { All (λ (s : Seen). s.kind ≡ kind.dict) views.now }
    requires slots { slots ≡ length (joined_items views.now) }
    requires short { slots ≤ most_slots }
    ensures ok { IfOk result (λ r. r ≡ joined kind.dict views.now) }
    ensures err { IfErr result (IsFull (is_content_too_big kind.dict views.now)) }
{
    let entries = entries_of(alloc, views)?;
    let Some(most) = slots_of(&entries) else {
        return Err(SelectFault::OffsetsFull);
    };
    let dictionary = texts::join(alloc, OffsetWidth::Narrow, &entries, most)?;
    let codes = codes_of(alloc, views, slots)?;
    Ok(Array::dict(codes, Arc::new(alloc, Words::of(dictionary))?))
}

/// All entries of the dictionary of each view.
fn entries_of<'a>(alloc: Global, views: &[View<'a>]) -> Result<Vec<View<'a>>, NoMemory>
    requires { All (λ (s : Seen). s.kind ≡ kind.dict) views.now }
    ensures kinds { IfOk result (λ v. All (λ (s : Seen). s.kind ≡ kind.utf8) v.items) }
    ensures items { IfOk result (λ v. joined_items v.items ≡ joined_entries views.now) }
{
    let mut entries = Vec::with_capacity(alloc, views.len())?;
    for view in views {
        entries.push(view.entries())?;
    }
    Ok(entries)
}

/// The codes of all views, as codes of their dictionaries one after the other.
fn codes_of(alloc: Global, views: &[View<'_>], slots: usize) -> Result<Array, NoMemory>
    requires kinds { All (λ (s : Seen). s.kind ≡ kind.dict) views.now }
    requires slots { slots ≡ length (joined_items views.now) }
    requires short { slots ≤ most_slots }
    requires few { length (joined_entries views.now) ≤ most_slots }
    ensures encoded { IfOk result (λ r. All IsEncoded views.now) }
    ensures codes { IfOk result (λ r. r ≡ shown (kind.int int32) (joined_codes 0 views.now)) }
{
    let mut builder = IntBuilder::with_capacity(alloc, INT32, slots)?;
    let mut before = 0;
    for view in views {
        push_shifted(&mut builder, view, before)?;
        before += view.entries().len();
    }
    builder.finish()
}

/// Adds the codes of a view at the end, each raised by the entries that come before those of its dictionary.
fn push_shifted(builder: &mut IntBuilder, view: &View<'_>, before: usize) -> Result<(), NoMemory>
    requires kind { view.now.kind ≡ kind.dict }
    requires ty { builder.old.ty ≡ int32 }
    requires room { length builder.old.items + length view.now.items ≤ most_slots }
    requires few { before + length view.now.entries.items ≤ most_slots }
    ensures encoded { IsEncoded view.now }
    ensures ty { builder.new.ty ≡ int32 }
    ensures items { OnOk result (builder.new.items ≡ builder.old.items ++ map (shifted before) view.now.codes) }
{
    let codes = view.codes();
    let numbers = codes.ints::<i32>();
    for i in 0..codes.len() {
        builder.push_as::<i32>(shift(numbers.get(i), before))?;
    }
    Ok(())
}

/// A code whose dictionary comes after so many entries.
#[inline(always)]
fn shift(code: Option<i128>, before: usize) -> Option<i128>
    requires of_type { ForSome code (IsOfType int32) }
    requires small { before ≤ most_slots }
    ensures { item_of result ≡ shifted before (item_of code) }
{
    match code {
        Some(code) => Some(code + before as i128),
        None => None,
    }
}
