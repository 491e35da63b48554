//! Rows that indices name.

ghost use Rattle.std.specs.Prelude.{◌≡◌, ◌≤◌, List, drop, option_map, IfErr, IfNone, IfOk, IfSome, Some};
ghost use Rattle.std.specs.List.{All};
ghost use Rattle.arrays.specs.Prelude.{Item, is_code, item_of, most_slots};
ghost use Rattle.arrays.specs.Kind as kind;
ghost use Rattle.select.specs.Named.{IsLeastOutside, NameRows, rows_named};
ghost use Rattle.select.specs.Picked.{IsPick, picked};
ghost use Rattle.select.specs.Selection.{outside, taken};

use crate::fault::SelectFault;
use crate::rows::{Place, Rows};
use arrays::{Integer, Ints, View};
use std::marker::Model;

/// The rows that indices of type `T` name, none where an index is null. Nothing is copied.
#[derive(Drop)]
pub(crate) struct Indices<'a, T: Integer> {
    numbers: Ints<'a, T>,
}

impl<'a, T: Integer> Model for Indices<'a, T> {
    ghost use Rattle.arrays.specs.Prelude.{most_slots};
    ghost use Rattle.std.specs.Prelude.{ℕ, List, Option};
    ghost use Rattle.select.specs.Named.{NameRows, rows_named};

    ghost Value = { List (Option ℕ) };

    ghost view = { λ r. rows_named T.ty r.numbers.values.now r.numbers.validity r.numbers.slots };

    ghost invariant = { λ r. NameRows T.ty r.numbers.values.now r.numbers.validity most_slots r.numbers.slots };
}

impl<'a, T: Integer> Indices<'a, T> {
    /// Those of a view, each of which is null or names one of `len` rows.
    pub(crate) fn of(indices: &View<'a>, len: usize) -> Result<Indices<'a, T>, SelectFault>
        requires kind { indices.now.kind ≡ kind.int T.ty }
        requires short { len ≤ most_slots }
        ensures inside { IfOk result (λ r. outside len indices.now.items ≡ None) }
        ensures rows { IfOk result (λ r. (items : List Item) → picked items r ≡ taken items indices.now.items) }
        ensures within { IfOk result (λ r. All (IsPick len) r) }
        ensures err { IfErr result (λ e. option_map (λ row. SelectFault.IndexOutOfRange row) (outside len indices.now.items) ≡ Some e) }
    {
        let numbers = indices.ints::<T>();
        match first_outside(&numbers, len) {
            Some(row) => Err(SelectFault::IndexOutOfRange { row }),
            None => Ok(Indices::new(numbers)),
        }
    }

    /// The rows that numbers name.
    fn new(numbers: Ints<'a, T>) -> Indices<'a, T>
        requires { NameRows T.ty numbers.values.now numbers.validity most_slots numbers.slots }
        ensures { result ≡ rows_named T.ty numbers.entry.values.now numbers.entry.validity numbers.entry.slots }
    {
        Indices { numbers }
    }
}

/// The least of the numbers that is there and names none of `len` rows.
fn first_outside<T: Integer>(numbers: &Ints<'_, T>, len: usize) -> Option<usize>
    ensures some { IfSome result (IsLeastOutside T.ty numbers.now.values.now numbers.now.validity len numbers.now.slots) }
    ensures none { IfNone result (NameRows T.ty numbers.now.values.now numbers.now.validity len numbers.now.slots) }
{
    for i in 0..numbers.slots as usize {
        if !names_row(numbers.get(i), len) {
            return Some(i);
        }
    }
    None
}

/// Whether the index is null or names one of `len` rows.
#[inline(always)]
fn names_row(index: Option<i128>, len: usize) -> bool
    ensures { result ≡ is_code len (item_of index) }
{
    match index {
        Some(row) => 0 <= row && row < len as i128,
        None => true,
    }
}

impl<'a, T: Integer> Rows for Indices<'a, T> {
    ghost picks = { λ r. r };

    ghost rest = { λ r p. drop p.at r };

    fn slots(&self) -> u32 {
        self.numbers.slots
    }

    fn are_rows(&self) -> bool {
        self.numbers.validity.is_none()
    }

    fn first(&self) -> Place {
        Place { at: 0, ones: 0 }
    }

    #[inline(always)]
    fn next(&self, place: &mut Place) -> Option<usize> {
        let index = self.numbers.get(place.at as usize);
        place.at += 1;
        match index {
            Some(row) => Some(row as usize),
            None => None,
        }
    }
}
