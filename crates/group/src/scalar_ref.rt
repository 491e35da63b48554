//! Scalars that are lent.

ghost use Rattle.std.specs.Prelude.{◌≡◌, ◌<◌, IfOk, Some, false, length, option_map, slice_get};
ghost use Rattle.std.specs.Option.{option_copied};
ghost use Rattle.arrays.specs.Slot.{is_list, item_of, item_of_bool, item_of_text};
ghost use Rattle.group.specs.Scalars.{item_if_any, item_of_ref, item_of_scalar};
ghost use Rattle.group.specs.Summary.{scalar_item};

use crate::stats::Scalar;
use arrays::{NoMemory, View, ViewType};
use std::alloc::Global;

/// An item of a column that isn't one of lists, or of a `Scalar`, which it borrows.
#[derive(Clone, Copy, Debug)]
pub enum ScalarRef<'a> {
    Null,
    Int(i128),
    Bool(bool),
    Text(&'a str),
}

impl<'a> ScalarRef<'a> {
    /// That of a scalar; null where there is none.
    pub fn of(scalar: &'a Option<Scalar>) -> ScalarRef<'a>
        ensures { item_of_ref result ≡ item_of_scalar scalar.entry.now }
    {
        match scalar {
            Some(Scalar::Int(number)) => ScalarRef::Int(*number),
            Some(Scalar::Bool(truth)) => ScalarRef::Bool(*truth),
            Some(Scalar::Text(text)) => ScalarRef::Text(text.as_str()),
            None => ScalarRef::Null,
        }
    }

    /// The item of slot `i`.
    pub fn at(view: &View<'a>, i: usize) -> ScalarRef<'a>
        requires plain { is_list view.now.kind ≡ false }
        requires within { i < length view.now.items }
        ensures { slice_get view.now.items i ≡ Some (item_of_ref result) }
    {
        match view.ty() {
            ViewType::Int(ty) => number(view.int_as(ty, i)),
            ViewType::Bool => truth(view.bool_at(i)),
            ViewType::List(_, _) => unreachable!(),
            _ => text(view.text_at(i)),
        }
    }

    /// A copy of the scalar; none where it is null.
    pub fn to_scalar(self, alloc: Global) -> Result<Option<Scalar>, NoMemory>
        ensures item { IfOk result (λ s. item_of_scalar s ≡ item_of_ref self.entry) }
        ensures some { IfOk result (λ s. option_map scalar_item s ≡ item_if_any (item_of_ref self.entry)) }
    {
        match self {
            ScalarRef::Null => Ok(None),
            ScalarRef::Int(number) => Ok(Some(Scalar::Int(number))),
            ScalarRef::Bool(truth) => Ok(Some(Scalar::Bool(truth))),
            ScalarRef::Text(text) => Ok(Some(Scalar::Text(String::from_str(alloc, text)?))),
        }
    }
}

fn number<'a>(number: Option<i128>) -> ScalarRef<'a>
    ensures { item_of_ref result ≡ item_of number }
{
    match number {
        Some(number) => ScalarRef::Int(number),
        None => ScalarRef::Null,
    }
}

fn truth<'a>(truth: Option<bool>) -> ScalarRef<'a>
    ensures { item_of_ref result ≡ item_of_bool truth }
{
    match truth {
        Some(truth) => ScalarRef::Bool(truth),
        None => ScalarRef::Null,
    }
}

fn text(text: Option<&str>) -> ScalarRef<'_>
    ensures { item_of_ref result ≡ item_of_text (option_copied text.entry) }
{
    match text {
        Some(text) => ScalarRef::Text(text),
        None => ScalarRef::Null,
    }
}
