//! Where a column has no item.

ghost use Rattle.std.specs.Prelude.{◌≡◌, ◌<◌, ℕ, false, length, IfOk, IfErr};
ghost use Rattle.arrays.specs.Kind as kind;
ghost use Rattle.arrays.specs.Prelude.{holds_at, shown, valid_at};
ghost use Rattle.kernels.specs.Nulls.{nulls};

use crate::fault::KernelFault;
use arrays::{Array, INT32, OffsetWidth, View, ViewType};
use colbits::{Flipped, Ones};
use std::alloc::Global;
use truths::{Items, Valid, array_of};

/// True where the view has no item: where the slot isn't valid, and of a dictionary-encoded view also where its
/// entry isn't. It fails for want of memory alone.
///
/// `[1, null]` gives `[false, true]`.
pub fn is_null(alloc: Global, a: &View<'_>) -> Result<Array, KernelFault>
    ensures ok { IfOk result (λ r. r ≡ shown kind.boolean (nulls a.now.items)) }
    ensures err { IfErr result (λ e. e ≡ KernelFault.NoMemory) }
{
    let known = Ones {
        count: a.slots() as usize,
    };
    if may_name_nulls(a) {
        let items = Items { view: a };
        return Ok(array_of(alloc, &known, &Flipped { a: &items })?);
    }
    let valid = Valid::of(a);
    Ok(array_of(alloc, &known, &Flipped { a: &valid })?)
}

/// Whether a slot that is valid may hold no item. Nothing is looked at but whether a dictionary has a bitmap.
fn may_name_nulls(view: &View<'_>) -> bool
    ensures { result ≡ false → (i : ℕ) → i < length view.now.items → holds_at view.now i ≡ valid_at view.now i }
{
    match view.ty() {
        ViewType::Int(ty) => {
            let _ = view.numbers(ty);
            false
        }
        ViewType::Bool => {
            let _ = view.bool_bits();
            false
        }
        ViewType::Text(width) => {
            let _ = view.texts(width);
            false
        }
        ViewType::List(_, _) => {
            let _ = view.lists();
            false
        }
        ViewType::Dict => may_have_null_entries(view),
    }
}

/// Whether an entry that a valid slot names may be null.
fn may_have_null_entries(view: &View<'_>) -> bool
    requires { view.now.kind ≡ kind.dict }
    ensures { result ≡ false → (i : ℕ) → i < length view.now.items → holds_at view.now i ≡ valid_at view.now i }
{
    let (codes, entries) = (view.codes(), view.entries());
    let (_, _) = (codes.numbers(INT32), entries.texts(OffsetWidth::Narrow));
    entries.validity().is_some()
}
