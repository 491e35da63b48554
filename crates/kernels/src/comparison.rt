//! Comparisons of two columns, place by place.

ghost use Rattle.std.specs.Prelude.{◌≡◌, None, true, length, IfOk, IfErr};
ghost use Rattle.arrays.specs.Kind as kind;
ghost use Rattle.arrays.specs.Prelude.{is_of_type, is_text, shown, view_kind};
ghost use Rattle.kernels.specs.Beside.{number_beside, number_fault};
ghost use Rattle.kernels.specs.Fault.{IsKernelFault};
ghost use Rattle.kernels.specs.Order.{are_comparable, compared, comparison_fault};

mod packed;
mod pairs;
mod wanted;

use crate::fault::KernelFault;
use crate::side::{One, type_with};
use arrays::{Array, IntType, Integer, View, ViewType, with_integer};
use colbits::{Both, NoMemory, Ones};
use pairs::{Bools, Numbers, PlainTexts, Shown};
use std::alloc::Global;
use truths::{Items, Valid, array_of};
use wanted::Wanted;

/// A comparison.
#[derive(Clone, Copy, Debug, PartialEq, Eq)]
pub enum CmpOp {
    Eq,
    Ne,
    Lt,
    Le,
    Gt,
    Ge,
}

/// Compares two columns place by place: numbers by value, false before true, texts byte by byte with a front before
/// what it begins. The result is null where either item is. The columns are of one integer type, both of truth
/// values, or both of texts, dictionary-encoded or not: else it fails with `TypesDiffer`. Where the types suit and
/// the lengths aren't equal it fails with `LengthsDiffer`, and with `NoMemory` only where both suit.
///
/// By `Lt` the columns `[1, 2, null]` and `[2, 2, 2]` give `[true, false, null]`.
pub fn compare(alloc: Global, op: CmpOp, a: &View<'_>, b: &View<'_>) -> Result<Array, KernelFault>
    ensures ok { IfOk result (λ r. (comparison_fault a.now b.now ≡ None)
        × (r ≡ shown kind.boolean (compared op a.now.items b.now.items))) }
    ensures err { IfErr result (λ e. IsKernelFault (comparison_fault a.now b.now) (comparison_fault a.now b.now) e) }
{
    if !are_comparable(a.ty(), b.ty()) {
        return Err(KernelFault::TypesDiffer);
    }
    if a.len() != b.len() {
        return Err(KernelFault::LengthsDiffer);
    }
    Ok(compare_slots(alloc, op, a, b)?)
}

/// Compares a column's numbers and one number: what [`compare`] gives of the column and one of its type and length that
/// has the number at each slot. It fails with `TypesDiffer` unless the column is of an integer type that has the
/// number, and else for want of memory alone.
pub fn compare_number(
    alloc: Global,
    op: CmpOp,
    a: &View<'_>,
    number: i128,
) -> Result<Array, KernelFault>
    ensures ok { IfOk result (λ r. (number_fault a.now number ≡ None)
        × (r ≡ shown kind.boolean (compared op a.now.items (number_beside a.now number).items))) }
    ensures err { IfErr result (λ e. IsKernelFault (number_fault a.now number) (number_fault a.now number) e) }
{
    let ty = type_with(a.ty(), number)?;
    Ok(compare_with(alloc, op, ty, a, number)?)
}

/// Whether columns of the two types can be compared.
fn are_comparable(a: ViewType<'_>, b: ViewType<'_>) -> bool
    ensures { result ≡ are_comparable (view_kind a.entry) (view_kind b.entry) }
{
    match (a, b) {
        (ViewType::Int(s), ViewType::Int(t)) => is_same(s, t),
        (ViewType::Bool, ViewType::Bool) => true,
        (ViewType::Text(_) | ViewType::Dict, ViewType::Text(_) | ViewType::Dict) => true,
        _ => false,
    }
}

/// Whether the two are one type.
fn is_same(s: IntType, t: IntType) -> bool
    ensures { result ≡ kind.same_int s t }
{
    s.bits.bytes() == t.bits.bytes() && s.signed == t.signed
}

/// Compares two columns of one length that can be compared.
fn compare_slots(alloc: Global, op: CmpOp, a: &View<'_>, b: &View<'_>) -> Result<Array, NoMemory>
    requires types { are_comparable a.now.kind b.now.kind ≡ true }
    requires lengths { length a.now.items ≡ length b.now.items }
    ensures { IfOk result (λ r. r ≡ shown kind.boolean (compared op a.now.items b.now.items)) }
{
    match a.ty() {
        ViewType::Int(ty) => compare_ints(alloc, op, ty, a, b),
        ViewType::Bool => compare_bools(alloc, op, a, b),
        _ => compare_texts(alloc, op, a, b),
    }
}

/// Compares two columns of an integer type.
fn compare_ints(
    alloc: Global,
    op: CmpOp,
    ty: IntType,
    a: &View<'_>,
    b: &View<'_>,
) -> Result<Array, NoMemory>
    requires a { a.now.kind ≡ kind.int ty }
    requires b { b.now.kind ≡ kind.int ty }
    requires lengths { length a.now.items ≡ length b.now.items }
    ensures { IfOk result (λ r. r ≡ shown kind.boolean (compared op a.now.items b.now.items)) }
{
    with_integer!(ty, compare_numbers::<_>(alloc, op, a, b))
}

/// Compares two columns of numbers of type `T`.
fn compare_numbers<T: Integer>(
    alloc: Global,
    op: CmpOp,
    a: &View<'_>,
    b: &View<'_>,
) -> Result<Array, NoMemory>
    requires a { a.now.kind ≡ kind.int T.ty }
    requires b { b.now.kind ≡ kind.int T.ty }
    requires lengths { length a.now.items ≡ length b.now.items }
    ensures { IfOk result (λ r. r ≡ shown kind.boolean (compared op a.now.items b.now.items)) }
{
    let pairs = Numbers {
        a: a.ints::<T>(),
        b: b.ints::<T>(),
        wanted: Wanted::of(op),
        slots: a.slots(),
    };
    let (x, y) = (Valid::of(a), Valid::of(b));
    array_of(alloc, &Both { a: &x, b: &y }, &pairs)
}

/// Compares a column of an integer type and a number of it.
fn compare_with(
    alloc: Global,
    op: CmpOp,
    ty: IntType,
    a: &View<'_>,
    number: i128,
) -> Result<Array, NoMemory>
    requires kind { a.now.kind ≡ kind.int ty }
    requires has { is_of_type ty number ≡ true }
    ensures { IfOk result (λ r. r ≡ shown kind.boolean (compared op a.now.items (number_beside a.now number).items)) }
{
    with_integer!(ty, compare_each::<_>(alloc, op, a, number))
}

/// Compares a column of numbers of type `T` and one of them.
fn compare_each<T: Integer>(
    alloc: Global,
    op: CmpOp,
    a: &View<'_>,
    number: i128,
) -> Result<Array, NoMemory>
    requires kind { a.now.kind ≡ kind.int T.ty }
    requires has { is_of_type T.ty number ≡ true }
    ensures { IfOk result (λ r. r ≡ shown kind.boolean (compared op a.now.items (number_beside a.now number).items)) }
{
    let one = One {
        number: T::narrow(number),
        slots: a.slots(),
    };
    let pairs = Numbers {
        a: a.ints::<T>(),
        b: one,
        wanted: Wanted::of(op),
        slots: a.slots(),
    };
    let (x, y) = (Valid::of(a), Ones { count: a.len() });
    array_of(alloc, &Both { a: &x, b: &y }, &pairs)
}

/// Compares two columns of truth values.
fn compare_bools(alloc: Global, op: CmpOp, a: &View<'_>, b: &View<'_>) -> Result<Array, NoMemory>
    requires a { a.now.kind ≡ kind.boolean }
    requires b { b.now.kind ≡ kind.boolean }
    requires lengths { length a.now.items ≡ length b.now.items }
    ensures { IfOk result (λ r. r ≡ shown kind.boolean (compared op a.now.items b.now.items)) }
{
    let pairs = Bools {
        a: a.bool_bits(),
        b: b.bool_bits(),
        wanted: Wanted::of(op),
        slots: a.slots(),
    };
    let (x, y) = (Valid::of(a), Valid::of(b));
    array_of(alloc, &Both { a: &x, b: &y }, &pairs)
}

/// Compares two columns of texts, dictionary-encoded or not.
fn compare_texts(alloc: Global, op: CmpOp, a: &View<'_>, b: &View<'_>) -> Result<Array, NoMemory>
    requires a { is_text a.now.kind ≡ true }
    requires b { is_text b.now.kind ≡ true }
    requires lengths { length a.now.items ≡ length b.now.items }
    ensures { IfOk result (λ r. r ≡ shown kind.boolean (compared op a.now.items b.now.items)) }
{
    let wanted = Wanted::of(op);
    match (a.ty(), b.ty()) {
        (ViewType::Text(width), ViewType::Text(other)) => {
            let pairs = PlainTexts {
                a: a.texts(width),
                b: b.texts(other),
                wanted,
            };
            let (x, y) = (Valid::of(a), Valid::of(b));
            array_of(alloc, &Both { a: &x, b: &y }, &pairs)
        }
        _ => {
            let (x, y) = (Items { view: a }, Items { view: b });
            let pairs = Shown {
                a,
                b,
                wanted,
                slots: a.slots(),
            };
            array_of(alloc, &Both { a: &x, b: &y }, &pairs)
        }
    }
}
