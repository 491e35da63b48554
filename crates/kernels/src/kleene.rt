//! Three-valued logic: null is a truth value that isn't known.

ghost use Rattle.std.specs.Prelude.{◌≡◌, ◌≤◌, Some, None, length, IfOk, IfErr};
ghost use Rattle.arrays.specs.Kind as kind;
ghost use Rattle.arrays.specs.Prelude.{most_slots, same_kind, shown};
ghost use Rattle.kernels.specs.Fault.{IsKernelFault};
ghost use Rattle.kernels.specs.Kleene.{conjunction, disjunction, negation, truth_fault, truths_fault};
ghost use Rattle.kernels.specs.Known.{HasTruths};

use crate::fault::KernelFault;
use arrays::{Array, View, ViewType};
use colbits::{Bits, Both, Either, Flipped};
use std::alloc::Global;
use truths::{Valid, array_of};

/// False where either is false, true where both are true, else null. It fails where the views aren't both of
/// truth values, then where their lengths differ, and else for want of memory alone.
///
/// `[null, null, true]` and `[false, true, true]` give `[false, null, true]`.
pub fn kleene_and(alloc: Global, a: &View<'_>, b: &View<'_>) -> Result<Array, KernelFault>
    ensures ok { IfOk result (λ r. (truths_fault a.now b.now ≡ None)
        × (r ≡ shown kind.boolean (conjunction a.now.items b.now.items))) }
    ensures err { IfErr result (λ e. IsKernelFault (truths_fault a.now b.now) (truths_fault a.now b.now) e) }
{
    let operands = operands_of(a, b)?;
    let (x, y) = (&operands.a.bits, &operands.b.bits);
    let (v, w) = (&operands.a.valid, &operands.b.valid);
    let (p, q) = (Flipped { a: x }, Flipped { a: y });
    let (p, q) = (Both { a: v, b: &p }, Both { a: w, b: &q });
    let (valid, falses) = (Both { a: v, b: w }, Either { a: &p, b: &q });
    let known = Either {
        a: &valid,
        b: &falses,
    };
    Ok(array_of(alloc, &known, &Both { a: x, b: y })?)
}

/// True where either is true, false where both are false, else null. It fails where the views aren't both of
/// truth values, then where their lengths differ, and else for want of memory alone.
pub fn kleene_or(alloc: Global, a: &View<'_>, b: &View<'_>) -> Result<Array, KernelFault>
    ensures ok { IfOk result (λ r. (truths_fault a.now b.now ≡ None)
        × (r ≡ shown kind.boolean (disjunction a.now.items b.now.items))) }
    ensures err { IfErr result (λ e. IsKernelFault (truths_fault a.now b.now) (truths_fault a.now b.now) e) }
{
    let operands = operands_of(a, b)?;
    let (x, y) = (&operands.a.bits, &operands.b.bits);
    let (v, w) = (&operands.a.valid, &operands.b.valid);
    let (p, q) = (Both { a: v, b: x }, Both { a: w, b: y });
    let (valid, trues) = (Both { a: v, b: w }, Either { a: &p, b: &q });
    let known = Either {
        a: &valid,
        b: &trues,
    };
    Ok(array_of(alloc, &known, &Either { a: x, b: y })?)
}

/// True where it is false, false where it is true, else null. It fails where the view isn't of truth values,
/// and else for want of memory alone.
pub fn kleene_not(alloc: Global, a: &View<'_>) -> Result<Array, KernelFault>
    ensures ok { IfOk result (λ r. (truth_fault a.now ≡ None) × (r ≡ shown kind.boolean (negation a.now.items))) }
    ensures err { IfErr result (λ e. IsKernelFault (truth_fault a.now) (truth_fault a.now) e) }
{
    if !is_of_truths(a) {
        return Err(KernelFault::TypesDiffer);
    }
    let truths = Truths::of(a);
    Ok(array_of(alloc, &truths.valid, &Flipped { a: &truths.bits })?)
}

/// Whether the view is of truth values.
fn is_of_truths(view: &View<'_>) -> bool
    ensures { result ≡ same_kind view.now.kind kind.boolean }
{
    match view.ty() {
        ViewType::Bool => true,
        _ => false,
    }
}

/// What keeps two views from being the operands: types are reported before lengths.
fn fault_of(a: &View<'_>, b: &View<'_>) -> Option<KernelFault>
    ensures { result ≡ truths_fault a.now b.now }
{
    if !(is_of_truths(a) & is_of_truths(b)) {
        return Some(KernelFault::TypesDiffer);
    }
    if a.len() != b.len() {
        return Some(KernelFault::LengthsDiffer);
    }
    None
}

/// The truth values of two views of one length.
fn operands_of<'a, 'b>(a: &View<'a>, b: &View<'b>) -> Result<Operands<'a, 'b>, KernelFault>
    ensures ok { IfOk result (λ o. (truths_fault a.now b.now ≡ None)
        × HasTruths o.a.bits o.a.valid.bits a.now × HasTruths o.b.bits o.b.valid.bits b.now) }
    ensures err { IfErr result (λ e. truths_fault a.now b.now ≡ Some e) }
{
    match fault_of(a, b) {
        Some(fault) => Err(fault),
        None => Ok(Operands {
            a: Truths::of(a),
            b: Truths::of(b),
        }),
    }
}

/// The truth values of two views of one length.
#[derive(Drop)]
struct Operands<'a, 'b> {
    a: Truths<'a>,
    b: Truths<'b>,
    ghost one_length: { length a.bits ≡ length b.bits },
}

/// The truth values of a view.
#[derive(Drop)]
struct Truths<'a> {
    /// What lies under a null is any bit.
    bits: Bits<'a>,
    valid: Valid<'a>,
    ghost one_length: { length bits ≡ valid.len },
    ghost short: { length bits ≤ most_slots },
}

impl<'a> Truths<'a> {
    fn of(view: &View<'a>) -> Truths<'a>
        requires { view.now.kind ≡ kind.boolean }
        ensures { HasTruths result.bits result.valid.bits view.now }
    {
        let bools = view.bools();
        let valid = Valid {
            bits: bools.validity,
            len: bools.slots as usize,
        };
        Truths {
            bits: bools.values,
            valid,
        }
    }
}
