mod deciding;
mod logic;
mod with_numbers;

use crate::pieces::{INT8S, Slots};
use arrays::{Array, View};
use kernels::{
    CmpOp, KernelFault, add, compare, is_null, kleene_and, kleene_not, kleene_or, mul, sub,
};
use std::alloc::Global;
use std::process::Abort;
use std::test::Fail;
use test_samples::Sample::Of;
use test_samples::{
    Flat, INT16, INT64, NARROW, Parts, Positions, Shown, UINT8, UINT64, Widths, built, is_result,
    sampled_at, slots_of,
};

const UINT8S: Flat = Flat::Int(UINT8);

const INT64S: Flat = Flat::Int(INT64);

const UINT64S: Flat = Flat::Int(UINT64);

/// What is done to columns.
#[derive(Clone, Copy)]
enum Kernel {
    Add,
    Sub,
    Mul,
    Compare(CmpOp),
    And,
    Or,
    Not,
    IsNull,
}

/// What a kernel gives of two columns, or of the first alone.
fn outcome(
    alloc: Global,
    kernel: Kernel,
    a: &View<'_>,
    b: &View<'_>,
) -> Result<Array, KernelFault> {
    match kernel {
        Kernel::Add => add(alloc, a, b),
        Kernel::Sub => sub(alloc, a, b),
        Kernel::Mul => mul(alloc, a, b),
        Kernel::Compare(op) => compare(alloc, op, a, b),
        Kernel::And => kleene_and(alloc, a, b),
        Kernel::Or => kleene_or(alloc, a, b),
        Kernel::Not => kleene_not(alloc, a),
        Kernel::IsNull => Ok(is_null(alloc, a)?),
    }
}

/// A kernel, two columns, and what it gives of them.
type Computed = (Kernel, Slots, Slots, Shown);

/// Asserts what kernels give of columns whose offsets are of these widths: those of the first, and those of the second.
fn expect_computed_at(
    rt: &impl Abort,
    alloc: Global,
    widths: Widths,
    others: Widths,
    cases: &[Computed],
) -> Result<(), Fail> {
    for (i, (kernel, a, b, shown)) in cases.iter().enumerate() {
        let first = sampled_at(alloc, widths, a.0)?;
        let second = sampled_at(alloc, others, b.0)?;
        let (a, b) = (slots_of(&first, a.1, a.2), slots_of(&second, b.1, b.2));
        let results = outcome(alloc, *kernel, &a, &b)?;
        assert!(rt;
            is_result(&results, *shown),
            "case {i}, {widths:?} and {others:?}"
        );
    }
    Ok(())
}

/// Asserts what kernels give of columns without offsets.
fn expect_computed(rt: &impl Abort, alloc: Global, cases: &[Computed]) -> Result<(), Fail> {
    expect_computed_at(rt, alloc, NARROW, NARROW, cases)
}

const NO_NUMBERS: Slots = (Of((INT8S, 0, &[None, Some(&[])])), 0, 0);

const MINUS_1: Slots = (Of((INT64S, 1, MOST)), 0, 1);

static COMPUTED: [Computed; 5] = [
    // An overflow under a null is none: 127 lies beneath it.
    (
        Kernel::Add,
        (Of((INT8S, 2, &[Some(&[0x01]), Some(&[100, 127])])), 0, 2),
        (Of((INT8S, 2, &[None, Some(&[27, 1])])), 0, 2),
        Shown::Numbers(&[Some(127), None]),
    ),
    (Kernel::Mul, MINUS_1, MINUS_1, Shown::Numbers(&[Some(1)])),
    (
        Kernel::Sub,
        (Of((UINT8S, 2, &[None, Some(&[5, 1])])), 0, 2),
        (Of((UINT8S, 2, &[None, Some(&[5, 0])])), 0, 2),
        Shown::Numbers(&[Some(0), Some(1)]),
    ),
    (Kernel::Add, NO_NUMBERS, NO_NUMBERS, Shown::Numbers(&[])),
    // Parts of columns are columns.
    (
        Kernel::Add,
        (Of(WITH_A_NULL), 0, 2),
        (Of(WHOLE), 1, 2),
        Shown::Numbers(&[Some(6), None]),
    ),
];

#[test]
fn numbers_are_exact(rt: HostRuntime) -> Result<(), Fail> {
    expect_computed(&rt, rt.alloc(), &COMPUTED)
}

/// Eight bytes of ones: the greatest number of 64 bits, or -1.
const MOST: Positions = &[None, Some(&[255; 8])];

/// False, null and true, three times.
const QUICK: Positions = &[Some(&[0x6d, 0x01]), Some(&[0x36, 0x01])];

/// 1, null, -128.
const WITH_A_NULL: Parts = (INT8S, 3, &[Some(&[0x05]), Some(&[1, 0, 128])]);

/// 1, 5, -2.
const WHOLE: Parts = (INT8S, 3, &[None, Some(&[1, 5, 254])]);

/// 1, 2.
const TWO: Parts = (INT8S, 2, &[None, Some(&[1, 2])]);

/// 1, 2, 3.
const THREE: Parts = (INT8S, 3, &[None, Some(&[1, 2, 3])]);

/// 1, 2, 3, each of 16 bits.
const WIDER: Parts = (Flat::Int(INT16), 3, &[None, Some(&[1, 0, 2, 0, 3, 0])]);

/// 127, null, -128.
const LARGE: Parts = (INT8S, 3, &[Some(&[0x05]), Some(&[127, 0, 128])]);

/// The least number of 64 bits.
const LEAST: Parts = (INT64S, 1, &[None, Some(&[0, 0, 0, 0, 0, 0, 0, 128])]);

/// True and false.
const TRUTHS: Parts = (Flat::Bool, 2, &[None, Some(&[1])]);

static REFUSED: [(Kernel, Parts, Parts, KernelFault); 12] = [
    (Kernel::Add, LARGE, WHOLE, KernelFault::Overflow { row: 0 }),
    (
        Kernel::Add,
        WITH_A_NULL,
        WHOLE,
        KernelFault::Overflow { row: 2 },
    ),
    (
        Kernel::Mul,
        (UINT64S, 1, MOST),
        (UINT64S, 1, MOST),
        KernelFault::Overflow { row: 0 },
    ),
    (
        Kernel::Mul,
        LEAST,
        (INT64S, 1, MOST),
        KernelFault::Overflow { row: 0 },
    ),
    (
        Kernel::Sub,
        (UINT8S, 2, &[None, Some(&[5, 0])]),
        (UINT8S, 2, &[None, Some(&[5, 1])]),
        KernelFault::Overflow { row: 1 },
    ),
    // Types come before lengths.
    (Kernel::Add, TWO, WIDER, KernelFault::TypesDiffer),
    (Kernel::Add, TWO, THREE, KernelFault::LengthsDiffer),
    (Kernel::Mul, TRUTHS, TRUTHS, KernelFault::TypesDiffer),
    (
        Kernel::Compare(CmpOp::Eq),
        TWO,
        THREE,
        KernelFault::LengthsDiffer,
    ),
    (
        Kernel::And,
        (Flat::Bool, 9, QUICK),
        TWO,
        KernelFault::TypesDiffer,
    ),
    (Kernel::Not, TWO, TWO, KernelFault::TypesDiffer),
    (
        Kernel::Or,
        (Flat::Bool, 9, QUICK),
        TRUTHS,
        KernelFault::LengthsDiffer,
    ),
];

#[test]
fn what_has_no_meaning_is_refused(rt: HostRuntime) -> Result<(), Fail> {
    for (kernel, a, b, fault) in REFUSED {
        let a = built(rt.alloc(), a)?;
        let b = built(rt.alloc(), b)?;
        let answer = outcome(rt.alloc(), kernel, &a.view(), &b.view());
        assert!(rt; answer.err() == Some(fault), "{fault}");
    }
    Ok(())
}
