//! Tests of what kernels make of a column and a number.

use arrays::{Array, View};
use kernels::{
    CmpOp, KernelFault, add_number, compare_number, mul_number, sub_from_number, sub_number,
};
use std::alloc::Global;
use std::test::Fail;
use test_samples::{Flat, INT8, Sample, Shown, UINT8, is_result, sampled};

/// What is made of a column and a number.
#[derive(Clone, Copy)]
enum Beside {
    Add,
    Sub,
    SubFrom,
    Mul,
    Compare(CmpOp),
}

/// The result.
fn made(
    alloc: Global,
    beside: Beside,
    column: &View<'_>,
    number: i128,
) -> Result<Array, KernelFault> {
    match beside {
        Beside::Add => add_number(alloc, column, number),
        Beside::Sub => sub_number(alloc, column, number),
        Beside::SubFrom => sub_from_number(alloc, column, number),
        Beside::Mul => mul_number(alloc, column, number),
        Beside::Compare(op) => compare_number(alloc, op, column, number),
    }
}

/// The numbers 3, null, -5 and 100.
const COLUMN: Sample = Sample::Numbers(INT8, &[Some(3), None, Some(-5), Some(100)]);

/// The number 100 and a null, beneath which 127 lies.
const BENEATH: Sample = Sample::Of((Flat::Int(INT8), 2, &[Some(&[0x01]), Some(&[100, 127])]));

const F: Option<bool> = Some(false);

const N: Option<bool> = None;

const T: Option<bool> = Some(true);

static MADE: [(Sample, Beside, i128, Shown); 11] = [
    (
        COLUMN,
        Beside::Add,
        27,
        Shown::Numbers(&[Some(30), None, Some(22), Some(127)]),
    ),
    (
        COLUMN,
        Beside::Sub,
        5,
        Shown::Numbers(&[Some(-2), None, Some(-10), Some(95)]),
    ),
    (
        COLUMN,
        Beside::SubFrom,
        5,
        Shown::Numbers(&[Some(2), None, Some(10), Some(-95)]),
    ),
    (
        COLUMN,
        Beside::Mul,
        -1,
        Shown::Numbers(&[Some(-3), None, Some(5), Some(-100)]),
    ),
    // An overflow under a null is none.
    (BENEATH, Beside::Add, 1, Shown::Numbers(&[Some(101), None])),
    (
        COLUMN,
        Beside::Compare(CmpOp::Eq),
        3,
        Shown::Bools(&[T, N, F, F]),
    ),
    (
        COLUMN,
        Beside::Compare(CmpOp::Ne),
        3,
        Shown::Bools(&[F, N, T, T]),
    ),
    (
        COLUMN,
        Beside::Compare(CmpOp::Lt),
        3,
        Shown::Bools(&[F, N, T, F]),
    ),
    (
        COLUMN,
        Beside::Compare(CmpOp::Le),
        3,
        Shown::Bools(&[T, N, T, F]),
    ),
    (
        COLUMN,
        Beside::Compare(CmpOp::Gt),
        3,
        Shown::Bools(&[F, N, F, T]),
    ),
    (
        COLUMN,
        Beside::Compare(CmpOp::Ge),
        3,
        Shown::Bools(&[T, N, F, T]),
    ),
];

#[test]
fn numbers_beside_a_number_are_exact(rt: HostRuntime) -> Result<(), Fail> {
    for (i, (sample, beside, number, shown)) in MADE.iter().enumerate() {
        let column = sampled(rt.alloc(), *sample)?;
        let results = made(rt.alloc(), *beside, &column.view(), *number)?;
        assert!(rt; is_result(&results, *shown), "case {i}");
    }
    Ok(())
}

/// What is refused: the least row that overflows, and numbers that the type doesn't have.
static REFUSED: [(Sample, Beside, i128, KernelFault); 9] = [
    (COLUMN, Beside::Add, 28, KernelFault::Overflow { row: 3 }),
    (COLUMN, Beside::Sub, 124, KernelFault::Overflow { row: 2 }),
    (
        COLUMN,
        Beside::SubFrom,
        127,
        KernelFault::Overflow { row: 2 },
    ),
    (COLUMN, Beside::Mul, 43, KernelFault::Overflow { row: 0 }),
    (COLUMN, Beside::Add, 128, KernelFault::TypesDiffer),
    (COLUMN, Beside::Add, -129, KernelFault::TypesDiffer),
    (
        COLUMN,
        Beside::Compare(CmpOp::Eq),
        128,
        KernelFault::TypesDiffer,
    ),
    (
        Sample::Numbers(UINT8, &[Some(1)]),
        Beside::Add,
        -1,
        KernelFault::TypesDiffer,
    ),
    (
        Sample::Bools(&[T]),
        Beside::Compare(CmpOp::Eq),
        0,
        KernelFault::TypesDiffer,
    ),
];

#[test]
fn what_is_outside_the_type_is_refused(rt: HostRuntime) -> Result<(), Fail> {
    for (i, (sample, beside, number, fault)) in REFUSED.iter().enumerate() {
        let column = sampled(rt.alloc(), *sample)?;
        let results = made(rt.alloc(), *beside, &column.view(), *number);
        assert!(rt; results.err() == Some(*fault), "case {i}");
    }
    Ok(())
}
