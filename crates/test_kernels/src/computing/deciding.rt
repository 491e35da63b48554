use crate::computing::{
    Computed, Kernel, MOST, NO_NUMBERS, QUICK, TWO, UINT64S, expect_computed, expect_computed_at,
    outcome,
};
use crate::pieces::{INT8S, Slots};
use kernels::{CmpOp, KernelFault};
use std::test::Fail;
use test_samples::Sample::{self, Coded, Lists, ListsOfLists, Of, Texts};
use test_samples::{Flat, NAMES, NARROW, Shown, WIDE, WIDTHS, sampled_at};

const F: Option<bool> = Some(false);

const N: Option<bool> = None;

const T: Option<bool> = Some(true);

/// The numbers 3, null, 5, -1.
const FROM_3: Sample = Of((INT8S, 4, &[Some(&[0x0d]), Some(&[3, 9, 5, 255])]));

/// The numbers 2, 3, null, 5.
const FROM_2: Sample = Of((INT8S, 4, &[Some(&[0x0b]), Some(&[2, 3, 9, 5])]));

const LT: Kernel = Kernel::Compare(CmpOp::Lt);

const GT: Kernel = Kernel::Compare(CmpOp::Gt);

/// The texts a and b.
const A_B: Slots = (Texts((None, &[0, 1, 2], b"ab")), 0, 2);

/// The texts ab and ab.
const AB_AB: Slots = (Texts((None, &[0, 2, 4], b"abab")), 0, 2);

const GREATEST: Slots = (Of((UINT64S, 1, MOST)), 0, 1);

const ONE: Slots = (
    Of((UINT64S, 1, &[None, Some(&[1, 0, 0, 0, 0, 0, 0, 0])])),
    0,
    1,
);

/// Three times false, three times null, three times true.
const SLOW: Slots = (
    Of((Flat::Bool, 9, &[Some(&[0xc7, 0x01]), Some(&[0xc8, 0x01])])),
    0,
    9,
);

/// False, null and true, three times.
const FAST: Sample = Of((Flat::Bool, 9, QUICK));

/// False and true.
const RISING: Slots = (Of((Flat::Bool, 2, &[None, Some(&[0b10])])), 0, 2);

/// True and true.
const LEVEL: Slots = (Of((Flat::Bool, 2, &[None, Some(&[0b11])])), 0, 2);

const NO_NULLS: Slots = (Of((INT8S, 2, &[None, Some(&[0, 1])])), 0, 2);

/// The texts a, b, a, a, null.
const FIVE_PLAIN: Sample = Texts((Some(&[0x0f]), &[0, 1, 2, 3, 4, 4], b"abaa"));

const PLAIN: Slots = (FIVE_PLAIN, 0, 5);

const IN_A_DICTIONARY: Slots = (Coded, 0, 5);

static DECIDED: [Computed; 12] = [
    (LT, RISING, LEVEL, Shown::Bools(&[T, F])),
    (
        Kernel::Compare(CmpOp::Le),
        RISING,
        LEVEL,
        Shown::Bools(&[T, T]),
    ),
    (LT, GREATEST, ONE, Shown::Bools(&[F])),
    (GT, GREATEST, ONE, Shown::Bools(&[T])),
    (
        GT,
        (FROM_3, 0, 4),
        (FROM_2, 0, 4),
        Shown::Bools(&[T, N, N, F]),
    ),
    (
        Kernel::And,
        SLOW,
        (FAST, 0, 9),
        Shown::Bools(&[F, F, F, F, N, N, F, N, T]),
    ),
    (
        Kernel::Or,
        SLOW,
        (FAST, 0, 9),
        Shown::Bools(&[F, N, T, N, N, T, T, T, T]),
    ),
    (Kernel::IsNull, NO_NULLS, NO_NULLS, Shown::Bools(&[F, F])),
    (Kernel::IsNull, NO_NUMBERS, NO_NUMBERS, Shown::Bools(&[])),
    // Parts of columns are columns.
    (
        Kernel::Compare(CmpOp::Eq),
        (FROM_3, 0, 3),
        (FROM_2, 1, 3),
        Shown::Bools(&[T, N, T]),
    ),
    (
        Kernel::Not,
        (FAST, 1, 3),
        (FAST, 1, 3),
        Shown::Bools(&[N, F, T]),
    ),
    (
        Kernel::IsNull,
        (Coded, 1, 3),
        (Coded, 1, 3),
        Shown::Bools(&[F, T, T]),
    ),
];

#[test]
fn truth_values_are_decided(rt: HostRuntime) -> Result<(), Fail> {
    expect_computed(&rt, rt.alloc(), &DECIDED)
}

/// The text a.
const LETTER: Slots = (Texts((None, &[0, 1], b"a")), 0, 1);

const EQ: Kernel = Kernel::Compare(CmpOp::Eq);

const NE: Kernel = Kernel::Compare(CmpOp::Ne);

const LE: Kernel = Kernel::Compare(CmpOp::Le);

const GE: Kernel = Kernel::Compare(CmpOp::Ge);

/// Texts, whatever the widths of their offsets, and in a dictionary.
static OF_TEXTS: [Computed; 11] = [
    (EQ, LETTER, LETTER, Shown::Bools(&[T])),
    (LT, A_B, AB_AB, Shown::Bools(&[T, F])),
    (GE, A_B, AB_AB, Shown::Bools(&[F, T])),
    (EQ, IN_A_DICTIONARY, PLAIN, Shown::Bools(&[T, F, N, N, N])),
    (NE, PLAIN, IN_A_DICTIONARY, Shown::Bools(&[F, T, N, N, N])),
    (LE, IN_A_DICTIONARY, PLAIN, Shown::Bools(&[T, T, N, N, N])),
    (GT, PLAIN, IN_A_DICTIONARY, Shown::Bools(&[F, T, N, N, N])),
    (EQ, PLAIN, PLAIN, Shown::Bools(&[T, T, T, T, N])),
    (
        EQ,
        IN_A_DICTIONARY,
        IN_A_DICTIONARY,
        Shown::Bools(&[T, T, N, N, T]),
    ),
    // Parts of columns are columns.
    (
        EQ,
        (FIVE_PLAIN, 1, 3),
        (FIVE_PLAIN, 2, 3),
        Shown::Bools(&[F, T, N]),
    ),
    (
        Kernel::IsNull,
        (FIVE_PLAIN, 3, 2),
        PLAIN,
        Shown::Bools(&[F, T]),
    ),
];

/// Which slots are null, of columns with offsets.
static NULLS: [Computed; 4] = [
    (
        Kernel::IsNull,
        (Texts(NAMES), 0, 4),
        LETTER,
        Shown::Bools(&[F, T, T, F]),
    ),
    (
        Kernel::IsNull,
        (Lists, 0, 4),
        LETTER,
        Shown::Bools(&[F, T, F, F]),
    ),
    (
        Kernel::IsNull,
        (ListsOfLists, 1, 2),
        LETTER,
        Shown::Bools(&[T, F]),
    ),
    (
        Kernel::IsNull,
        IN_A_DICTIONARY,
        PLAIN,
        Shown::Bools(&[F, F, T, T, F]),
    ),
];

#[test]
fn texts_are_compared_whatever_their_widths(rt: HostRuntime) -> Result<(), Fail> {
    for widths in [NARROW, WIDE] {
        for others in [NARROW, WIDE] {
            expect_computed_at(&rt, rt.alloc(), widths, others, &OF_TEXTS)?;
        }
    }
    Ok(())
}

#[test]
fn nulls_are_reported_whatever_the_widths(rt: HostRuntime) -> Result<(), Fail> {
    for widths in WIDTHS {
        expect_computed_at(&rt, rt.alloc(), widths, widths, &NULLS)?;
    }
    Ok(())
}

/// Columns that aren't compared: of texts and of numbers, of lists, and of both.
static APART: [(Sample, Sample); 4] = [
    (Coded, Of(TWO)),
    (Texts((None, &[0, 1, 2], b"ab")), Of(TWO)),
    (Lists, Lists),
    (Lists, Texts(NAMES)),
];

#[test]
fn texts_numbers_and_lists_are_not_compared(rt: HostRuntime) -> Result<(), Fail> {
    for widths in WIDTHS {
        for (i, (a, b)) in APART.iter().enumerate() {
            let a = sampled_at(rt.alloc(), widths, *a)?;
            let b = sampled_at(rt.alloc(), widths, *b)?;
            let answer = outcome(rt.alloc(), EQ, &a.view(), &b.view());
            assert!(rt;
                answer.err() == Some(KernelFault::TypesDiffer),
                "pair {i}, {widths:?}"
            );
        }
    }
    Ok(())
}
