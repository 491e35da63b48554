//! What a table holds of the batches that were appended, and what it refuses.

use crate::facts::{Cell, Fact};
use crate::scenes::{End, Group, Scene, Step, expect};
use shared::Refusal;
use std::test::Fail;
use test_samples::{Batch, INT8, INT32, INT64, Sample, Shown};

const NULL: Batch = (1, &[("n", true, Sample::Numbers(INT8, &[None]))]);

const MINUS_5: Batch = (1, &[("n", true, Sample::Numbers(INT8, &[Some(-5)]))]);

const A_AND_B: Batch = (2, &[("s", true, Sample::Strings(&[Some("a"), Some("b")]))]);

const B_AND_NULL: Batch = (2, &[("s", true, Sample::Strings(&[Some("b"), None]))]);

/// The texts a, a, null by its entry, null, b, with a dictionary.
const LETTERS: Batch = (5, &[("s", true, Sample::Coded)]);

/// What they show, with the codes of the table.
const RECODED: Shown = Shown::Encoded(
    &[Some(0), Some(0), None, None, Some(1)],
    &[Some("a"), Some("b")],
    &[Some("a"), Some("a"), None, None, Some("b")],
);

/// What numbers and texts come to.
pub(crate) static ADDED: [Scene; 3] = [
    // A null is in no sum, and neither the least nor the greatest.
    Scene {
        fields: NULL,
        workers: 1,
        readers: 0,
        steps: &[
            Step::Append(0, NULL, Ok(0)),
            Step::Look(
                0,
                &[Fact::Stats(0, (1, 1, Some(0), Cell::Nothing, Cell::Nothing))],
            ),
            Step::Append(0, MINUS_5, Ok(1)),
            Step::Look(
                0,
                &[
                    Fact::Stats(0, (2, 1, Some(-5), Cell::Int(-5), Cell::Int(-5))),
                    Fact::BatchStats(0, 0, (1, 1, Some(0), Cell::Nothing, Cell::Nothing)),
                    Fact::BatchStats(1, 0, (1, 0, Some(-5), Cell::Int(-5), Cell::Int(-5))),
                    Fact::Column(0, 0, Shown::Numbers(&[None])),
                    Fact::Column(1, 0, Shown::Numbers(&[Some(-5)])),
                    Fact::Words(0, None),
                ],
            ),
        ],
        end: End::Closed,
    },
    // Texts come once, in order of first appearance. They are compared by their bytes, and not by their codes.
    Scene {
        fields: B_AND_NULL,
        workers: 2,
        readers: 0,
        steps: &[
            Step::Append(0, B_AND_NULL, Ok(0)),
            Step::Append(1, A_AND_B, Ok(1)),
            Step::Look(
                0,
                &[
                    Fact::Book(&[(0, 2), (1, 2)]),
                    Fact::Stats(0, (4, 1, None, Cell::Text("a"), Cell::Text("b"))),
                    Fact::Words(0, Some(Shown::Texts(&[Some("b"), Some("a")]))),
                    Fact::Column(
                        0,
                        0,
                        Shown::Encoded(
                            &[Some(0), None],
                            &[Some("b"), Some("a")],
                            &[Some("b"), None],
                        ),
                    ),
                    Fact::Column(
                        1,
                        0,
                        Shown::Encoded(
                            &[Some(1), Some(0)],
                            &[Some("b"), Some("a")],
                            &[Some("a"), Some("b")],
                        ),
                    ),
                ],
            ),
        ],
        end: End::Closed,
    },
    // Texts may come with a dictionary. Its null entries count as nulls.
    Scene {
        fields: A_AND_B,
        workers: 1,
        readers: 0,
        steps: &[
            Step::Append(0, LETTERS, Ok(0)),
            Step::Append(0, A_AND_B, Ok(1)),
            Step::Look(
                0,
                &[
                    Fact::Stats(0, (7, 2, None, Cell::Text("a"), Cell::Text("b"))),
                    Fact::BatchStats(0, 0, (5, 2, None, Cell::Text("a"), Cell::Text("b"))),
                    Fact::Column(0, 0, RECODED),
                    Fact::Exported(0, 0, RECODED),
                    Fact::Exported(1, 0, Shown::Named(&[Some("a"), Some("b")])),
                ],
            ),
        ],
        end: End::Closed,
    },
];

/// A text beside a number, where no null may be.
const X_AND_5: Batch = (
    1,
    &[
        ("s", true, Sample::Strings(&[Some("x")])),
        ("n", false, Sample::Numbers(INT8, &[Some(5)])),
    ],
);

const Y_AND_NULL: Batch = (
    1,
    &[
        ("s", true, Sample::Strings(&[Some("y")])),
        ("n", false, Sample::Numbers(INT8, &[None])),
    ],
);

/// Four numbers: nulls where they may be, and where they may not.
const ZEROS: Batch = (
    4,
    &[
        ("n", true, Sample::Numbers(INT8, &[None; 4])),
        (
            "n",
            false,
            Sample::Numbers(INT8, &[Some(0), Some(0), Some(0), None]),
        ),
        (
            "n",
            false,
            Sample::Numbers(INT8, &[None, Some(0), Some(0), Some(0)]),
        ),
    ],
);

/// Numbers of 64 bits and of 32, beside texts.
const LONG_AND_TEXT: Batch = (
    1,
    &[
        ("n", true, Sample::Numbers(INT64, &[Some(1)])),
        ("s", true, Sample::Strings(&[Some("a")])),
    ],
);

const SHORT_AND_TEXT: Batch = (
    1,
    &[
        ("n", true, Sample::Numbers(INT32, &[Some(1)])),
        ("s", true, Sample::Strings(&[Some("a")])),
    ],
);

const LONG_AND_LETTERS: Batch = (
    5,
    &[
        ("n", true, Sample::Numbers(INT64, &[Some(1); 5])),
        ("s", true, Sample::Coded),
    ],
);

const ONE_LONG: Batch = (1, &[("n", true, Sample::Numbers(INT64, &[Some(1)]))]);

/// What is refused, and leaves nothing.
pub(crate) static REFUSED: [Scene; 3] = [
    // A refused batch leaves no text.
    Scene {
        fields: X_AND_5,
        workers: 2,
        readers: 0,
        steps: &[
            Step::Append(0, X_AND_5, Ok(0)),
            Step::Append(
                1,
                Y_AND_NULL,
                Err(Refusal::NullInNonNullable { column: 1, row: 0 }),
            ),
            Step::Look(
                1,
                &[
                    Fact::Book(&[(0, 1)]),
                    Fact::Words(0, Some(Shown::Texts(&[Some("x")]))),
                    Fact::Column(0, 1, Shown::Numbers(&[Some(5)])),
                ],
            ),
        ],
        end: End::Closed,
    },
    // The least column with a null is reported.
    Scene {
        fields: ZEROS,
        workers: 1,
        readers: 0,
        steps: &[
            Step::Append(
                0,
                ZEROS,
                Err(Refusal::NullInNonNullable { column: 1, row: 3 }),
            ),
            Step::Look(0, &[Fact::Book(&[]), Fact::Sizes(&[])]),
        ],
        end: End::Closed,
    },
    // The least column of another type is reported, or that is missing. Texts with a dictionary differ in no type.
    Scene {
        fields: LONG_AND_TEXT,
        workers: 1,
        readers: 0,
        steps: &[
            Step::Append(0, SHORT_AND_TEXT, Err(Refusal::SchemaDiffers { column: 0 })),
            Step::Append(0, ONE_LONG, Err(Refusal::SchemaDiffers { column: 1 })),
            Step::Append(0, LONG_AND_LETTERS, Ok(0)),
            Step::Look(
                0,
                &[
                    Fact::Book(&[(0, 5)]),
                    Fact::Column(0, 0, Shown::Numbers(&[Some(1); 5])),
                    Fact::Column(0, 1, RECODED),
                ],
            ),
        ],
        end: End::Closed,
    },
];

#[test]
fn numbers_and_texts_are_added(rt: HostRuntime) -> Result<(), Fail> {
    expect(&rt, rt.alloc(), Group::Added)
}

#[test]
fn a_refused_batch_leaves_nothing(rt: HostRuntime) -> Result<(), Fail> {
    expect(&rt, rt.alloc(), Group::Refused)
}
