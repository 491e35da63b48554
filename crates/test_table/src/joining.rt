//! Neighbouring batches joined, and what workers and readers see of them.

use crate::facts::{Fact, Facts};
use crate::scenes::{End, Group, Scene, Step, expect};
use std::test::Fail;
use test_samples::{Batch, INT8, Sample, Shown};

const B: Batch = (1, &[("s", true, Sample::Strings(&[Some("b")]))]);

const B_AND_X: Batch = (2, &[("s", true, Sample::Strings(&[Some("b"), Some("x")]))]);

/// Batches of 2, 3, no and 4 rows.
const TEXTS: &[Batch] = &[
    (2, &[("s", true, Sample::Strings(&[Some("b"), None]))]),
    (
        3,
        &[(
            "s",
            true,
            Sample::Strings(&[Some("a"), Some("b"), Some("c")]),
        )],
    ),
    (0, &[("s", true, Sample::Strings(&[]))]),
    (4, &[("s", true, Sample::Strings(&[Some("a"); 4]))]),
];

const BOOK: &[(u32, u32)] = &[(0, 2), (1, 3), (0, 0), (1, 4)];

/// The first two batches in one, and the last two, with the codes of the table's dictionary.
const FRONT: Shown = Shown::Encoded(
    &[Some(0), None, Some(1), Some(0), Some(2)],
    &[Some("b"), Some("a"), Some("c")],
    &[Some("b"), None, Some("a"), Some("b"), Some("c")],
);

const BACK: Shown = Shown::Encoded(
    &[Some(1); 4],
    &[Some("b"), Some("a"), Some("c")],
    &[Some("a"); 4],
);

const TWO: Facts = &[
    Fact::Sizes(&[5, 4]),
    Fact::Book(BOOK),
    Fact::Column(0, 0, FRONT),
    Fact::Column(1, 0, BACK),
];

/// All in one, which is exported as it came.
const ONE: Facts = &[
    Fact::Sizes(&[9]),
    Fact::Book(BOOK),
    Fact::Exported(0, 0, Shown::Named(&[Some("b"), None])),
    Fact::Exported(1, 0, Shown::Named(&[Some("a"), Some("b"), Some("c")])),
    Fact::Exported(2, 0, Shown::Named(&[])),
    Fact::Exported(3, 0, Shown::Named(&[Some("a"); 4])),
];

/// The texts, and a batch that comes behind them.
const APPENDED: Facts = &[
    Fact::Sizes(&[5, 4, 2]),
    Fact::Book(&[(0, 2), (1, 3), (0, 0), (1, 4), (1, 2)]),
    Fact::Column(0, 0, FRONT),
    Fact::Column(
        2,
        0,
        Shown::Encoded(
            &[Some(0), Some(3)],
            &[Some("b"), Some("a"), Some("c"), Some("x")],
            &[Some("b"), Some("x")],
        ),
    ),
];

/// Three rows of other types.
const EACH: Batch = (
    3,
    &[
        ("b", true, Sample::Bools(&[Some(true), None, Some(true)])),
        ("n", true, Sample::Numbers(INT8, &[Some(5), None, Some(6)])),
        ("l", true, Sample::ListsOfLists),
    ],
);

const LISTS_TWICE: Shown = Shown::ListsOfLists(&[
    Some(&[Some(&[Some(12), Some(-7), Some(25)]), None]),
    None,
    Some(&[Some(&[Some(0), Some(-127), Some(127), Some(50)]), Some(&[])]),
    Some(&[Some(&[Some(12), Some(-7), Some(25)]), None]),
    None,
    Some(&[Some(&[Some(0), Some(-127), Some(127), Some(50)]), Some(&[])]),
]);

pub(crate) static JOINED: [Scene; 4] = [
    Scene {
        fields: B,
        workers: 2,
        readers: 0,
        steps: &[
            Step::Join(0, 9, &[Fact::Sizes(&[]), Fact::Book(&[])]),
            Step::Turns(TEXTS),
            Step::Join(0, 0, &[Fact::Sizes(&[2, 3, 0, 4])]),
            Step::Join(0, 1, &[Fact::Sizes(&[2, 3, 0, 4])]),
            Step::Join(0, 3, &[Fact::Sizes(&[2, 3, 4])]),
            Step::Join(0, 4, &[Fact::Sizes(&[2, 3, 4])]),
            Step::Join(0, 9, ONE),
            Step::Join(0, u32::MAX, ONE),
        ],
        end: End::Gathered(ONE),
    },
    // The table keeps what was joined, a second time changes nothing, and it goes on. Who looked before keeps what it saw.
    Scene {
        fields: B,
        workers: 2,
        readers: 1,
        steps: &[
            Step::Turns(TEXTS),
            Step::Latest(0, &[Fact::Sizes(&[2, 3, 0, 4])]),
            Step::Join(1, 5, TWO),
            Step::Latest(0, TWO),
            Step::Look(0, TWO),
            Step::Join(0, 5, TWO),
            Step::Owns(1, 2, 7),
            Step::Append(1, B_AND_X, Ok(4)),
            Step::Latest(0, APPENDED),
        ],
        end: End::Gathered(APPENDED),
    },
    // Truth values whose bits don't end with a byte, numbers, and lists.
    Scene {
        fields: EACH,
        workers: 1,
        readers: 0,
        steps: &[
            Step::Turns(&[EACH, EACH]),
            Step::Join(
                0,
                u32::MAX,
                &[
                    Fact::Sizes(&[6]),
                    Fact::Column(
                        0,
                        0,
                        Shown::Bools(&[Some(true), None, Some(true), Some(true), None, Some(true)]),
                    ),
                    Fact::Column(
                        0,
                        1,
                        Shown::Numbers(&[Some(5), None, Some(6), Some(5), None, Some(6)]),
                    ),
                    Fact::Column(0, 2, LISTS_TWICE),
                ],
            ),
        ],
        end: End::Closed,
    },
    // An array holds no more rows.
    Scene {
        fields: (0, &[]),
        workers: 1,
        readers: 0,
        steps: &[
            Step::Turns(&[(2_147_483_647, &[]), (2_147_483_647, &[])]),
            Step::Join(0, u32::MAX, &[Fact::Sizes(&[2_147_483_647, 2_147_483_647])]),
        ],
        end: End::Closed,
    },
];

#[test]
fn neighbours_are_joined_while_they_fit(rt: HostRuntime) -> Result<(), Fail> {
    expect(&rt, rt.alloc(), Group::Joined)
}
