//! What readers see of a table.

use crate::batches::{NUMBERS, ONE_AND_TWO, ONE_TO_THREE, SEVEN_AND_NINE};
use crate::facts::{Fact, Facts};
use crate::scenes::{End, Flat, Group, Scene, Step, expect};
use shared::Refusal;
use std::test::Fail;
use test_samples::{Batch, INT8, Sample, Shown};

/// Numbers of which none may be null.
const FULL: Batch = (2, &[("s", false, SEVEN_AND_NINE)]);

/// A number and a null.
const FIVE_AND_NULL: Batch = (2, &[("s", true, Sample::Numbers(INT8, &[Some(5), None]))]);

/// An empty table.
const OPENING: Facts = &[Fact::Book(&[]), Fact::Sizes(&[])];

/// A batch of each of two workers.
const BOTH: Facts = &[
    Fact::Book(&[(0, 2), (1, 3)]),
    Fact::Column(0, 0, Shown::Numbers(&[Some(7), Some(9)])),
    Fact::Column(1, 0, Shown::Numbers(&[Some(1), Some(2), Some(3)])),
];

const THREE: Facts = &[Fact::Book(&[(0, 2), (1, 3), (0, 2)])];

pub(crate) static READ: [Scene; 3] = [
    // The reader learns of the later batch, then of the earlier one; then a batch is refused, and one is appended unseen.
    Scene {
        fields: FULL,
        workers: 2,
        readers: 1,
        steps: &[
            Step::Latest(0, OPENING),
            Step::Append(0, NUMBERS, Ok(0)),
            Step::Append(1, ONE_TO_THREE, Ok(1)),
            Step::Learn(0, 1),
            Step::Latest(0, BOTH),
            Step::Learn(0, 0),
            Step::Latest(0, BOTH),
            Step::Append(
                0,
                FIVE_AND_NULL,
                Err(Refusal::NullInNonNullable { column: 0, row: 1 }),
            ),
            Step::Owns(0, 1, 2),
            Step::Latest(0, BOTH),
            Step::Append(0, NUMBERS, Ok(2)),
            Step::Latest(0, THREE),
        ],
        end: End::Closed,
    },
    // Who looked at the opening sees the first batch, and it joined with the next, though it was given no receipt.
    Scene {
        fields: NUMBERS,
        workers: 1,
        readers: 2,
        steps: &[
            Step::Latest(0, OPENING),
            Step::Append(0, NUMBERS, Ok(0)),
            Step::Latest(0, &[Fact::Book(&[(0, 2)]), Fact::Sizes(&[2])]),
            Step::Append(0, ONE_TO_THREE, Ok(1)),
            Step::Latest(1, &[Fact::Sizes(&[2, 3])]),
            Step::Join(0, 9, &[Fact::Sizes(&[5])]),
            Step::Latest(0, &[Fact::Sizes(&[5]), Fact::Book(&[(0, 2), (0, 3)])]),
            Step::Latest(1, &[Fact::Sizes(&[5])]),
        ],
        end: End::Gathered(&[Fact::Sizes(&[5])]),
    },
    // It sees a first column that is added, too.
    Scene {
        fields: ONE_AND_TWO,
        workers: 1,
        readers: 1,
        steps: &[
            Step::Latest(0, &[Fact::Fields(1)]),
            Step::Add(0, ("m", true, 0, Flat::Utf8), Ok(())),
            Step::Latest(0, &[Fact::Fields(2)]),
        ],
        end: End::Closed,
    },
];

#[test]
fn readers_see_what_was_appended(rt: HostRuntime) -> Result<(), Fail> {
    expect(&rt, rt.alloc(), Group::Read)
}
