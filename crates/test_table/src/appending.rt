//! What workers append, what they see of it, and what is gathered.

use crate::batches::{NONE, NUMBERS, ONE_TO_THREE, SEVEN_AND_NINE};
use crate::facts::{Fact, Facts};
use crate::scenes::{End, Group, Scene, Step, expect};
use shared::Refusal;
use std::test::Fail;
use test_samples::{Batch, Shown};

/// The same numbers under another name.
const OTHER_NAME: Batch = (2, &[("t", true, SEVEN_AND_NINE)]);

/// What two of three workers appended, batch by batch.
const FIVE: Facts = &[
    Fact::Book(&[(0, 2), (1, 3), (0, 0)]),
    Fact::Column(0, 0, Shown::Numbers(&[Some(7), Some(9)])),
    Fact::Column(1, 0, Shown::Numbers(&[Some(1), Some(2), Some(3)])),
    Fact::Column(2, 0, Shown::Numbers(&[])),
];

/// What all three appended, whose batches have no columns.
const SEVEN: Facts = &[Fact::Book(&[(1, 1), (0, 2), (2, 4)])];

pub(crate) static APPENDED: [Scene; 3] = [
    Scene {
        fields: NUMBERS,
        workers: 3,
        readers: 0,
        steps: &[
            Step::Append(0, NUMBERS, Ok(0)),
            Step::Append(1, ONE_TO_THREE, Ok(1)),
            Step::Append(0, NONE, Ok(2)),
            Step::Owns(0, 2, 2),
            Step::Owns(1, 1, 3),
            Step::Look(2, FIVE),
        ],
        end: End::Gathered(FIVE),
    },
    // A worker sees what the others appended since it looked, and the same again where nothing was.
    Scene {
        fields: (0, &[]),
        workers: 3,
        readers: 0,
        steps: &[
            Step::Append(1, (1, &[]), Ok(0)),
            Step::Look(1, &[Fact::Book(&[(1, 1)])]),
            Step::Append(0, (2, &[]), Ok(1)),
            Step::Append(2, (4, &[]), Ok(2)),
            Step::Look(1, SEVEN),
            Step::Append(0, NUMBERS, Err(Refusal::SchemaDiffers { column: 0 })),
            Step::Look(1, SEVEN),
        ],
        end: End::Gathered(SEVEN),
    },
    // A batch with another name for its column changes nothing.
    Scene {
        fields: NUMBERS,
        workers: 2,
        readers: 0,
        steps: &[
            Step::Append(0, OTHER_NAME, Err(Refusal::SchemaDiffers { column: 0 })),
            Step::Owns(0, 0, 0),
            Step::Append(0, NUMBERS, Ok(0)),
            Step::Owns(0, 1, 2),
            Step::Look(0, &[Fact::Book(&[(0, 2)])]),
        ],
        end: End::Gathered(&[Fact::Book(&[(0, 2)])]),
    },
];

#[test]
fn workers_append_and_look(rt: HostRuntime) -> Result<(), Fail> {
    expect(&rt, rt.alloc(), Group::Appended)
}
