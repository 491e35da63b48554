//! How many workers and readers a table may have.

use crate::batches::NUMBERS;
use crate::scenes::{End, Group, Scene, Step, expect};
use shared::OpenFault;
use std::test::Fail;

/// Too few and too many, and as many as there may be.
pub(crate) static OPENED: [Scene; 5] = [
    Scene {
        fields: NUMBERS,
        workers: 0,
        readers: 0,
        steps: &[],
        end: End::Unopened(OpenFault::NoWorkers),
    },
    Scene {
        fields: NUMBERS,
        workers: 65,
        readers: 0,
        steps: &[],
        end: End::Unopened(OpenFault::TooMany),
    },
    Scene {
        fields: NUMBERS,
        workers: 1,
        readers: 65,
        steps: &[],
        end: End::Unopened(OpenFault::TooMany),
    },
    // As many as there may be: each worker appends, and each reader sees all that it was given a receipt of.
    Scene {
        fields: NUMBERS,
        workers: 64,
        readers: 64,
        steps: &[Step::Each(NUMBERS, 128)],
        end: End::Closed,
    },
    Scene {
        fields: (0, &[]),
        workers: 64,
        readers: 0,
        steps: &[],
        end: End::Gathered(&[]),
    },
];

#[test]
fn a_table_has_from_1_to_64_workers_and_no_more_readers(rt: HostRuntime) -> Result<(), Fail> {
    expect(&rt, rt.alloc(), Group::Opened)
}
