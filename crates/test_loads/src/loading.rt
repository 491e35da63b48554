//! Which worker loads what, and what is reported where a batch is refused.

use crate::played::expect;
use crate::scenes::{Answer, End, Files, Passed, Place, Scene, Soak, Step};
use loads::LoadFault;
use shared::Refusal;
use std::test::Fail;

/// A file without batches, whose column `n` of numbers holds no null.
const NUMBERS: &str =
    r#"{"schema":{"fields":[{"name":"n","nullable":false,"type":{"name":"int","bitWidth":8,"isSigned":true}}]},"batches":[]}"#;

/// The numbers 1 and 2 in a batch, 3 in another.
const ONE_TO_THREE: &str =
    r#"{"schema":{"fields":[{"name":"n","nullable":true,"type":{"name":"int","bitWidth":8,"isSigned":true}}]},"batches":[{"count":2,"columns":[{"count":2,"DATA":[1,2]}]},{"count":1,"columns":[{"count":1,"DATA":[3]}]}]}"#;

/// The number 4.
const FOUR: &str =
    r#"{"schema":{"fields":[{"name":"n","nullable":true,"type":{"name":"int","bitWidth":8,"isSigned":true}}]},"batches":[{"count":1,"columns":[{"count":1,"DATA":[4]}]}]}"#;

/// The number 5, and in another batch 6 and a null.
const FIVE_SIX_NULL: &str =
    r#"{"schema":{"fields":[{"name":"n","nullable":true,"type":{"name":"int","bitWidth":8,"isSigned":true}}]},"batches":[{"count":1,"columns":[{"count":1,"DATA":[5]}]},{"count":2,"columns":[{"count":2,"VALIDITY":[1,0],"DATA":[6,0]}]}]}"#;

/// The number 7 under another name.
const OTHER_NAME: &str =
    r#"{"schema":{"fields":[{"name":"m","nullable":true,"type":{"name":"int","bitWidth":8,"isSigned":true}}]},"batches":[{"count":1,"columns":[{"count":1,"DATA":[7]}]}]}"#;

/// The number 8, with a null in the column `m`.
const EIGHT_AND_NULL: &str =
    r#"{"schema":{"fields":[{"name":"n","nullable":true,"type":{"name":"int","bitWidth":8,"isSigned":true}},{"name":"m","nullable":true,"type":{"name":"int","bitWidth":8,"isSigned":true}}]},"batches":[{"count":1,"columns":[{"count":1,"DATA":[8]},{"count":1,"VALIDITY":[0],"DATA":[0]}]}]}"#;

/// Numbers of 64 bits.
const LONG: &str =
    r#"{"schema":{"fields":[{"name":"n","nullable":true,"type":{"name":"int","bitWidth":64,"isSigned":true}}]},"batches":[]}"#;

pub(crate) static LOADED: [Scene; 7] = [
    // Files go to the workers by turns, and both are at work together: the first waits for the second.
    Scene {
        file: NUMBERS,
        workers: 2,
        readers: 0,
        steps: &[Step::Load(
            Files::Texts(&[ONE_TO_THREE, FOUR, ONE_TO_THREE]),
            Passed::Held(4, 1),
            Answer::Loaded(2, 4),
        )],
        soak: None,
        end: End::Numbers(&[
            &[
                &[Some(1), Some(2)],
                &[Some(3)],
                &[Some(1), Some(2)],
                &[Some(3)],
            ],
            &[&[Some(4)]],
        ]),
    },
    // A worker without a file appends nothing. When files are loaded again, appends are counted from 0 on.
    Scene {
        file: NUMBERS,
        workers: 3,
        readers: 0,
        steps: &[
            Step::Load(
                Files::Texts(&[ONE_TO_THREE]),
                Passed::Free(2, 0),
                Answer::Loaded(1, 1),
            ),
            Step::Load(
                Files::Texts(&[FOUR]),
                Passed::Free(1, 0),
                Answer::Loaded(1, 2),
            ),
        ],
        soak: None,
        end: End::Numbers(&[&[&[Some(1), Some(2)], &[Some(3)], &[Some(4)]], &[], &[]]),
    },
    // The gate knows workers by their places, and not by their numbers.
    Scene {
        file: NUMBERS,
        workers: 2,
        readers: 0,
        steps: &[
            Step::Reverse,
            Step::Load(
                Files::Texts(&[ONE_TO_THREE, FOUR]),
                Passed::Held(2, 1),
                Answer::Loaded(2, 2),
            ),
        ],
        soak: None,
        end: End::Numbers(&[&[&[Some(4)]], &[&[Some(1), Some(2)], &[Some(3)]]]),
    },
    // One worker loads all files in their order, and stops at the first that is refused.
    Scene {
        file: NUMBERS,
        workers: 1,
        readers: 0,
        steps: &[Step::Load(
            Files::Texts(&[FOUR, ONE_TO_THREE, OTHER_NAME, FIVE_SIX_NULL]),
            Passed::Free(4, 0),
            Answer::Fault(
                LoadFault::Refused {
                    file: 2,
                    batch: 0,
                    refusal: Refusal::SchemaDiffers { column: 0 },
                },
                "L1 Refused file=2 batch=0 refusal=A1 SchemaDiffers column=0",
            ),
        )],
        soak: None,
        end: End::Numbers(&[&[&[Some(4)], &[Some(1), Some(2)], &[Some(3)]]]),
    },
    // The least file that was refused is reported. The second worker leaves the file behind it alone.
    Scene {
        file: NUMBERS,
        workers: 2,
        readers: 0,
        steps: &[Step::Load(
            Files::Texts(&[FOUR, FOUR, FOUR, FIVE_SIX_NULL, OTHER_NAME, FOUR]),
            Passed::Free(3, 3),
            Answer::Fault(
                LoadFault::Refused {
                    file: 3,
                    batch: 1,
                    refusal: Refusal::NullInNonNullable { column: 0, row: 1 },
                },
                "L1 Refused file=3 batch=1 refusal=A2 NullInNonNullable column=0 row=1",
            ),
        )],
        soak: None,
        end: End::Numbers(&[&[&[Some(4)], &[Some(4)]], &[&[Some(4)], &[Some(5)]]]),
    },
    // Where a column was added, a batch without it isn't filled up.
    Scene {
        file: NUMBERS,
        workers: 2,
        readers: 0,
        steps: &[
            Step::Add(1, "m"),
            Step::Load(
                Files::Texts(&[FOUR]),
                Passed::Free(1, 0),
                Answer::Fault(
                    LoadFault::Refused {
                        file: 0,
                        batch: 0,
                        refusal: Refusal::SchemaDiffers { column: 1 },
                    },
                    "L1 Refused file=0 batch=0 refusal=A1 SchemaDiffers column=1",
                ),
            ),
            Step::Load(
                Files::Texts(&[EIGHT_AND_NULL, EIGHT_AND_NULL]),
                Passed::Free(1, 1),
                Answer::Loaded(2, 1),
            ),
        ],
        soak: None,
        end: End::Numbers(&[&[&[Some(8)]], &[&[Some(8)]]]),
    },
    // Many workers append for long: nothing is lost, and each worker's batches stay in their order.
    Scene {
        file: LONG,
        workers: 16,
        readers: 0,
        steps: &[Step::Load(
            Files::Numbers(16, 625),
            Passed::Free(625, 625),
            Answer::Loaded(16, 9999),
        )],
        soak: None,
        end: End::Counted(16, 625),
    },
];

/// Some append for long while the others look on: nothing is lost, and nothing that was seen goes.
pub(crate) static SOAKED: [Scene; 3] = [
    Scene {
        file: LONG,
        workers: 2,
        readers: 2,
        steps: &[],
        soak: Some(Soak {
            count: 2,
            turns: 500,
            columns: 0,
        }),
        end: End::Counted(2, 500),
    },
    // One worker joins what the others append.
    Scene {
        file: LONG,
        workers: 17,
        readers: 16,
        steps: &[],
        soak: Some(Soak {
            count: 16,
            turns: 625,
            columns: 0,
        }),
        end: End::Counted(16, 625),
    },
    // One adds columns.
    Scene {
        file: LONG,
        workers: 16,
        readers: 2,
        steps: &[],
        soak: Some(Soak {
            count: 16,
            turns: 200,
            columns: 10,
        }),
        end: End::Counted(16, 200),
    },
];

#[test]
fn workers_load_files(rt: HostRuntime) -> Result<(), Fail> {
    for number in 0..LOADED.len() {
        expect(&rt, &rt, rt.alloc(), Place::Loaded(number))?;
    }
    Ok(())
}

#[test]
fn two_readers_look_on_while_two_workers_append(rt: HostRuntime) -> Result<(), Fail> {
    expect(&rt, &rt, rt.alloc(), Place::Soaked(0))
}

#[test]
fn sixteen_readers_look_on_while_one_worker_joins(rt: HostRuntime) -> Result<(), Fail> {
    expect(&rt, &rt, rt.alloc(), Place::Soaked(1))
}

#[test]
fn two_readers_look_on_while_one_worker_adds_columns(rt: HostRuntime) -> Result<(), Fail> {
    expect(&rt, &rt, rt.alloc(), Place::Soaked(2))
}
