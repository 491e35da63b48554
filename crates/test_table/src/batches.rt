//! Batches that several scenes append.

use test_samples::{Batch, INT8, INT64, Sample};

/// The numbers 7 and 9.
pub(crate) const NUMBERS: Batch = (2, &[("s", true, SEVEN_AND_NINE)]);

pub(crate) const SEVEN_AND_NINE: Sample = Sample::Numbers(INT8, &[Some(7), Some(9)]);

pub(crate) const ONE_TO_THREE: Batch = (
    3,
    &[(
        "s",
        true,
        Sample::Numbers(INT8, &[Some(1), Some(2), Some(3)]),
    )],
);

/// No number.
pub(crate) const NONE: Batch = (0, &[("s", true, Sample::Numbers(INT8, &[]))]);

/// Numbers to which a column is added.
pub(crate) const ONE_AND_TWO: Batch = (
    2,
    &[("n", true, Sample::Numbers(INT64, &[Some(1), Some(2)]))],
);

/// A number behind them, with a text in the column that was added.
pub(crate) const THREE_AND_X: Batch = (
    1,
    &[
        ("n", true, THREE),
        ("m", true, Sample::Strings(&[Some("x")])),
    ],
);

pub(crate) const THREE: Sample = Sample::Numbers(INT64, &[Some(3)]);
