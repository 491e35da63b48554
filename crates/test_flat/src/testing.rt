//! Nodes as tables of cases say them, and how a case is asserted.

use std::alloc::Global;
use std::fmt::Display;
use std::process::Abort;

/// How many children it has, and whether a dictionary.
pub(crate) type Behind = (u64, u32);

pub(crate) const ALONE: Behind = (0, 0);

pub(crate) const LIST: Behind = (1, 0);

pub(crate) const CODES: Behind = (0, 1);

/// A null count that isn't known.
pub(crate) const UNKNOWN: u64 = u64::MAX;

/// A node that may hold nulls: the format, what lies behind it, the length, the null count, and the validity with the two
/// buffers.
#[macro_export]
macro_rules! node {
    (
        $format:expr,
        $behind:expr,
        $length:expr,
        $null_count:expr,
        [$validity:expr, $first:expr, $second:expr $(,)?] $(,)?
    ) => {
        intake::Node {
            format: $format,
            name: b"name",
            nullable: 2,
            dictionary: $behind.1,
            children: $behind.0,
            length: $length,
            null_count: $null_count,
            validity: $validity,
            first: $first,
            second: $second,
        }
    };
}

/// A node without a slot: the format, and what lies behind it.
#[macro_export]
macro_rules! empty {
    ($format:expr, $behind:expr) => {
        $crate::node!($format, $behind, 0, $crate::testing::UNKNOWN, [b"", b"", b""])
    };
}

/// Asserts that a case is as it should be, and names it by its place in its table where it isn't.
pub(crate) fn assert_case(rt: &impl Abort, is_right: bool, place: usize) {
    assert!(rt; is_right, "the case at {place}");
}

/// Whether this is the line of a fault.
pub(crate) fn is_line(alloc: Global, fault: &impl Display, line: &str) -> bool {
    match format!(in alloc; "{fault}") {
        Ok(printed) => printed.as_str() == line,
        Err(_) => false,
    }
}
