//! How long arrays may be.

/// The most slots of an array, and the most that an offset of 32 bits counts: 2^31 - 1. (Arrow columnar format,
/// "Array lengths")
pub const MOST_SLOTS: usize = 2147483647;
