//! Statistics of columns, and the scalars that they are given in.
#![tactic(auto)]

pub mod columns;
mod copy;
mod join;
pub mod laws;
mod number;
pub mod scalar_ref;
mod slots;
pub mod stats;
mod tally;

pub use columns::{joined_all, stats_of_all};
pub use copy::copied;
pub use join::joined;
pub use scalar_ref::ScalarRef;
pub use slots::stats_of;
pub use stats::{ColumnStats, Scalar};
