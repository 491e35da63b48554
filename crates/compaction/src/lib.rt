//! Neighbouring record batches joined into fewer, whose rows are the same.
#![tactic(auto)]

mod columns;
mod compacting;
mod dictionaries;
mod groups;
mod joining;
mod sizes;
mod statistics;

pub use compacting::{Compacted, compact};
pub use dictionaries::{names_whole, with_dictionaries};
pub use select::copy;
