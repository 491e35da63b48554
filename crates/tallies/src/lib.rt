//! What aggregates know of the rows of each group.
#![tactic(auto)]

mod adding;
mod ahead;
mod best;
pub mod best_number;
pub mod column;
mod column_merging;
pub mod end;
mod items;
mod merging;
mod numbers;
mod source;
pub mod total;

pub use column::TallyColumn;
