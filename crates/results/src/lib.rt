//! What a query answers, as a record batch: a column for each item of a group's key, and then one for each aggregate.
#![tactic(auto)]

mod cell;
mod column;
mod result;
pub mod result_type;

pub use result::result_batch;
pub use result_type::{ResultType, result_types};
