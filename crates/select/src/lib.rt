//! Selection of rows: take, filter, concatenate and copy views of Arrow arrays.
#![tactic(auto)]

pub mod copying;
pub mod fault;
pub mod filtering;
mod gather;
mod indices;
mod joining;
mod picks;
mod rows;
pub mod taking;
mod trues;

pub use copying::copy;
pub use fault::SelectFault;
pub use filtering::filter;
pub use joining::concat;
pub use taking::take;
