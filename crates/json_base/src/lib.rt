//! Places of a JSON document, what is wrong there, the members and numbers that stand there, and what a file holds. Users name `arrow_json`,
//! which passes on places and faults; the rest is for the crates that read documents.
#![tactic(auto)]

pub mod document;
pub mod fault;
pub mod member;
pub mod number;
pub mod path;

pub use fault::{JsonFault, JsonFaultKind, fault_text};
pub use path::{Member, Path, Step};
pub use serde_json::Value;
