//! Prints files as Arrow's JSON integration format has them. Users name `arrow_json`, which passes this on.
#![tactic(auto)]

mod batch;
mod column;
mod dictionaries;
mod entry;
pub mod file;
pub mod laws;
mod lists;
mod number;
mod output;
mod schema;
mod slots;
mod text_set;

pub use file::print_file;
