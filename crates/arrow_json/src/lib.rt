//! Arrow's JSON integration format, and queries as JSON: what users name of the crates `json_*`.
//!
//! [`read_file`] and [`read_file_from_vec`] read a file's batches, [`read_field`] a field, [`read_query`] a query, and
//! [`print_file`] prints a file. A text that can't be read gives a [`JsonFault`]: its kind, and the path to its place.
#![tactic(auto)]

/// What holds of reading and printing.
pub mod laws;

pub use json_base::{JsonFault, JsonFaultKind, Member, Path, Step, fault_text};
pub use json_file::{read_file, read_file_from_vec};
pub use json_print::print_file;
pub use json_query::read_query;
pub use json_read::read_field;
