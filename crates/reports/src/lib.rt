//! What files and a table of them are as text, without a thread, a lock or an end: what `arrowtab` prints, the faults that it
//! reports, and their lines.
//!
//! Start with these: [`stats_text`], [`schema_text`], [`head_text`], [`export_text`] and [`groups_text`] print a version of a table,
//! [`read_query_text`] reads a query's text, and [`line_of`] gives the line of a [`RunFault`].
#![tactic(auto)]

mod csv;
pub mod export;
pub mod fault_lines;
pub mod forms;
pub mod groups;
pub mod head;
mod name;
pub mod query_text;
pub mod refusal;
pub mod report;
pub mod run_fault;
pub mod schema;
mod text;

pub use csv::column_names;
pub use export::export_text;
pub use fault_lines::line_of;
pub use forms::{group_arrays, group_lines, group_records};
pub use groups::{groups_text, placed_groups, placed_query};
pub use head::head_text;
pub use query_text::read_query_text;
pub use report::stats_text;
pub use run_fault::{ColumnFault, FileFault, RunFault, text_fault};
pub use schema::schema_text;
