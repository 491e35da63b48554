//! Queries over the columns of a table: which rows, by which keys, and what of each group. Columns are called by name as a
//! query is written, and by position as it is answered.
//!
//! Start with these: a [`QueryText`] names its columns (`json_query::read_query` reads one from JSON), and [`resolve`] makes a
//! [`Query`] of it under a schema, or returns the first fault. [`Query::fits`] looks whether a query that was made by hand fits
//! a schema, which who answers it asks for. An [`Expr`] is a filter, an [`Agg`] what is computed of a group.
#![tactic(auto)]

mod check;
mod columns;
pub mod depth;
pub mod expr;
pub mod fault;
mod kinds;
pub mod laws;
mod positions;
pub mod queries;
pub mod sort;

pub use expr::{Agg, Expr, Op};
pub use fault::{QueryFault, query_fault_text};
pub use positions::resolve;
pub use queries::{Query, QueryText};
