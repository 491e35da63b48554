//! Reads queries from their JSON text. Users name `arrow_json`, which passes this on.
#![tactic(auto)]

mod agg;
mod expr;
mod form;
pub mod laws;
mod lists;
pub mod query_text;
mod text;

pub use query_text::read_query;
