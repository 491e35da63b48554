//! The values of expressions, column by column.
#![tactic(auto)]

pub mod column;
mod columns;
mod constant;
mod evaluation;
pub mod filter;
mod made;
mod number;
mod operators;
pub mod slice;
pub mod stop;
mod text;
pub mod values;

pub use query::Agg;
