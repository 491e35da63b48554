//! Answers of queries over record batches: which rows, by which keys, and what of each group of them.
//!
//! Start with these: [`answer`] looks at the rows in several pieces, each in a thread of its own, and [`answer_alone`] in one and
//! without a thread. Both give an [`Answer`], whose [`Group`]s stand in order of first appearance. A [`Gate`] is passed before
//! the first row of each piece; [`OpenGate`] lets each pass. Over a table call `Version::answer`, which takes the same.
#![tactic(auto)]

mod answering;
mod common;
mod counting;
mod cuts;
mod filter;
mod grouping;
pub mod groups;
pub mod laws;
mod mask;
mod neighbours;
mod piece;
mod run;
mod scan;
mod shares;
mod telling;

pub use answering::{answer, answer_alone};
pub use crews::{Gate, OpenGate};
pub use group::{ColumnStats, Scalar, joined_all, stats_of_all};
pub use groups::{Answer, Group};
pub use query::{Agg, Expr, Op, Query, QueryFault, QueryText, query_fault_text, resolve};
