//! The table of one thread: batches admitted one after the other, and versions that show what was admitted.
//!
//! Start with these:
//!
//! - [`TableState::new`] makes a table of a schema, [`TableState::admit`] adds a batch, or returns the first [`Refusal`] that stands.
//! - [`TableState::version`] shows the table as it is; a [`Version`] stays as it is, whatever is admitted after it.
//! - [`Version::answer`], [`Version::stats`], [`Version::batches`] and [`Version::export`] read it.
//! - [`TableState::compact`] joins neighbouring batches, [`TableState::add_column`] adds a nullable column.
//!
//! The calls whose names end with `ready` and `shown` are for `shared`, which makes versions beside changes.
#![tactic(auto)]

pub mod add_fault;
mod admission;
mod book;
mod cause;
mod change;
mod chunks;
mod columns;
pub mod entry;
mod export;
mod joining;
pub mod laws;
mod look;
mod moving;
mod nulls;
pub mod ready;
pub mod refusal;
pub mod state;
mod storage;
mod stored;
pub mod version;
mod widening;

pub use add_fault::AddFault;
pub use answers::{
    Agg, Answer, ColumnStats, Gate, Group, OpenGate, Query, QueryFault, QueryText, Scalar,
    query_fault_text, resolve,
};
pub use entry::Entry;
pub use ready::Ready;
pub use refusal::Refusal;
pub use state::TableState;
pub use version::Version;
