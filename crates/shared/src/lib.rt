//! A table that many workers append to at once, each from a thread of its own, and that readers read without waiting.
//!
//! Start with these:
//!
//! - [`with_table`] opens a [`SharedTable`] with its [`Worker`]s and [`Reader`]s, and runs a [`Session`] on it. [`open`] is for who
//!   picks the table's name itself: an [`Opening`] is what it is opened with.
//! - [`SharedTable::append`] adds a batch for a worker and returns a [`Receipt`]; [`SharedTable::snapshot`] gives the newest [`Version`].
//! - [`Reader::latest`] gives the newest version without the lock; [`Reader::learn`] has it see what a receipt tells of.
//! - [`SharedTable::compact`] joins neighbouring batches, [`SharedTable::add_column`] adds a nullable column.
//! - [`SharedTable::gather`] takes all workers back and gives the version of the end; [`SharedTable::close`] is for who needs none.
//!
//! `loads::load_all` has the workers append lists of batches in threads of their own.
#![tactic(auto)]

pub mod fault;
pub mod laws;
mod ledgers;
mod lending;
mod locked;
mod missing;
pub mod naming;
pub mod opening;
pub mod outcome;
pub mod reader;
mod seal;
pub mod session;
pub mod shared_table;
pub mod shown;
pub mod worker;

pub use fault::{GatherCause, GatherFault, OpenFault};
pub use naming::{Event, Naming};
pub use opening::{Opening, open};
pub use outcome::{Outcome, Receipt};
pub use reader::Reader;
pub use session::{Session, with_table};
pub use shared_table::{Gathered, SharedTable};
pub use shown::{Publish, Publisher, Shown};
pub use table::{
    AddFault, Agg, Answer, ColumnStats, Entry, Group, OpenGate, Query, QueryFault, QueryText,
    Ready, Refusal, Scalar, TableState, Version, resolve,
};
pub use worker::Worker;
