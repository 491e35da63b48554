//! A table that is filled with columns that lie in memory elsewhere, as Arrow's C data interface hands them on.
//!
//! [`table_of`] makes an empty table of nodes, [`append`] adds the batch of nodes, all of it or nothing, [`add_column`] a column of
//! nulls.
#![tactic(auto)]

pub mod fault;
pub mod filling;

pub use fault::IntakeFault;
pub use filling::{add_column, append, table_of};
pub use flat::{FlatFault, Node, batch_of, fields_of, nodes_of, schema_of};
pub use table::{AddFault, Refusal, TableState};
