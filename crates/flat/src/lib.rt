//! Columns that lie in memory elsewhere, as Arrow's C data interface hands them on.
//!
//! [`Node`] is a column, or what lies in one. [`batch_of`] makes a record batch of nodes, [`schema_of`] the schema that they name:
//! each buffer is copied once and checked once, and nothing that is lent is trusted. [`nodes_of`] gives the nodes of a batch, and
//! [`fields_of`] those of a schema.
#![tactic(auto)]

pub mod batch;
mod codes;
mod columns;
mod content;
pub mod fault;
mod fields;
pub mod laws;
pub mod lent;
pub mod named;
pub mod node;
mod parts;
pub mod schema;

pub use batch::batch_of;
pub use fault::FlatFault;
pub use lent::nodes_of;
pub use named::fields_of;
pub use node::Node;
pub use schema::schema_of;
