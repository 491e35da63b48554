//! The library by one name: columns and batches, a table of one thread, and one that many append to while others read it, queries
//! over both, and Arrow's JSON integration files.
//!
//! Who wants columns checked from raw buffers, or kernels on columns, names the crates `arrays`, `kernels` and `select` too.
#![tactic(auto)]

pub mod asking;
pub mod fault;

pub use arrays::{
    Array, BatchFault, BoolBuilder, BuildFault, DataType, Field, File, INT32, INT64, IntBuilder,
    IntType, ListBuilder, OffsetWidth, RecordBatch, Schema, SchemaFault, TextBuilder, View,
    ViewType, Width,
};
pub use arrow_json::{
    JsonFault, JsonFaultKind, fault_text, print_file, read_field, read_file, read_file_from_vec,
    read_query,
};
pub use asking::ask;
pub use fault::Fault;
pub use loads::{Gate, LoadFault, OpenGate, load_all};
pub use shared::{
    AddFault, Answer, Entry, GatherCause, GatherFault, Gathered, Group, Naming, OpenFault, Opening,
    Publish, Query, QueryFault, QueryText, Reader, Ready, Receipt, Refusal, Session, SharedTable,
    Shown, TableState, Version, Worker, open, resolve, with_table,
};
