//! What stays between calls.
use embed::{Loaded, Snapshot};

/// What a handle may hold open: a table, or a snapshot of one.
#[derive(Drop)]
pub enum Pointee {
    Table(Loaded),
    Snapshot(Snapshot),
}
