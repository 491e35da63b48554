//! Histories that only grow: a log that exists in proofs alone, and its fronts, each a beginning of it that somebody has seen.
#![tactic(auto)]

pub mod front;
pub mod head;
pub mod naming;
pub mod opened;
pub mod own;
mod rule;

pub use front::Front;
pub use head::Head;
pub use naming::{Naming, Noted};
pub use opened::Opened;
pub use own::Own;
