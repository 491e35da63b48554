//! Values at work together, each in a thread of its own.
#![tactic(auto)]

pub mod gate;
pub mod running;
pub mod task;

pub use gate::{Gate, OpenGate};
pub use running::run_all;
pub use task::Task;
