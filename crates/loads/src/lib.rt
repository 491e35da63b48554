//! Files loaded into one table by many workers.
//!
//! Start with [`load_all`]: each worker appends the batches of its files in a thread of its own. A [`Gate`] is passed before each
//! append; [`OpenGate`] lets each pass. A [`LoadFault`] tells which batch of which file was refused, and why.
#![tactic(auto)]

mod appending;
pub mod fault;
mod file_loading;
pub mod loading;
mod outcomes;
mod work;

pub use crews::{Gate, OpenGate, Task, run_all};
pub use fault::LoadFault;
pub use loading::load_all;
