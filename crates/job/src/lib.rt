//! What the command line requests of the program: its words, read by `clap`.
#![tactic(auto)]

mod command_line;
pub mod fault;
pub mod jobs;
mod printing;
mod reading;

pub use fault::JobFault;
pub use jobs::{Command, Job, Output, QuerySource, is_standard_input};
pub use printing::print_fault;
pub use reading::job;
