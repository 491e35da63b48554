//! The ends of a program: where its bytes come from, where they go to, both over memory too, and the lines that tell
//! why there is no output.
#![tactic(auto)]

pub mod line;
pub mod memory;
pub mod sink;
pub mod source;

pub use line::{tell_memory, tell_output, write_line};
pub use sink::{Sink, WriteFailed, write_whole};
pub use source::{ReadFailed, Source, SourceFault, read_whole};
