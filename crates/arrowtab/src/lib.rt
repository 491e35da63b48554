//! What `arrowtab` does between its ends: what the bytes of files hold, and what goes to the output. The ends are those of
//! `ends`, and what is to be done is of `job`; both are passed on.
#![tactic(auto)]

mod answer;
mod column;
mod groups;
mod invocation;
pub mod laws;
mod query_file;
mod reading;
mod tell;
mod together;
mod wanted;
mod windows;

pub use arrow_json::{JsonFault, JsonFaultKind, Member, Path, Step, fault_text};
pub use ends::{
    ReadFailed, Sink, Source, SourceFault, WriteFailed, memory, read_whole, write_whole,
};
pub use invocation::run;
pub use job::{Command, Job, JobFault, Output, QuerySource, is_standard_input, job, print_fault};
pub use query_file::read_query_file;
pub use reports::refusal;
pub use table::Refusal;
