//! The parts of an array as Arrow lays them out: what they mean, and their faults. Users name `arrays`, which passes on
//! the parts and the faults; the other calls are for `arrays` alone.
#![tactic(auto)]

pub mod buffers;
mod contents;
pub mod copies;
pub mod dropping;
pub mod fault;
pub mod offsets;
pub mod raw;
mod shapes;
pub mod validator;

pub use dropping::release;
pub use fault::LayoutFault;
pub use offsets::Offsets;
pub use raw::RawArray;
pub use validator::{first_fault, own_fault};
