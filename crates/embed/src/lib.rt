//! Files as text, in one's own process: what `arrowtab` prints of files with one worker, from their bytes, without a thread, a
//! lock or an end.
//!
//! Start with these: [`stats`], [`schema`], [`export`] and [`query`] give the text, [`validate`] only says whether the files can be loaded, and
//! [`Loaded`] is a table that stays, for several answers, and for batches that are added to it, and [`Snapshot`] is one as it was at a moment.
//! Each gives a [`RunFault`] where there is none, whose line is [`line_of`], with the file's number for its name.
#![tactic(auto)]

mod answering;
pub mod loaded;
mod loading;
mod reading;
pub mod snapshot;
mod text;

pub use loaded::Loaded;
pub use reports::{ColumnFault, FileFault, RunFault};
pub use snapshot::Snapshot;
pub use table::{AddFault, Refusal};
pub use text::{export, line_of, query, schema, stats, validate};
