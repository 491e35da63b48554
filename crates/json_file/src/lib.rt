//! Arrow's JSON integration files read straight from the bytes of the text, with no tree of their dictionaries and batches in between. What
//! isn't read so, `json_read` reads, which tells what is at fault.
#![tactic(auto)]

mod batches;
mod catalog;
mod dictionary;
mod document;
mod file;
mod head;
mod syntax;
mod texts;

pub use batches::read_batches;
pub use document::read_text;
pub use file::{read_file, read_file_from_vec};
pub use json_scan::{
    Miss, Placed, find_member, read_integers, read_key, read_text as read_string, read_value,
};
pub use json_stream::{
    BatchMembers, Cursor, read_batch, read_batch_members, read_column, read_columns,
};
