//! Columns of Arrow's JSON integration files read straight from the bytes of the text, with no tree in between. What a column holds is what
//! `json_read` finds in the tree of the same text; where a text is at fault, or is written in a way that isn't read here, nothing is told, and
//! the reader of trees tells why.
#![tactic(auto)]

mod batch;
mod column;
mod columns;
mod cursor;
mod field;
mod list;
mod natural;
mod offsets;
mod slots;
mod validity;
mod values;
mod whole;

pub use batch::{BatchMembers, read_batch, read_batch_members};
pub use column::{Stretch, member_stretch, read_column};
pub use columns::read_columns;
pub use cursor::Cursor;
pub use natural::{read_count, read_natural};
pub use whole::read_whole;
