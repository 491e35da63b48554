//! The keys of groups, each once: rows are given the ids of their groups.
#![tactic(auto)]

mod code_set;
mod codes;
pub mod columns;
pub mod key_set;
mod key_texts;
pub mod memo;
mod numbers;
pub mod others;
mod part;
mod part_set;
pub mod rows;
pub mod text_set;

pub use columns::KeyColumns;
pub use key_set::KeySet;
pub use memo::Memo;
pub use others::intern_keys;
pub use rows::intern_rows;
pub use text_set::TextSet;
