//! JSON read straight from the bytes of its text, with no tree in between. A function takes the text and a place in it, the offset of a byte,
//! and gives what stands there and where the text goes on, so that a place can be noted and read later. What it gives is what `serde_json`
//! would; where a text is at fault, or is written in a way that isn't read here, it gives nothing, and another reader tells why.
#![tactic(auto)]

mod array;
pub mod laws;
mod literal;
mod mark;
mod miss;
mod number;
mod object;
mod space;
mod text;
mod tree;
mod value;
mod word;

pub use array::{ItemVisitor, read_array, read_integers};
pub use json::{Reader, Scratch};
pub use literal::{Literal, read_literal};
pub use mark::{Container, Mark, empty_end, ends_in, read_mark};
pub use miss::{Miss, ScanResult, push};
pub use number::{pass_number, read_integer};
pub use object::{MemberVisitor, find_member, read_object};
pub use space::{Placed, after_space};
pub use text::{read_key, read_plain_text, read_text};
pub use tree::read_value;
pub use value::{pass_over, pass_value};
