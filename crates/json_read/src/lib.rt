//! Reads Arrow's JSON integration files into record batches. Users name `arrow_json`, which passes this on.
#![tactic(auto)]

mod batch;
mod catalog;
mod codes;
mod column;
mod dictionary;
mod encoding;
pub mod field;
pub mod file;
pub mod laws;
mod list;
mod place;
mod schema;
mod type_object;

pub use catalog::{Coding, has_some};
pub use encoding::Encoding;
pub use field::read_field;
pub use file::{FileHead, read_file, read_file_from_vec, read_head};
pub use json_base::number::text_integer;
pub use json_base::{JsonFault, JsonFaultKind, Member, Value};
pub use list::{offset_type, push_offset};
pub use place::{Place, place_of, places_of};
pub use schema::{EncodedSchema, read_schema};
