//! Types and fields, schemas, integer types and how a number lies in bytes. Users name `arrays`, which passes on the
//! types; the free functions are for the crates of arrays alone.
#![tactic(auto)]

pub mod data_type;
pub mod depth;
pub mod int_type;
pub mod integer;
pub mod limits;
pub mod numbers;
pub mod offset_width;
pub mod schema;

pub use data_type::{DataType, Field, is_same};
pub use depth::{has_dict_in_list, is_too_deep};
pub use int_type::{INT32, INT64, IntType, Width};
pub use integer::{Integer, Packed};
pub use limits::MOST_SLOTS;
pub use numbers::{int32_at, natural_at};
pub use offset_width::OffsetWidth;
pub use schema::{Schema, SchemaFault};
