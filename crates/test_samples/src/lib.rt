//! What tests make arrays of, and what they compare views with.
#![tactic(auto)]

pub mod batches;
pub mod columns;
pub mod fields;
pub mod integers;
pub mod parts;
pub mod results;
pub mod shown;
pub mod slots;
pub mod values;
pub mod widths;

pub use batches::{Batch, batch_of, fields_of};
pub use columns::{NAMES, Sample, coded, raw_coded, raw_lists, raw_sample, sampled, sampled_at};
pub use fields::{field, item, list_of, lists_of};
pub use integers::{INT8, INT16, INT32, INT64, UINT8, UINT16, UINT32, UINT64};
pub use parts::{Flat, Parts, Positions, Words, built, checked, raw, raw_flat, raw_words};
pub use results::{has_validity_only_where_null, is_result_of_bools, is_result_of_numbers};
pub use shown::{Layers, Shown, has_layers, is_result, shows};
pub use slots::{
    Numbers, has_item, has_offsets, has_width, shows_bools, shows_encoded, shows_lists,
    shows_numbers, shows_texts, slots_of,
};
pub use values::{raw_bools, raw_numbers, raw_texts};
pub use widths::{NARROW, NARROW_IN_WIDE, WIDE, WIDE_IN_NARROW, WIDTHS, Widths, offset_bytes};
