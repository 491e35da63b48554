//! Arrow arrays, checked once: views, builders and record batches. The types of columns and the parts of an array come
//! from `types` and `layout`, and are passed on.
//!
//! Start with these:
//!
//! - [`validate`] makes an [`Array`] of parts that come from elsewhere ([`RawArray`]), or returns the first fault.
//! - [`IntBuilder`], [`BoolBuilder`], [`TextBuilder`] and [`ListBuilder`] make arrays slot by slot, [`Array::nulls`] one of nulls,
//!   [`Array::of_ints`], [`Array::of_bools`] and [`Array::of_texts`] one of a slice.
//! - [`Array::view`] shows the slots: [`View::int_at`], [`View::bool_at`], [`View::text_at`] and [`View::list_at`] one of them,
//!   [`View::slice`] a part.
//! - [`RecordBatch::new`] puts columns of one length under a [`Schema`].
//!
//! The other public items are for the crates above, the typed views ([`Ints`], [`Bools`], [`Texts`], [`Lists`]) for those that compute.
#![tactic(auto)]

pub mod array;
pub mod batch;
pub mod builder;
pub mod dispatch;
pub mod file;
pub mod lent;
pub mod numbers;
pub mod offset_slots;
pub mod validity;
pub mod view;
pub mod words;

pub use array::{Array, validate};
pub use batch::{BatchFault, RecordBatch};
pub use builder::IntBuilder;
pub use builder::bools::BoolBuilder;
pub use builder::fault::BuildFault;
pub use builder::lists::ListBuilder;
pub use builder::texts::TextBuilder;
pub use builder::validity::ValidityBuilder;
pub use colbits::{BitmapBuf, BitmapBuilder, Bits, Buffer, NoMemory, Places};
pub use file::File;
pub use layout::{LayoutFault, Offsets, RawArray};
pub use lent::LentParts;
pub use numbers::push_number;
pub use offset_slots::OffsetSlots;
pub use types::{
    DataType, Field, INT32, INT64, IntType, Integer, MOST_SLOTS, OffsetWidth, Packed, Schema,
    SchemaFault, Width, has_dict_in_list, is_too_deep, natural_at,
};
pub use view::{Bools, Ints, Lists, Texts, View, ViewType};
pub use words::Words;
