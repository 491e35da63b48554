//! Padded buffers and bitmaps, the bytes below every Arrow array.
#![tactic(auto)]

pub mod bitmap;
pub mod bits;
pub mod buffer;
pub mod lanes;
pub mod memory;
pub mod places;
mod word;

pub use bitmap::BitmapBuf;
pub use bitmap::builder::BitmapBuilder;
pub use bits::Bits;
pub use buffer::Buffer;
pub use lanes::lanes_of;
pub use memory::NoMemory;
pub use places::{Both, Either, Flipped, Ones, Places};
