//! The parts of an array.

use colbits::Buffer;
use types::DataType;

/// The parts of an array as they come from outside: anything may be wrong with them.
#[derive(Drop)]
pub struct RawArray {
    pub ty: DataType,
    pub length: u64,
    pub null_count: Option<u64>,
    pub buffers: Vec<Option<Buffer>>,
    pub children: Vec<RawArray>,
    pub dictionary: Option<Box<RawArray>>,
}
