//! Fields, and how their columns are encoded.

use arrays::Field;
use json_read::Coding;

/// A field, and how its column is encoded.
#[derive(Clone, Copy, Drop)]
pub(crate) struct EncodedField<'f> {
    pub field: &'f Field,
    /// None where it isn't.
    pub coding: &'f Option<Coding>,
}
