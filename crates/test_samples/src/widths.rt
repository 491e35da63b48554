//! The widths of offsets, which tests go over.

use arrays::OffsetWidth::{self, Narrow, Wide};
use std::alloc::Global;
use std::test::Fail;

/// How wide offsets are: those of texts, and those of lists in one another, in turn from the innermost on.
#[derive(Clone, Copy, Debug)]
pub struct Widths {
    pub texts: OffsetWidth,
    pub inner: OffsetWidth,
    pub outer: OffsetWidth,
}

impl Widths {
    /// The width of a column of so many lists in one another: of the outermost ones, and where there are none of its texts.
    pub fn of_lists(self, lists: usize) -> OffsetWidth {
        if lists == 0 {
            self.texts
        } else if lists % 2 == 1 {
            self.inner
        } else {
            self.outer
        }
    }
}

pub const NARROW: Widths = Widths {
    texts: Narrow,
    inner: Narrow,
    outer: Narrow,
};

pub const WIDE: Widths = Widths {
    texts: Wide,
    inner: Wide,
    outer: Wide,
};

/// Narrow texts, in wide lists, in narrow ones.
pub const NARROW_IN_WIDE: Widths = Widths {
    texts: Narrow,
    inner: Wide,
    outer: Narrow,
};

/// Wide texts, in narrow lists, in wide ones.
pub const WIDE_IN_NARROW: Widths = Widths {
    texts: Wide,
    inner: Narrow,
    outer: Wide,
};

/// Each width alone, and with the other.
pub const WIDTHS: [Widths; 4] = [NARROW, WIDE, NARROW_IN_WIDE, WIDE_IN_NARROW];

/// The bytes of offsets: little-endian, two's complement. Narrow ones are the lower halves of these.
pub fn offset_bytes(alloc: Global, width: OffsetWidth, offsets: &[i64]) -> Result<Vec<u8>, Fail> {
    let mut bytes = Vec::new(alloc);
    for offset in offsets {
        let wide = offset.to_le_bytes();
        match width {
            Narrow => bytes.extend_from_slice(&wide[..4])?,
            Wide => bytes.extend_from_slice(&wide)?,
        }
    }
    Ok(bytes)
}
