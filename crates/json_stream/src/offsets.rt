//! OFFSET: where lists begin and end among the items of their child.

ghost use Rattle.std.specs.Prelude.{◌≡◌, ◌<◌, ◌≤◌, length, drop, IfOk};
ghost use Rattle.json_read.specs.Prelude.{Items, array};
ghost use Rattle.json_stream.specs.Cursor.{HasAt, IsBehind};
ghost use Rattle.json_stream.specs.Offsets.{AreSpelledOffsets};

use crate::cursor::Cursor;
use crate::whole::read_whole;
use arrays::{MOST_SLOTS, NoMemory, OffsetWidth};
use json_read::{offset_type, push_offset};
use json_scan::{ItemVisitor, Miss, Placed, ScanResult, read_array};
use std::alloc::Global;

/// The offsets that were taken.
#[derive(Drop)]
pub(crate) struct Offsets {
    pub width: OffsetWidth,
    /// Little-endian, one after another.
    pub bytes: Vec<u8>,
    pub len: usize,
}

impl ItemVisitor for Offsets {
    ghost use Rattle.std.specs.Prelude.{◌≡◌};
    ghost use Rattle.json_read.specs.Prelude.{no_items};
    ghost use Rattle.json_scan.specs.Spelling.{before};
    ghost use Rattle.json_stream.specs.Offsets.{AreSpelledOffsets};

    ghost holds = { λ text depth first ds now. (now.width ≡ first.width) × AreSpelledOffsets first.width (before ds no_items) now };

    #[inline]
    fn visit(&mut self, text: &str, at: usize, _depth: usize) -> Result<usize, Miss> {
        let Some(offset) = read_whole(text, at) else {
            return Err(Miss::Unread);
        };
        // A column has one offset more than lists.
        if self.len > MOST_SLOTS || !offset_type(self.width).holds(offset.value) {
            return Err(Miss::Unread);
        }
        match push_offset(&mut self.bytes, self.width, offset.value) {
            Ok(()) => {
                self.len += 1;
                Ok(offset.end)
            }
            Err(NoMemory) => Err(Miss::NoMemory),
        }
    }
}

/// The offsets of this width that stand here, or after spaces: an array of numbers, or of texts in which nothing is escaped.
pub(crate) fn read_offsets(alloc: Global, width: OffsetWidth, cursor: Cursor) -> ScanResult<Offsets>
    ensures ok { IfOk result (λ r. (offsets : Items) × HasAt cursor.entry (array offsets) r.end × AreSpelledOffsets width offsets r.value) }
    ensures onward { IfOk result (λ r. IsBehind cursor.entry r.end) }
{
    let mut offsets = Offsets {
        width,
        bytes: Vec::new(alloc),
        len: 0,
    };
    let end = read_array(cursor.text, cursor.at, cursor.depth, &mut offsets)?;
    Ok(Placed {
        value: offsets,
        end,
    })
}
