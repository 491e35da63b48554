//! VALIDITY: which slots of a column are valid.

ghost use Rattle.std.specs.Prelude.{◌≡◌, ◌<◌, ◌≤◌, length, drop, Some, IfOk};
ghost use Rattle.json_read.specs.Prelude.{Data};
ghost use Rattle.json_stream.specs.Cursor.{HasValue, IsBehind};
ghost use Rattle.json_stream.specs.Validity.{AreFlags, IsValidity, valid_of};

use crate::cursor::Cursor;
use crate::natural::read_flag;
use arrays::{BitmapBuf, BitmapBuilder, MOST_SLOTS, NoMemory};
use json_scan::{ItemVisitor, Literal, Miss, Placed, ScanResult, read_array, read_literal};
use std::alloc::Global;

/// The flags that were taken.
#[derive(Drop)]
struct Flags {
    bits: BitmapBuilder,
}

impl ItemVisitor for Flags {
    ghost holds = { λ text depth first ds now. AreFlags ds now.bits };

    #[inline]
    fn visit(&mut self, text: &str, at: usize, _depth: usize) -> Result<usize, Miss> {
        let Some(flag) = read_flag(text.as_bytes(), at) else {
            return Err(Miss::Unread);
        };
        if self.bits.len() >= MOST_SLOTS {
            return Err(Miss::Unread);
        }
        match self.bits.push(flag.value) {
            Ok(()) => Ok(flag.end),
            Err(NoMemory) => Err(Miss::NoMemory),
        }
    }
}

/// The validity that stands here, or after spaces: null where all slots are valid, else an array of a flag for each.
pub(crate) fn read_validity(alloc: Global, cursor: Cursor) -> ScanResult<Option<BitmapBuf>>
    ensures ok { IfOk result (λ r. HasValue cursor.entry r.end (λ d. IsValidity (Some d) r.value)) }
    ensures onward { IfOk result (λ r. IsBehind cursor.entry r.end) }
{
    if let Some(literal) = read_literal(cursor.text.as_bytes(), cursor.at) {
        return match literal.value {
            Literal::Null => Ok(Placed {
                value: None,
                end: literal.end,
            }),
            Literal::Bool(_) => Err(Miss::Unread),
        };
    }
    let mut flags = Flags {
        bits: BitmapBuilder::new(alloc),
    };
    let end = read_array(cursor.text, cursor.at, cursor.depth, &mut flags)?;
    match flags.bits.finish() {
        Ok(bits) => Ok(Placed {
            value: Some(bits),
            end,
        }),
        Err(NoMemory) => Err(Miss::NoMemory),
    }
}

/// Whether slot `i` is valid; none where it has no flag.
#[inline(always)]
pub(crate) fn valid_at(validity: &Option<BitmapBuf>, i: usize) -> Option<bool>
    ensures { result ≡ valid_of validity.now i }
{
    let Some(bits) = validity else {
        return Some(true);
    };
    let bits = bits.bits();
    if i < bits.len() {
        Some(bits.get(i))
    } else {
        None
    }
}
