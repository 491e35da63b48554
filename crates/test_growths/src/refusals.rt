//! What is required of the library that refuses requests for memory: by requests for so many bytes as nobody wants in earnest
//! (`tools/refusals.c`).

use std::alloc::Global;

/// Which requests of a call are refused, counted from 1: one, or it and all behind it.
#[derive(Clone, Copy)]
pub(crate) struct Refused {
    pub(crate) number: u32,
    pub(crate) and_all_behind: bool,
}

const ALONE: usize = 1 << 62;

const AND_ALL_BEHIND: usize = 1 << 32;

const WAS_NONE_REFUSED: usize = 1 << 61;

const KEEP_IN_MIND: usize = 1 << 60;

const ARE_AS_MANY: usize = (1 << 60) + 1;

/// Has these requests refused from here on, where there are any.
pub(crate) fn begin(alloc: Global, refused: Option<Refused>) {
    let Some(refused) = refused else {
        return;
    };
    let behind = if refused.and_all_behind {
        AND_ALL_BEHIND
    } else {
        0
    };
    let _none = block(alloc, ALONE + behind + refused.number as usize);
}

/// Has nothing refused any more. Whether anything was since this was called last, or there is no such library: nothing else would
/// grant the request.
pub(crate) fn end(alloc: Global) -> bool {
    block(alloc, WAS_NONE_REFUSED).is_none()
}

/// Keeps in mind how many blocks are in use.
pub(crate) fn count_blocks(alloc: Global) {
    let _none = block(alloc, KEEP_IN_MIND);
}

/// Whether as many blocks are in use as were counted.
pub(crate) fn are_all_let_go(alloc: Global) -> bool {
    block(alloc, ARE_AS_MANY).is_some()
}

/// A block of so many bytes, where it's granted. Nobody looks at it, so it's made where a compiler doesn't see that.
#[inline(never)]
fn block(alloc: Global, bytes: usize) -> Option<Vec<u8>> {
    Vec::with_capacity(alloc, bytes).ok()
}
