//! Letting go of the parts of an array that was refused: they may stand deeper in one another than the stack has room for.

use crate::raw::RawArray;

/// Lets go of an array with all that stands in it, in a loop: what is still to be let go stands on a list. Where the
/// list can't grow, the part that has no room there goes as any value does.
pub fn release(raw: RawArray) {
    let mut open = inner(raw);
    for _array in 0..u64::MAX {
        let Some(raw) = open.pop() else {
            return;
        };
        hand_over(inner(raw), &mut open);
    }
}

/// The children of an array and its dictionary; the rest of it is let go.
fn inner(raw: RawArray) -> Vec<RawArray> {
    let RawArray {
        ty: _,
        length: _,
        null_count: _,
        buffers: _,
        children,
        dictionary,
    } = raw;
    let mut parts = children;
    if let Some(entries) = dictionary {
        let _ = parts.push(Box::into_inner(entries));
    }
    parts
}

/// Puts arrays on the list.
fn hand_over(arrays: Vec<RawArray>, open: &mut Vec<RawArray>) {
    for array in arrays {
        let _ = open.push(array);
    }
}
