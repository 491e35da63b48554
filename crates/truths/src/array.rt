//! Arrays of truth values, given place by place.

ghost use Rattle.std.specs.Prelude.{◌≡◌, ◌≤◌, map, IfOk};
ghost use Rattle.std.specs.List.{range_with_len};
ghost use Rattle.arrays.specs.Kind as kind;
ghost use Rattle.arrays.specs.Prelude.{kept, most_slots, shown};
ghost use Rattle.truths.specs.Truth.{truths_of};

use arrays::Array;
use arrays::validity::{buffer_of, validity_of};
use colbits::{BitmapBuf, NoMemory, Places};
use std::alloc::Global;

/// The array of the truth values: whether there is one at each place, and which; where there is none it may be either.
pub fn array_of<K: Places, V: Places>(
    alloc: Global,
    known: &K,
    values: &V,
) -> Result<Array, NoMemory>
    requires one_length { K.count known.now ≡ V.count values.now }
    requires short { V.count values.now ≤ most_slots }
    ensures { IfOk result (λ r. r ≡ shown kind.boolean
        (truths_of (K.at known.now) (V.at values.now) (V.count values.now))) }
{
    let bits = BitmapBuf::from_places(alloc, values)?;
    let validity = known_of(alloc, known)?;
    Array::from_bits(
        alloc,
        values.len() as u32,
        buffer_of(validity),
        bits.into_buffer(),
    )
}

/// The validity of slots that are valid where the places are 1: none where all of them are.
pub(crate) fn known_of<K: Places>(alloc: Global, known: &K) -> Result<Option<BitmapBuf>, NoMemory>
    ensures { IfOk result (λ v. v ≡ kept (map (K.at known.now) (range_with_len 0 (K.count known.now)))) }
{
    if known.are_ones() {
        return Ok(None);
    }
    validity_of(alloc, known)
}
