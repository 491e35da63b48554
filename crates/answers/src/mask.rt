//! The rows that are true, a word at a time.

ghost use Rattle.std.specs.Prelude.{◌≡◌, ◌+◌, ◌<◌, ◌^◌, ◌++◌, ℕ, OnOk, filter, length, map};
ghost use Rattle.std.specs.List.{range_with_len};
ghost use Rattle.arrays.specs.Prelude.{bit_in, item_at};
ghost use Rattle.arrays.specs.Kind as kind;
ghost use Rattle.answers.specs.Masks.{is_set, ones_of, set_rows};
ghost use Rattle.answers.specs.Runs.{keeps_item};

use arrays::validity::valid_word;
use arrays::{Bools, NoMemory, View};

/// The truth values of a view.
pub(crate) fn of<'a>(view: &View<'a>) -> Bools<'a>
    requires { view.now.kind ≡ kind.boolean }
    ensures rows { set_rows result.validity result.values
        ≡ filter (λ i. keeps_item (item_at view.now.items i)) (range_with_len 0 (length view.now.items)) }
    ensures size { length result.values ≡ length view.now.items }
{
    view.bools()
}

/// Which of slots `i` to `i + 63` are true, the first of them least significant. There may be fewer slots.
#[inline(always)]
fn word(mask: &Bools<'_>, i: usize) -> u64
    ensures { (j : ℕ) → j < 64 → bit_in result j ≡ is_set mask.now.validity mask.now.values (i + j) }
{
    valid_word(&mask.validity, i) & mask.values.word(i)
}

/// How many slots are true.
pub(crate) fn count(mask: &Bools<'_>) -> usize
    ensures { result ≡ length (set_rows mask.now.validity mask.now.values) }
{
    let words = mask.values.len() / 64;
    let mut count = 0;
    for w in 0..words {
        count += word(mask, 64 * w).count_ones() as usize;
    }
    count + word(mask, 64 * words).count_ones() as usize
}

/// Puts the places of the slots that are true behind what is there, that of the first slot being this.
pub(crate) fn push_places(
    mask: &Bools<'_>,
    places: &mut Vec<usize>,
    first: usize,
) -> Result<(), NoMemory>
    requires { first + length mask.now.values < 2 ^ 40 }
    ensures { OnOk result (places.new.items
        ≡ places.old.items ++ map (λ i. first + i) (set_rows mask.now.validity mask.now.values)) }
{
    let words = mask.values.len() / 64;
    for w in 0..words {
        push_ones(places, first + 64 * w, word(mask, 64 * w))?;
    }
    push_ones(places, first + 64 * words, word(mask, 64 * words))
}

/// Puts the places of the ones of a word behind what is there, that of its first bit being this.
#[inline(always)]
fn push_ones(places: &mut Vec<usize>, first: usize, word: u64) -> Result<(), NoMemory>
    requires { first < 2 ^ 40 }
    ensures { OnOk result (places.new.items ≡ places.old.items ++ map (λ j. first + j) (ones_of word)) }
{
    let mut left = word;
    while left != 0 {
        let j = left.trailing_zeros();
        places.push(first + j as usize)?;
        left &= !(1 << j);
    }
    Ok(())
}
