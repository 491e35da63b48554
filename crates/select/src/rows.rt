//! Rows of a view, given one after the other.

ghost use Rattle.std.specs.Prelude.{◌≡◌, ℕ, ◌<◌, ◌≤◌, ◌∷◌, None, true, drop, length, slice_index_or, Some, IsTrue};
ghost use Rattle.select.specs.Picked.{first_rows, is_row};
ghost use Rattle.arrays.specs.Prelude.{most_slots};

/// How far rows are given.
#[derive(Clone, Copy)]
pub(crate) struct Place {
    /// The next slot; where rows are given by bits, the word of 64 that is looked at.
    pub(crate) at: u32,
    /// The ones of that word that are left.
    pub(crate) ones: u64,
}

/// A row or none for each slot of a result, given from the first slot on, as often as wanted. No list of them is
/// kept.
pub(crate) trait Rows {
    ghost use Rattle.std.specs.Prelude.{ℕ, List, Option};
    ghost use Rattle.select.specs.declared.rows.Place.{Place};

    ghost picks: { Self → List (Option ℕ) };

    /// What is left to tell from a place on.
    ghost rest: { Self → Place → List (Option ℕ) };

    /// How many slots there are.
    fn slots(&self) -> u32
        ensures count { result ≡ length (picks self.now) }
        ensures short { result ≤ most_slots };

    /// Whether there is a row for each slot.
    fn are_rows(&self) -> bool
        ensures { IsTrue result → (j : ℕ) → j < length (picks self.now) → is_row (slice_index_or (picks self.now) j None) ≡ true };

    /// The place before the first slot.
    fn first(&self) -> Place
        ensures { rest self.now result ≡ picks self.now };

    /// The row of the next slot, or none.
    fn next(&self, place: &mut Place) -> Option<usize>
        requires { 0 < length (rest self.now place.old) }
        ensures { rest self.now place.old ≡ result ∷ rest self.now place.new };
}

/// The first rows of a view, each once.
#[derive(Drop)]
pub(crate) struct FirstRows {
    count: u32,
    ghost short: { count ≤ most_slots },
}

impl FirstRows {
    /// So many.
    pub(crate) fn new(count: u32) -> FirstRows
        requires { count ≤ most_slots }
        ensures { result.count ≡ count }
    {
        FirstRows { count }
    }
}

impl Rows for FirstRows {
    ghost picks = { λ r. first_rows r.count };

    ghost rest = { λ r p. drop p.at (first_rows r.count) };

    fn slots(&self) -> u32 {
        self.count
    }

    fn are_rows(&self) -> bool {
        true
    }

    fn first(&self) -> Place {
        Place { at: 0, ones: 0 }
    }

    #[inline(always)]
    fn next(&self, place: &mut Place) -> Option<usize> {
        let row = place.at;
        place.at += 1;
        Some(row as usize)
    }
}
