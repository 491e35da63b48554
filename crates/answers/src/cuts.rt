//! Where the rows are cut into pieces.

ghost use Rattle.std.specs.Prelude.{◌≡◌, ◌≤◌, ◌^◌};
ghost use Rattle.answers.specs.Pieces.{cut_at};

/// Into how many neighbouring pieces so many rows are cut.
#[derive(Clone, Copy, Debug)]
pub(crate) struct Cuts {
    pub(crate) rows: u64,
    pub(crate) pieces: u32,
}

impl Cuts {
    /// The first row of a piece; at the place behind the last piece, how many rows there are.
    pub(crate) fn at(self, place: u32) -> u64
        requires few { self.rows ≤ 2 ^ 40 }
        requires most { place ≤ 64 }
        requires one { 1 ≤ self.pieces }
        ensures { result ≡ cut_at self.rows self.pieces place }
    {
        let scaled = self.rows * u64::from(place);
        scaled / u64::from(self.pieces)
    }
}
