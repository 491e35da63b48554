//! What each of several values does.

ghost use Rattle.std.specs.Prelude.{◌<◌, ℕ};

/// What values do, each at its place. Whoever runs it sees one thing alone, so that it may be shown for that thing that several
/// threads may see it.
pub trait Task<H> {
    /// How many values there are.
    ghost count: { Self → ℕ };

    /// What the value at a place makes of itself.
    ghost does: { Self → ℕ → H → H → Type 0 };

    /// Done by the value at a place.
    fn work(&self, place: usize, hand: &mut H)
        requires { place < count self.now }
        ensures { does self.now place hand.old hand.new };
}
