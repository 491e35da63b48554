//! Why an expression has no values.

ghost use Rattle.std.specs.Prelude.{◌≡◌};
ghost use Rattle.evaluate.specs.declared.stop.Stop.TheVariants as stops;

use arrays::NoMemory;

/// Why an expression has no values at some rows.
#[derive(Clone, Copy, Debug, PartialEq, Eq)]
pub enum Stop {
    /// It is bad at this row: an arithmetic part is outside its type there.
    Bad(usize),
    /// A growth was refused.
    NoMemory,
}

impl From<NoMemory> for Stop {
    ghost from_gives = { λ _ e. e ≡ stops.NoMemory };

    fn from(_: NoMemory) -> Stop {
        Stop::NoMemory
    }
}
