//! Ends over memory: they tell their bytes, and fail where they are meant to.
ghost use Rattle.std.specs.Prelude.{◌≡◌, ◌↔◌, IsTrue};
ghost use Rattle.ends.specs.Memory.{FailsNext, after_call};

mod sink;
mod source;

pub use sink::MemorySink;
pub use source::MemorySource;

/// Which call of an end over memory fails.
#[derive(Clone, Copy, Debug, PartialEq, Eq)]
pub enum Plan {
    /// None does.
    Never,
    /// The one with this many calls before it, and no other.
    At(u64),
}

impl Plan {
    /// Whether the next call fails. That call is then behind.
    pub fn fails_next(&mut self) -> bool
        ensures fails { IsTrue result ↔ FailsNext self.old }
        ensures after { self.new ≡ after_call self.old }
    {
        match *self {
            Plan::Never => false,
            Plan::At(0) => {
                *self = Plan::Never;
                true
            }
            Plan::At(before) => {
                *self = Plan::At(before - 1);
                false
            }
        }
    }
}
