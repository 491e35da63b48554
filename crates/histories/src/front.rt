//! A beginning of a log that was seen.

ghost use Rattle.std.specs.Prelude.{◌≡◌, ◌<◌, ◌^◌, ◌++◌, ◌∷◌, [], length, MatchBool};
ghost use mathlib.Core.List.{IsPrefix};

use crate::head::Head;
use crate::naming::{Naming, Noted};
use crate::rule::{Add, Law, Nothing};
use logbook::{Offer, Seen};
use std::marker::{Model, PhantomData};

/// A beginning of the log that was seen. It can't be made up, is copied at will, and goes to any thread.
///
/// Clauses see its entries.
#[derive(Drop)]
pub struct Front<E, N: Naming> {
    count: u64,
    seen: Seen<E, u64, Law<E>>,
    of: PhantomData<N>,
}

impl<E, N: Naming> Model for Front<E, N> {
    ghost use Rattle.std.specs.Prelude.{List};
    ghost use Rattle.std.specs.Coded.{coded_list};

    ghost Value = { List E };

    ghost coded = { coded_list E.code };

    ghost use Rattle.std.specs.Prelude.{◌≡◌, length};

    ghost view = { λ f. f.seen.log };

    ghost invariant = { λ f. record { count : f.count ≡ length f.seen.log; book : f.seen.book ≡ N.book } };
}

impl<E, N: Naming> Front<E, N> {
    /// The front of a log that has no entries.
    pub(crate) fn first(seen: Seen<E, u64, Law<E>>) -> Front<E, N>
        requires { (seen.log ≡ []) × (seen.book ≡ N.book) }
        ensures { result ≡ [] }
    {
        Front {
            count: 0,
            seen,
            of: PhantomData,
        }
    }

    /// How many entries it has.
    pub fn len(&self) -> u64
        ensures { result ≡ length self.now }
    {
        self.count
    }

    /// A copy.
    pub fn again(&self) -> Front<E, N>
        ensures { result ≡ self.now }
    {
        Front {
            count: self.count,
            seen: self.seen.again(),
            of: PhantomData,
        }
    }

    /// Whether it begins the other: of two fronts of one log the shorter one does.
    pub fn begins(&self, other: &Front<E, N>) -> bool
        ensures { MatchBool result (IsPrefix self.now other.now) (length other.now < length self.now) }
    {
        let mut both = self.seen.again();
        both.learn(&other.seen);
        if other.count < self.count {
            return false;
        }
        true
    }

    /// Adds an entry behind all that was seen, and says whether it did. It does nothing where the log is longer.
    pub fn add<X: Noted<E>>(&mut self, head: &Head<E, N>, entry: &X) -> bool
        requires { length self.old < 2 ^ 62 }
        ensures { MatchBool result (self.new ≡ self.old ++ X.noted entry.now ∷ []) (self.new ≡ self.old) }
    {
        let mut seen = self.seen.again();
        let mut offer: Offer<E, u64, Law<E>, Nothing> = seen.plain::<Nothing, X, Add>(entry);
        let mut pen = seen.no_pen();
        let count = self.count;
        let found = head
            .word
            .compare_exchange::<Add, Nothing>(count, count + 1, &mut seen, &mut offer, &mut pen);
        if found != count {
            return false;
        }
        self.count = count + 1;
        self.seen = seen;
        true
    }
}
