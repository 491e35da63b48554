//! A list that one alone adds to.

ghost use Rattle.std.specs.Prelude.{◌≡◌, ◌++◌, ◌∷◌, []};

use crate::naming::Noted;
use crate::rule::Nothing;
use logbook::{Opening, Rule, Seen, Start};
use std::marker::{Model, PhantomData};

/// Entries that one alone has, in the order in which it added them.
///
/// Clauses see them.
#[derive(Drop)]
pub struct Own<E> {
    seen: Seen<E, u64, Free<E>>,
}

impl<E> Model for Own<E> {
    ghost use Rattle.std.specs.Prelude.{List};
    ghost use Rattle.std.specs.Coded.{coded_list};

    ghost Value = { List E };

    ghost coded = { coded_list E.code };

    ghost view = { λ o. o.seen.log };
}

impl<E> Own<E> {
    /// No entries.
    pub fn new() -> Own<E>
        ensures { result ≡ [] }
    {
        let (seen, _first, _second) = Seen::open(Start::alone(), 0, 0);
        Own { seen }
    }

    /// Adds an entry.
    pub fn add<X: Noted<E>>(&mut self, entry: &X)
        ensures { self.new ≡ self.old ++ X.noted entry.now ∷ [] }
    {
        let longer = Longer { own: &*self, entry };
        let (seen, _pens) = Seen::open_row::<Longer<'_, E, X>, Open>(&longer, Start::alone(), 0);
        self.seen = seen;
    }
}

/// A log that no word counts: each list of entries is a log of its own book.
struct Free<E> {
    of: PhantomData<E>,
}

impl<E> Rule<E, u64> for Free<E> {
    ghost use Rattle.std.specs.Prelude.{[]};
    ghost use base.Fml.{ftrue};

    ghost holds = { λ cells log. Unit {0} };

    ghost first = { [] };

    ghost hinted = { λ n log. Unit {0} };

    ghost shows = { λ log. [] };

    ghost keeps = { λ names log. ftrue };

    ghost moves = { λ ask before after answer. Unit {0} };
}

/// The entries with one more.
#[derive(Drop)]
struct Longer<'a, E, X> {
    own: &'a Own<E>,
    entry: &'a X,
}

/// Opens a book with such a list.
struct Open;

impl<'a, E, X: Noted<E>> Opening<Longer<'a, E, X>, E> for Open {
    ghost use Rattle.std.specs.Prelude.{◌++◌, ◌∷◌, []};

    ghost log = { λ count longer. longer.own.now ++ X.noted longer.entry.now ∷ [] };
}
