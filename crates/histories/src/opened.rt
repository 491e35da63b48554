//! How a log begins.

ghost use Rattle.std.specs.Prelude.{◌≡◌, []};

use crate::front::Front;
use crate::head::Head;
use crate::naming::Naming;
use crate::rule::Law;
use logbook::{Seen, Start, Word};
use std::marker::{Model, PhantomData};

/// A log without entries that has no name yet.
///
/// Clauses see the log's book, which its name will be of.
#[derive(Drop)]
pub struct Opened<E> {
    word: Word<E, u64, Law<E>>,
    seen: Seen<E, u64, Law<E>>,
}

impl<E> Model for Opened<E> {
    ghost use Rattle.logbook.specs.Pages.{Book, book_coded};

    ghost Value = { Book };

    ghost coded = { book_coded };

    ghost use Rattle.std.specs.Prelude.{◌≡◌, []};
    ghost use Rattle.histories.specs.Rule.{head_of};

    ghost view = { λ o. o.seen.book };

    ghost invariant = { λ o. (o.seen.log ≡ []) × (o.word ≡ head_of o.seen.book) };
}

impl<E> Opened<E> {
    /// A new log.
    pub fn new() -> Opened<E> {
        let (seen, mut first, _second) = Seen::open(Start::alone(), 0, 0);
        Opened {
            word: Word::tracked(0, &mut first),
            seen,
        }
    }

    /// The log under its name: its head, and the front that has seen nothing.
    pub fn named<N: Naming>(self) -> (Head<E, N>, Front<E, N>)
        requires { self ≡ N.book }
        ensures { result.1 ≡ [] }
    {
        let Opened { word, seen } = self;
        let head = Head {
            word,
            of: PhantomData,
        };
        (head, Front::first(seen))
    }
}
