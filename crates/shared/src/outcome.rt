//! What a worker learns of its batches, and what it leaves of them.

ghost use Rattle.std.specs.Prelude.{◌≡◌, ◌+◌, length, option_map};
ghost use Rattle.shared.specs.Changes.{known_after};

use crate::naming::{Event, Naming};
use histories::Front;
use std::marker::Model;
use table::Refusal;

/// That a batch was appended.
///
/// Clauses see the table's fields, and its history up to the batch, which is its last entry.
#[derive(Drop)]
pub struct Receipt<N: Naming> {
    entry: u32,
    pub(crate) front: Front<Event, N>,
}

impl<N: Naming> Model for Receipt<N> {
    ghost use Rattle.shared.specs.Changes.{known_after};
    ghost use Rattle.shared.specs.Known.{Known, known_code};

    ghost Value = { Known };

    ghost coded = { known_code };

    ghost use Rattle.std.specs.Prelude.{◌≡◌, ◌+◌, length};

    ghost view = { λ r. known_after N.fields r.front };

    ghost invariant = { λ r. r.entry + 1 ≡ length (known_after N.fields r.front).history };
}

impl<N: Naming> Receipt<N> {
    /// The receipt of the last entry of a history, which has the number.
    pub(crate) fn new(entry: u32, front: Front<Event, N>) -> Receipt<N>
        requires { entry + 1 ≡ length (known_after N.fields front).history }
        ensures { result ≡ known_after N.fields front }
    {
        Receipt { entry, front }
    }

    /// The number of its entry in the book, from 0.
    pub fn entry(&self) -> u32
        ensures { result + 1 ≡ length self.now.history }
    {
        self.entry
    }

    /// A copy.
    pub fn again(&self) -> Receipt<N>
        ensures { result ≡ self.now }
    {
        Receipt::new(self.entry, self.front.again())
    }
}

/// How far a worker came through its files.
///
/// Clauses see both fields.
#[derive(Drop)]
pub struct Outcome<N: Naming> {
    last: Option<Receipt<N>>,
    stop: Option<(usize, usize, Refusal)>,
}

impl<N: Naming> Model for Outcome<N> {
    ghost use Rattle.shared.specs.Left.{Left, left_code};

    ghost Value = { Left };

    ghost coded = { left_code };

    ghost view = { λ o. record { last = o.last; stop = o.stop } };
}

impl<N: Naming> Outcome<N> {
    /// The receipt of the last batch that it appended, and the file, the batch in it and the refusal that stopped it.
    pub fn new(last: Option<Receipt<N>>, stop: Option<(usize, usize, Refusal)>) -> Outcome<N>
        ensures { result ≡ record { last = last; stop = stop } }
    {
        Outcome { last, stop }
    }

    /// The file, the batch in it and the refusal that stopped it.
    pub fn stop(&self) -> Option<(usize, usize, Refusal)>
        ensures { result ≡ self.now.stop }
    {
        self.stop
    }

    /// The receipt of the last batch that it appended.
    pub fn last(&self) -> Option<&Receipt<N>>
        ensures { option_map (λ r. r.now) result ≡ self.now.last }
    {
        match &self.last {
            Some(receipt) => Some(receipt),
            None => None,
        }
    }

    /// Both fields.
    pub fn into_parts(self) -> (Option<Receipt<N>>, Option<(usize, usize, Refusal)>)
        ensures { (result.0 ≡ self.last) × (result.1 ≡ self.stop) }
    {
        let Outcome { last, stop } = self;
        (last, stop)
    }
}
