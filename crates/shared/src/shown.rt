//! What readers are shown, and who shows it.

ghost use Rattle.std.specs.Prelude.{◌≡◌, ◌++◌, ◌∷◌, [], IfOk, fold};
ghost use Rattle.left_right.specs.Handles.{pending, published};
ghost use Rattle.std.specs.Arc.{arc_value};
ghost use Rattle.shared.specs.Balance.{ShowsKnown};
ghost use Rattle.shared.specs.Changes.{known_after};
ghost use Rattle.shared.specs.Showing.{Showing};

use crate::naming::{Event, Naming};
use crate::seal::Seal;
use arrays::NoMemory;
use histories::Front;
use left_right::{Absorb, WriteHandle};
use std::alloc::{AllocError, Global};
use std::marker::Model;
use std::sync::{Arc, Wait};
use table::Version;

/// A version with the changes up to it. No value of it leaves this crate.
///
/// Clauses see the version and its number.
#[derive(Drop)]
pub struct Shown<N: Naming> {
    pub(crate) version: Arc<Version>,
    pub(crate) front: Front<Event, N>,
    /// Which of those that were shown it is, counted from 0. It tells it from another with the same history.
    pub(crate) number: u64,
}

impl<N: Naming> Model for Shown<N> {
    ghost use Rattle.shared.specs.Showing.{Showing, showing_code};

    ghost Value = { Showing };

    ghost coded = { showing_code };

    ghost use Rattle.std.specs.Arc.{arc_value};
    ghost use Rattle.shared.specs.Balance.{ShowsKnown};
    ghost use Rattle.shared.specs.Changes.{known_after};

    ghost view = { λ s. record { contents = arc_value s.version; number = s.number } };

    ghost invariant = { λ s. ShowsKnown N.workers (known_after N.fields s.front) (arc_value s.version) };
}

impl<N: Naming> Shown<N> {
    /// A copy of a version with the changes up to it, of this number.
    pub(crate) fn new(
        version: &Arc<Version>,
        front: &Front<Event, N>,
        number: u64,
    ) -> Result<Shown<N>, AllocError>
        requires { ShowsKnown N.workers (known_after N.fields front.now) (arc_value version.now) }
        ensures { IfOk result (λ s. s ≡ record { contents = arc_value version.now; number = number }) }
    {
        let version = version.clone()?;
        Ok(Shown {
            version,
            front: front.again(),
            number,
        })
    }

    /// The same by an `Arc` of its own, so that those who copy it don't wait for each other's counts; where there is no
    /// memory for one, by the `Arc` that it has.
    pub(crate) fn apart(self, alloc: Global) -> Result<Shown<N>, NoMemory>
        ensures { IfOk result (λ s. s ≡ self) }
    {
        let Shown {
            version,
            front,
            number,
        } = self;
        let own = Arc::new(alloc, version.share()?);
        Ok(Shown {
            version: own.unwrap_or(version),
            front,
            number,
        })
    }
}

impl<N: Naming> Absorb<Shown<N>> for Shown<N> {
    type State = Shown<N>;

    ghost state = { λ s. s };

    ghost applied = { λ before next. next };

    fn absorb_first(&mut self, operation: &Shown<N>, _other: &Shown<N>) -> Result<(), AllocError> {
        *self = Shown::new(&operation.version, &operation.front, operation.number)?;
        Ok(())
    }
}

/// Who shows values to readers, one after the other. No other crate can implement it, nor have a value shown: it would have to
/// name a `Seal`.
pub trait Publish: Drop {
    type Item;

    /// What is shown.
    ghost shows: { Self → Self.Item → Type 0 };

    /// Shows the next value. It waits for readers of the one before the last.
    fn show<W: Wait>(&mut self, wait: &W, seal: Seal, next: Self::Item)
        ensures { shows self.new next };
}

/// The writer of a pair whose readers never wait.
pub type Publisher<N, R> = WriteHandle<Shown<N>, Shown<N>, R>;

/// What is shown is the last value applied to one before, and nothing waits to be shown.
impl<T: Absorb<T> + Drop, R: Wait + Drop> Publish for WriteHandle<T, T, R> {
    type Item = T;

    ghost use Rattle.std.specs.Prelude.{◌≡◌, []};
    ghost use Rattle.left_right.specs.Handles.{pending, published};

    ghost shows = { λ w x. ((before : T.State) × (T.state (published w) ≡ T.applied before x)) × (pending w ≡ []) };

    fn show<W: Wait>(&mut self, wait: &W, _seal: Seal, next: T)
        ensures applied { (before : T.State) × (T.state (published self.new) ≡ T.applied before next) }
        ensures nothing { pending self.new ≡ [] }
    {
        push(wait, self, next);
        publish_all(wait, self);
    }
}

/// Has the next value wait to be shown. It's tried again where its place was refused.
fn push<T: Absorb<T> + Drop, R: Wait + Drop, W: Wait>(
    wait: &W,
    publisher: &mut WriteHandle<T, T, R>,
    next: T,
)
    ensures { pending publisher.new ≡ pending publisher.old ++ next ∷ [] }
{
    let mut waiting = next;
    for _ in wait.forever() {
        match publisher.append(waiting) {
            Ok(()) => break,
            Err(again) => waiting = again,
        }
    }
}

/// Shows all that waits to be shown. It's tried again where a growth was refused.
fn publish_all<T: Absorb<T> + Drop, R: Wait + Drop, W: Wait>(
    wait: &W,
    publisher: &mut WriteHandle<T, T, R>,
)
    ensures shown { T.state (published publisher.new) ≡ fold T.applied (T.state (published publisher.old)) (pending publisher.old) }
    ensures nothing { pending publisher.new ≡ [] }
{
    for _ in wait.forever() {
        if publisher.publish().is_ok() {
            break;
        }
    }
}
