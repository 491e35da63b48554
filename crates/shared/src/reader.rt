//! Those who read a table without waiting for anyone.

ghost use Rattle.std.specs.Prelude.{◌≡◌, ◌⊎◌, IfOk, OnErr};
ghost use Rattle.std.specs.Arc.{arc_value};
ghost use Rattle.shared.specs.Balance.{IsOfWorkers};
ghost use Rattle.shared.specs.Changes.{known_after};
ghost use Rattle.shared.specs.Known.{IsBeginning, IsLegalKnown, known_of};

use crate::naming::{Event, Naming};
use crate::outcome::Receipt;
use crate::shown::Shown;
use arrays::NoMemory;
use histories::Front;
use left_right::ReadHandle;
use std::alloc::Global;
use std::marker::Model;
use std::sync::Arc;
use table::Version;

/// One of those who read a table, each in a thread of its own. It takes no lock and waits for nobody.
///
/// Clauses see the fields and the history that it knows: the most of what it has seen or was given a receipt of, which the rest begins.
#[derive(Drop)]
pub struct Reader<N: Naming> {
    alloc: Global,
    handle: ReadHandle<Shown<N>>,
    known: Front<Event, N>,
    /// What it saw last.
    own: Option<Shown<N>>,
}

impl<N: Naming> Model for Reader<N> {
    ghost use Rattle.shared.specs.Changes.{known_after};
    ghost use Rattle.shared.specs.Known.{Known, known_code};

    ghost Value = { Known };

    ghost coded = { known_code };

    ghost view = { λ r. known_after N.fields r.known };
}

impl<N: Naming> Reader<N> {
    /// A reader that knows what the front tells.
    pub(crate) fn new(
        alloc: Global,
        handle: ReadHandle<Shown<N>>,
        known: Front<Event, N>,
    ) -> Reader<N>
        ensures { result ≡ known_after N.fields known }
    {
        Reader {
            alloc,
            handle,
            known,
            own: None,
        }
    }

    /// A version of the table that shows all that the reader knows; then it knows the version's fields and history. The reader
    /// keeps the version, and gives it again until there is a newer one.
    ///
    /// # Errors
    /// `NoMemory` where the copy of the version was refused, and where the table has ended. What is known stays.
    pub fn latest(&mut self) -> Result<Arc<Version>, NoMemory>
        ensures begun { IfOk result (λ v. IsBeginning self.old (known_of (arc_value v))) }
        ensures known { IfOk result (λ v. self.new ≡ known_of (arc_value v)) }
        ensures legal { IfOk result (λ v. IsLegalKnown (known_of (arc_value v))) }
        ensures workers { IfOk result (λ v. IsOfWorkers N.workers (arc_value v).history) }
        ensures kept { OnErr result (self.new ≡ self.old) }
    {
        self.look()?;
        let Some(own) = &self.own else {
            return Err(NoMemory);
        };
        // What is published never falls behind what a reader was given a receipt of, but only the rule of the pair knows that.
        if !self.known.begins(&own.front) {
            return Err(NoMemory);
        }
        let version = own.version.clone()?;
        let _rows = version.rows();
        self.known = own.front.again();
        Ok(version)
    }

    /// Learns of a batch that was appended: versions show it from now on.
    pub fn learn(&mut self, receipt: &Receipt<N>)
        ensures old { IsBeginning self.old self.new }
        ensures reported { IsBeginning receipt.now self.new }
        ensures one { (self.new ≡ self.old) ⊎ (self.new ≡ receipt.now) }
    {
        if self.known.begins(&receipt.front) {
            self.known = receipt.front.again();
        } else {
            let _begins = receipt.front.begins(&self.known);
        }
    }

    /// Has what is shown as its own, where it's another than the one that it has.
    ///
    /// # Errors
    /// `NoMemory` where the copy of the version was refused, and where the table has ended.
    fn look(&mut self) -> Result<(), NoMemory>
        ensures { self.new ≡ self.old }
    {
        let Some(guard) = self.handle.enter() else {
            return Err(NoMemory);
        };
        if is_own(&self.own, guard.number) {
            return Ok(());
        }
        let shown = Shown::new(&guard.version, &guard.front, guard.number)?;
        drop(guard);
        self.own = Some(shown.apart(self.alloc)?);
        Ok(())
    }
}

/// Whether a reader has what was shown with this number already.
fn is_own<N: Naming>(own: &Option<Shown<N>>, number: u64) -> bool {
    match own {
        Some(own) => own.number == number,
        None => false,
    }
}
