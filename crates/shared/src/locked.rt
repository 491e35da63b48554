//! What lies under the lock.

ghost use Rattle.std.specs.Prelude.{◌≡◌, ◌⊎◌, ◌+◌, ◌++◌, ◌∷◌, ◌<◌, ◌≤◌, ◌^◌, [], All, IfErr, IfOk, IfSome, None, OnErr, OnOk, Some, is_some, length, sum_by};
ghost use Rattle.std.specs.Arc.{arc_value};
ghost use mathlib.Core.List.{IsPrefix};
ghost use Rattle.arrays.specs.Prelude.{field_of};
ghost use Rattle.shared.specs.Missing.{AllThere};
ghost use Rattle.shared.specs.Balance.{IsOfWorkers, ShowsKnown};
ghost use Rattle.shared.specs.Changes.{known_after};
ghost use Rattle.shared.specs.Hand.{HasAdded, HasSeen, HasWidened, IsWorkerOf, HasAllItsPairs, calls_of_hand, columns_of_hand, rows_of_hand};
ghost use Rattle.shared.specs.Known.{IsLegalKnown, known_of};
ghost use Rattle.shared.specs.Showing.{next_number};
ghost use Rattle.table.specs.Prelude.{Contents, IsCompacted, IsLegal, add_fault, admitted, batch_cause, early_cause, rows, stored_field, with_last_field};

use crate::ledgers::{Books, Shares};
use crate::lending::tell_totals;
use crate::naming::{Accepted, Added, Event, Naming};
use crate::outcome::Receipt;
use crate::seal::Seal;
use crate::shown::{Publish, Shown};
use crate::worker::{Worker, begin};
use arrays::{Field, NoMemory, RecordBatch};
use histories::{Front, Head, Noted};
use std::marker::Model;
use std::sync::{Arc, Wait};
use table::{AddFault, Ready, Refusal, TableState, Version};

/// A table with its history, the ledgers of its workers' calls, rows and columns, the version of it that was requested last, and
/// who shows versions to readers. Each time that its lock is got, what is known by the front is what the table holds, each entry of
/// its history is of one of the table's workers, the ledgers count its entries, its rows and the fields that came since it was opened, and readers are
/// shown the table.
#[derive(Drop)]
pub(crate) struct Locked<N: Naming, P: Publish<Item = Shown<N>>> {
    pub(crate) state: TableState,
    /// The last version that was requested, where nothing was added or joined since.
    pub(crate) newest: Option<Arc<Version>>,
    pub(crate) head: Head<Event, N>,
    pub(crate) front: Front<Event, N>,
    /// None where nobody reads.
    pub(crate) publisher: Option<P>,
    /// Which of those that were shown is shown.
    pub(crate) number: u64,
    pub(crate) books: Books<N>,
    /// No part of any ledger; the workers lend it theirs.
    pub(crate) nothing: Shares<N>,
}

impl<N: Naming, P: Publish<Item = Shown<N>>> Model for Locked<N, P> {
    ghost use Rattle.table.specs.Contents.{Contents, contents_code};

    ghost Value = { Contents };

    ghost coded = { contents_code };

    ghost use Rattle.std.specs.Prelude.{◌≡◌, IfSome};
    ghost use Rattle.std.specs.Arc.{arc_value};
    ghost use Rattle.shared.specs.Balance.{CountsKnown};
    ghost use Rattle.shared.specs.Changes.{known_after};

    ghost view = { λ l. l.state };

    ghost invariant = { λ l. record {
      counted : CountsKnown N.workers N.fields l.books.calls.total l.books.rows.total l.books.columns.total (known_after N.fields l.front) l.state;
      newest : IfSome l.newest (λ v. arc_value v ≡ l.state);
      shown : IfSome l.publisher (λ p. P.shows p (record { contents = l.state; number = l.number }));
      no_call_part : l.nothing.calls.parts ≡ 0;
      no_calls : l.nothing.calls.amount ≡ 0;
      no_row_part : l.nothing.rows.parts ≡ 0;
      no_rows : l.nothing.rows.amount ≡ 0;
      no_column_part : l.nothing.columns.parts ≡ 0;
      no_columns : l.nothing.columns.amount ≡ 0;
    } };
}

impl<N: Naming, P: Publish<Item = Shown<N>>> Locked<N, P> {
    /// Adds a batch of a worker, which it counts, as `TableState::admit_ready` does, and shows it to readers. The worker sees the
    /// table's fields and history, up to its own batch where it was added. After a refusal nothing else is changed.
    pub(crate) fn append<W: Wait>(
        &mut self,
        wait: &W,
        worker: &mut Worker<N>,
        batch: &RecordBatch,
        ready: Ready,
    ) -> Result<Receipt<N>, Refusal>
        requires { ready ≡ batch.now }
        ensures added { OnOk result (self.new ≡ admitted self.old worker.old.number batch.now) }
        ensures kept { OnErr result (self.new ≡ self.old) }
        ensures appended { OnOk result (HasAdded batch.now worker.old worker.new) }
        ensures receipt { IfOk result (λ r. r ≡ worker.new.seen) }
        ensures seen { OnErr result (HasSeen worker.old worker.new) }
        ensures cause { IfErr result (λ e. ((e ≡ Refusal.NoMemory) × (early_cause worker.new.seen.fields worker.new.seen.history batch.now ≡ None))
            ⊎ (batch_cause worker.new.seen.fields worker.new.seen.history batch.now ≡ Some e)) }
    {
        worker.see(wait, &self.front);
        let (entry, next) = admit(
            &mut self.state,
            self.publisher.is_some(),
            worker.number,
            ready,
        )?;
        let accepted = Accepted {
            worker: worker.number,
            batch,
        };
        add(wait, &self.head, &mut self.front, &accepted);
        self.newest = None;
        show(
            wait,
            &mut self.publisher,
            next,
            &self.front,
            &mut self.number,
        );
        worker.raise(&mut self.books, &self.front, &accepted);
        Ok(Receipt::new(entry, self.front.again()))
    }

    /// The table as it is, with its fields and its history seen by the worker.
    pub(crate) fn snapshot<W: Wait>(
        &mut self,
        wait: &W,
        worker: &mut Worker<N>,
    ) -> Result<Arc<Version>, NoMemory>
        ensures same { self.new ≡ self.old }
        ensures seen { HasSeen worker.old worker.new }
        ensures all { worker.new.seen ≡ known_of self.old }
        ensures known { IsOfWorkers N.workers self.old.history }
        ensures version { IfOk result (λ v. arc_value v ≡ self.old) }
    {
        worker.see(wait, &self.front);
        self.version()
    }

    /// Joins neighbouring batches, as `TableState::compact` does, shows that to readers, and gives the table as it is then, which
    /// is kept for the next who asks. The worker sees the table's fields and history. After a refusal nothing else is changed.
    pub(crate) fn compact<W: Wait>(
        &mut self,
        wait: &W,
        worker: &mut Worker<N>,
        max_rows: u32,
    ) -> Result<Arc<Version>, NoMemory>
        ensures compacted { OnOk result (IsCompacted max_rows self.old self.new) }
        ensures kept { OnErr result (self.new ≡ self.old) }
        ensures seen { HasSeen worker.old worker.new }
        ensures all { worker.new.seen ≡ known_of self.old }
        ensures known { IsOfWorkers N.workers self.old.history }
        ensures version { IfOk result (λ v. arc_value v ≡ self.new) }
    {
        worker.see(wait, &self.front);
        let (version, second) = self.state.compact_shown(max_rows)?;
        self.newest = version.clone().ok();
        show_version(
            wait,
            &mut self.publisher,
            second,
            &self.front,
            &mut self.number,
        );
        Ok(version)
    }

    /// Adds a column of the field, as `TableState::add_column` does, which the worker counts, and shows the table with it to
    /// readers. The worker sees the table's fields and history, with the field behind them. A refusal changes nothing.
    pub(crate) fn add_column<W: Wait>(
        &mut self,
        wait: &W,
        worker: &mut Worker<N>,
        field: &Field,
    ) -> Result<(), AddFault>
        ensures allowed { OnOk result (add_fault (field_of field.now) ≡ None) }
        ensures added { OnOk result (self.new ≡ with_last_field self.old (stored_field (field_of field.now))) }
        ensures widened { OnOk result (HasWidened (stored_field (field_of field.now)) worker.old worker.new) }
        ensures err { IfErr result (λ e. ((e ≡ AddFault.NoMemory) × (add_fault (field_of field.now) ≡ None))
            ⊎ (add_fault (field_of field.now) ≡ Some e)) }
        ensures kept { OnErr result ((self.new ≡ self.old) × (worker.new ≡ worker.old)) }
    {
        let (version, second) = self.state.add_column_shown(field)?;
        worker.see(wait, &self.front);
        add(wait, &self.head, &mut self.front, &Added { field });
        self.newest = Some(version);
        show_version(
            wait,
            &mut self.publisher,
            second,
            &self.front,
            &mut self.number,
        );
        worker.see(wait, &self.front);
        worker.count_column(&mut self.books.columns);
        Ok(())
    }

    /// The table as it is: the version that is kept, else a new one, which is kept for the next who asks.
    fn version(&mut self) -> Result<Arc<Version>, NoMemory>
        ensures same { self.new ≡ self.old }
        ensures version { IfOk result (λ v. arc_value v ≡ self.old) }
    {
        if let Some(version) = &self.newest {
            return Ok(version.clone()?);
        }
        let version = self.state.version()?;
        self.newest = Some(version.clone()?);
        Ok(version)
    }

    /// The table as it is, with all its workers there. Each has its own part of the history.
    pub(crate) fn gather<W: Wait>(
        &mut self,
        wait: &W,
        workers: &mut [Worker<N>],
    ) -> Result<Arc<Version>, NoMemory>
        requires all { AllThere N.workers workers.old }
        requires enough { N.workers ≤ length workers.old }
        ensures workers { workers.new ≡ workers.old }
        ensures same { self.new ≡ self.old }
        ensures version { IfOk result (λ v. arc_value v ≡ self.old) }
        ensures calls { length self.old.history ≡ sum_by calls_of_hand workers.old }
        ensures rows { length (rows self.old.history) ≡ sum_by rows_of_hand workers.old }
        ensures columns { length self.old.fields ≡ length N.fields + sum_by columns_of_hand workers.old }
        ensures opened { IsPrefix N.fields self.old.fields }
        ensures known { IsOfWorkers N.workers self.old.history }
        ensures legal { IsLegalKnown (known_of self.old) }
        ensures whole { All (HasAllItsPairs (known_of self.old)) workers.old }
    {
        tell_totals(&mut self.books, &mut self.nothing, workers);
        begin_all(wait, workers, &self.front);
        self.version()
    }
}

/// Returns once what each worker has seen begins what is known by the front, as it does at once where it isn't more.
fn begin_all<N: Naming, W: Wait>(wait: &W, workers: &[Worker<N>], front: &Front<Event, N>)
    ensures { All (IsWorkerOf N.workers (known_after N.fields front.now)) workers.now }
{
    for worker in workers {
        begin_worker(wait, worker, front);
    }
}

/// The same of what one worker has seen.
#[tactic(auto, using(crate::proofs::PartLemmas::part_more))]
fn begin_worker<N: Naming, W: Wait>(wait: &W, worker: &Worker<N>, front: &Front<Event, N>)
    ensures { IsWorkerOf N.workers (known_after N.fields front.now) worker.now }
{
    worker.tell();
    begin(wait, &worker.seen, front);
}

/// No history has so many changes.
const MOST_CHANGES: u64 = 1 << 62;

/// Adds an entry to all that the front has. It's tried again where the history is longer, which the lock rules out, or has as
/// many changes as none has.
fn add<X: Noted<Event>, W: Wait, N: Naming>(
    wait: &W,
    head: &Head<Event, N>,
    front: &mut Front<Event, N>,
    entry: &X,
)
    ensures added { front.new ≡ front.old ++ X.noted entry.now ∷ [] }
    ensures few { length front.old < 2 ^ 62 }
{
    for _ in wait.forever() {
        if front.len() < MOST_CHANGES && front.add(head, entry) {
            break;
        }
    }
}

/// Admits a worker's batch, with the number of its entry, and the version of the table with it where somebody can see it.
fn admit(
    state: &mut TableState,
    is_shown: bool,
    worker: u32,
    ready: Ready,
) -> Result<(u32, Option<Arc<Version>>), Refusal>
    ensures number { IfOk result (λ r. r.0 ≡ length state.old.history) }
    ensures shown { IfOk result (λ r. is_some r.1 ≡ is_shown) }
    ensures version { IfOk result (λ r. IfSome r.1 (λ v. arc_value v ≡ state.new)) }
    ensures room { OnOk result (length state.old.history < 2 ^ 32) }
    ensures allowed { OnOk result (batch_cause state.old.fields state.old.history ready ≡ None) }
    ensures added { OnOk result (state.new ≡ admitted state.old worker ready) }
    ensures err { IfErr result (λ e. ((e ≡ Refusal.NoMemory) × (early_cause state.old.fields state.old.history ready ≡ None))
        ⊎ (batch_cause state.old.fields state.old.history ready ≡ Some e)) }
    ensures kept { OnErr result (state.new ≡ state.old) }
    ensures legal { IsLegal state.new.fields state.new.history }
{
    if is_shown {
        let (entry, version) = state.admit_shown(worker, ready)?;
        Ok((entry, Some(version)))
    } else {
        let entry = state.admit_ready(worker, ready)?;
        Ok((entry, None))
    }
}

/// Shows readers a version, by the next number, where anybody shows it.
fn show_version<W: Wait, N: Naming, P: Publish<Item = Shown<N>>>(
    wait: &W,
    publisher: &mut Option<P>,
    version: Arc<Version>,
    front: &Front<Event, N>,
    number: &mut u64,
)
    requires { ShowsKnown N.workers (known_after N.fields front.now) (arc_value version) }
    ensures shown { IfSome publisher.new (λ p. P.shows p (record { contents = arc_value version; number = number.new })) }
    ensures counted { IfSome publisher.old (λ p. number.new ≡ next_number number.old) }
{
    let next = publisher.is_some().then_some(version);
    show(wait, publisher, next, front, number);
}

/// Shows readers the next version, which there is where anybody shows it, by the next number: a reader tells by it that it isn't
/// the one that it has.
fn show<W: Wait, N: Naming, P: Publish<Item = Shown<N>>>(
    wait: &W,
    publisher: &mut Option<P>,
    next: Option<Arc<Version>>,
    front: &Front<Event, N>,
    number: &mut u64,
)
    requires there { is_some next ≡ is_some publisher.old }
    requires version { IfSome next (λ v. ShowsKnown N.workers (known_after N.fields front.now) (arc_value v)) }
    ensures shown { IfSome next (λ v. IfSome publisher.new (λ p. P.shows p (record { contents = arc_value v; number = number.new }))) }
    ensures counted { IfSome publisher.old (λ p. number.new ≡ next_number number.old) }
    ensures same { is_some publisher.new ≡ is_some publisher.old }
{
    let Some(version) = next else {
        return;
    };
    if let Some(publisher) = publisher {
        *number = number.wrapping_add(1);
        let next = Shown {
            version,
            front: front.again(),
            number: *number,
        };
        publisher.show(wait, Seal, next);
    }
}
