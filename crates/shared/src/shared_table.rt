//! A table under its lock.

ghost use Rattle.std.specs.Prelude.{◌≡◌, ◌⊎◌, ◌+◌, ◌≤◌, [], All, IfErr, IfOk, IfSome, None, OnErr, OnOk, Some, length, sum_by};
ghost use Rattle.std.specs.Arc.{arc_value};
ghost use mathlib.Core.List.{IsPrefix};
ghost use Rattle.arrays.specs.Prelude.{field_of};
ghost use Rattle.table.specs.Prelude.{AreApart, add_fault, batch_cause, rows, stored_field};
ghost use Rattle.shared.specs.Balance.{IsOfWorkers};
ghost use Rattle.shared.specs.Gathered.{Stands};
ghost use Rattle.shared.specs.Hand.{HasAdded, HasSeen, HasWidened, HasAddedNothing, IsRaised, HasAllItsPairs, calls_of_hand, columns_of_hand, rows_of_hand};
ghost use Rattle.shared.specs.Known.{IsLegalKnown, known_of};
ghost use Rattle.shared.specs.Missing.{AllThere};

use crate::fault::{GatherCause, GatherFault};
use crate::ledgers::{Books, Shares};
use crate::locked::Locked;
use crate::missing::first_missing;
use crate::naming::{Event, Naming};
use crate::outcome::Receipt;
use crate::shown::{Publish, Shown};
use crate::worker::Worker;
use arrays::{Field, NoMemory, RecordBatch};
use histories::{Front, Head};
use std::alloc::Global;
use std::marker::Model;
use std::sync::{Arc, Mutex, Wait};
use table::{AddFault, Ready, Refusal, TableState, Version};

/// A table that its workers append to, each in a thread of its own, and that its readers read. Worker, reader and table are of
/// one call of `open`.
///
/// Clauses see how many workers it has.
#[derive(Drop)]
pub struct SharedTable<N: Naming, P: Publish<Item = Shown<N>>> {
    alloc: Global,
    lock: Mutex<Locked<N, P>>,
    workers: u32,
}

impl<N: Naming, P: Publish<Item = Shown<N>>> Model for SharedTable<N, P> {
    ghost use Rattle.std.specs.Prelude.{◌≡◌, ℕ};

    ghost Value = { ℕ };

    ghost view = { λ t. t.workers };

    ghost invariant = { λ t. t.workers ≡ N.workers };
}

/// All that was appended to a table, and the workers that did.
#[derive(Drop)]
pub struct Gathered<N: Naming> {
    pub version: Arc<Version>,
    pub workers: Vec<Worker<N>>,
}

impl<N: Naming, P: Publish<Item = Shown<N>>> SharedTable<N, P> {
    /// A table that nothing was appended to, with its history, its ledgers' books, and what is left of their shares.
    pub(crate) fn new(
        alloc: Global,
        state: TableState,
        history: (Head<Event, N>, Front<Event, N>),
        publisher: Option<P>,
        ledgers: (Books<N>, Shares<N>),
        workers: u32,
    ) -> SharedTable<N, P>
        requires empty { (state.history ≡ []) × (history.1 ≡ []) }
        requires fields { state.fields ≡ N.fields }
        requires shown { IfSome publisher (λ p. P.shows p (record { contents = state; number = 0 })) }
        requires totals { (ledgers.0.calls.total ≡ 0) × (ledgers.0.rows.total ≡ 0) × (ledgers.0.columns.total ≡ 0) }
        requires no_parts { (ledgers.1.calls.parts ≡ 0) × (ledgers.1.rows.parts ≡ 0) × (ledgers.1.columns.parts ≡ 0) }
        requires no_amounts { (ledgers.1.calls.amount ≡ 0) × (ledgers.1.rows.amount ≡ 0) × (ledgers.1.columns.amount ≡ 0) }
        requires workers { workers ≡ N.workers }
        ensures { result ≡ workers }
    {
        let (head, front) = history;
        let (books, nothing) = ledgers;
        let locked = Locked {
            state,
            newest: None,
            head,
            front,
            publisher,
            number: 0,
            books,
            nothing,
        };
        SharedTable {
            alloc,
            lock: Mutex::new(locked),
            workers,
        }
    }

    /// Adds a batch of the worker, as `TableState::admit` does, while no other worker does, and shows it to the readers. What
    /// can be made of the batch alone is made before; want of memory that is met there is reported whatever else stands against the
    /// batch. The worker sees the table's fields, and its history up to its batch; after a refusal it sees those that the batch
    /// was refused after, and the table and what the worker appended are as they were.
    pub fn append<W: Wait>(
        &self,
        wait: &W,
        worker: &mut Worker<N>,
        batch: &RecordBatch,
    ) -> Result<Receipt<N>, Refusal>
        ensures raised { OnOk result (IsRaised batch.now.rows worker.old worker.new) }
        ensures kept { OnErr result (HasAddedNothing worker.old worker.new) }
        ensures added { OnOk result (HasAdded batch.now worker.old worker.new) }
        ensures receipt { IfOk result (λ r. r ≡ worker.new.seen) }
        ensures seen { OnErr result (HasSeen worker.old worker.new) }
        ensures cause { IfErr result (λ e. (e ≡ Refusal.NoMemory) ⊎ (batch_cause worker.new.seen.fields worker.new.seen.history batch.now ≡ Some e)) }
    {
        worker.tell();
        let ready = Ready::new(self.alloc, batch)?;
        self.lock.lock(wait).append(wait, worker, batch, ready)
    }

    /// The table as it is when the lock is got, whose fields and history the worker then has seen, where memory is refused too.
    /// Where nothing was appended or joined since the last one, it's the same version.
    pub fn snapshot<W: Wait>(
        &self,
        wait: &W,
        worker: &mut Worker<N>,
    ) -> Result<Arc<Version>, NoMemory>
        ensures kept { HasAddedNothing worker.old worker.new }
        ensures seen { HasSeen worker.old worker.new }
        ensures all { IfOk result (λ v. known_of (arc_value v) ≡ worker.new.seen) }
        ensures known { IfOk result (λ v. IsOfWorkers self.now (arc_value v).history) }
    {
        self.lock.lock(wait).snapshot(wait, worker)
    }

    /// Joins neighbouring batches, as `TableState::compact` does, while no worker appends, and shows that to the readers. Nothing is
    /// added: the history, the book and what each worker appended stay. The worker sees the fields and the history that the table
    /// has when the lock is got, where memory is refused too; then the table is as it was.
    pub fn compact<W: Wait>(
        &self,
        wait: &W,
        worker: &mut Worker<N>,
        max_rows: u32,
    ) -> Result<Arc<Version>, NoMemory>
        ensures kept { HasAddedNothing worker.old worker.new }
        ensures seen { HasSeen worker.old worker.new }
        ensures all { IfOk result (λ v. known_of (arc_value v) ≡ worker.new.seen) }
        ensures known { IfOk result (λ v. IsOfWorkers self.now (arc_value v).history) }
        ensures apart { IfOk result (λ v. AreApart (arc_value v).fields max_rows (arc_value v).batches) }
    {
        self.lock.lock(wait).compact(wait, worker, max_rows)
    }

    /// Adds a column of the field behind the others, as `TableState::add_column` does, while no worker appends, and shows that to
    /// the readers. Versions that were handed out stay as they are. The worker sees the table's fields, the new one as it is
    /// stored behind them, and its history, whose rows end with null there; its rows and calls stay. A batch of the fields before
    /// is refused from then on. A refusal changes nothing, and leaves the worker as it was.
    pub fn add_column<W: Wait>(
        &self,
        wait: &W,
        worker: &mut Worker<N>,
        field: Field,
    ) -> Result<(), AddFault>
        ensures allowed { OnOk result (add_fault (field_of field) ≡ None) }
        ensures added { OnOk result (HasWidened (stored_field (field_of field)) worker.old worker.new) }
        ensures same { OnOk result ((calls_of_hand worker.new ≡ calls_of_hand worker.old) × (rows_of_hand worker.new ≡ rows_of_hand worker.old)) }
        ensures err { IfErr result (λ e. ((e ≡ AddFault.NoMemory) × (add_fault (field_of field) ≡ None))
            ⊎ (add_fault (field_of field) ≡ Some e)) }
        ensures kept { OnErr result (worker.new ≡ worker.old) }
    {
        self.lock.lock(wait).add_column(wait, worker, &field)
    }

    /// Ends the table, and gives all that was appended to it, where all its workers are handed in.
    ///
    /// # Errors
    /// `WorkerMissing` with the least number that none of the workers has; `NoMemory` where a growth was refused. Both give
    /// table and workers back.
    pub fn gather<W: Wait>(
        self,
        wait: &W,
        workers: Vec<Worker<N>>,
    ) -> Result<Gathered<N>, GatherFault<N, P>>
        ensures workers { IfOk result (λ g. g.workers.items ≡ workers.items) }
        ensures all { OnOk result (AllThere self workers.items) }
        ensures calls { IfOk result (λ g. length (arc_value g.version).history ≡ sum_by calls_of_hand workers.items) }
        ensures rows { IfOk result (λ g. length (rows (arc_value g.version).history) ≡ sum_by rows_of_hand workers.items) }
        ensures whole { IfOk result (λ g. All (HasAllItsPairs (known_of (arc_value g.version))) workers.items) }
        ensures known { IfOk result (λ g. IsOfWorkers self (arc_value g.version).history) }
        ensures legal { IfOk result (λ g. IsLegalKnown (known_of (arc_value g.version))) }
        ensures columns { IfOk result (λ g. length (arc_value g.version).fields ≡ length N.fields + sum_by columns_of_hand workers.items) }
        ensures opened { IfOk result (λ g. IsPrefix N.fields (arc_value g.version).fields) }
        ensures err { IfErr result (λ f. Stands f.cause self workers.items) }
        ensures back { IfErr result (λ f. (f.table ≡ self) × (f.workers.items ≡ workers.items)) }
    {
        if let Some(number) = first_missing(&workers, self.workers) {
            return Err(GatherFault {
                cause: GatherCause::WorkerMissing { number },
                table: self,
                workers,
            });
        }
        let mut workers = workers;
        match self.all_of(wait, &mut workers) {
            Ok(version) => Ok(Gathered { version, workers }),
            Err(NoMemory) => Err(GatherFault {
                cause: GatherCause::NoMemory,
                table: self,
                workers,
            }),
        }
    }

    /// Ends the table. It waits for readers that have just taken a version, takes no memory, and answers always.
    pub fn close<W: Wait>(self, _wait: &W) {
        drop(self);
    }

    /// The table as it is when the lock is got, where all its workers are there.
    fn all_of<W: Wait>(&self, wait: &W, workers: &mut [Worker<N>]) -> Result<Arc<Version>, NoMemory>
        requires all { AllThere self.now workers.old }
        requires enough { self.now ≤ length workers.old }
        ensures workers { workers.new ≡ workers.old }
        ensures calls { IfOk result (λ v. length (arc_value v).history ≡ sum_by calls_of_hand workers.old) }
        ensures rows { IfOk result (λ v. length (rows (arc_value v).history) ≡ sum_by rows_of_hand workers.old) }
        ensures whole { IfOk result (λ v. All (HasAllItsPairs (known_of (arc_value v))) workers.old) }
        ensures known { IfOk result (λ v. IsOfWorkers self.now (arc_value v).history) }
        ensures legal { IfOk result (λ v. IsLegalKnown (known_of (arc_value v))) }
        ensures columns { IfOk result (λ v. length (arc_value v).fields ≡ length N.fields + sum_by columns_of_hand workers.old) }
        ensures opened { IfOk result (λ v. IsPrefix N.fields (arc_value v).fields) }
    {
        self.lock.lock(wait).gather(wait, workers)
    }
}
