//! How a worker's batch comes into the table.

ghost use Rattle.std.specs.Prelude.{◌≡◌, IfErr, IfOk, OnErr, OnOk};
ghost use Rattle.loads.specs.Loaded.{StandsFor};
ghost use Rattle.shared.specs.Hand.{HasAdded, HasAddedNothing, HasSeen, IsRaised};

use arrays::RecordBatch;
use crews::Gate;
use shared::{Naming, Publish, Receipt, Refusal, SharedTable, Shown, Worker};
use std::sync::Wait;

/// What takes the batches of workers.
pub(crate) trait Append<N: Naming> {
    /// Takes a batch of the worker at a place, whose append number `call` it is. After a refusal the worker has seen more at
    /// the most.
    fn append(
        &self,
        place: usize,
        call: u32,
        worker: &mut Worker<N>,
        batch: &RecordBatch,
    ) -> Result<Receipt<N>, Refusal>
        ensures raised { OnOk result (IsRaised batch.now.rows worker.old worker.new) }
        ensures added { OnOk result (HasAdded batch.now worker.old worker.new) }
        ensures receipt { IfOk result (λ r. r ≡ worker.new.seen) }
        ensures kept { OnErr result (HasAddedNothing worker.old worker.new) }
        ensures seen { OnErr result (HasSeen worker.old worker.new) }
        ensures cause { IfErr result (StandsFor worker.new.seen batch.now) };
}

/// A table behind a gate.
#[derive(Drop)]
pub(crate) struct Gated<'a, N: Naming, P: Publish<Item = Shown<N>>, W: Wait, G: Gate> {
    pub(crate) wait: &'a W,
    pub(crate) table: &'a SharedTable<N, P>,
    pub(crate) gate: &'a G,
}

impl<'a, N: Naming, P: Publish<Item = Shown<N>>, W: Wait, G: Gate> Append<N>
    for Gated<'a, N, P, W, G> {
    /// A place over 2^32 - 1 is that number to the gate.
    fn append(
        &self,
        place: usize,
        call: u32,
        worker: &mut Worker<N>,
        batch: &RecordBatch,
    ) -> Result<Receipt<N>, Refusal> {
        let place = u32::try_from(place).unwrap_or(u32::MAX);
        self.gate.pass(place, call);
        self.table.append(self.wait, worker, batch)
    }
}
