//! The columns of a snapshot, lent.
ghost use Rattle.std.specs.Prelude.{◌≡◌, ◌≢◌, ◌≤◌, ◌⊎◌, [], IfErr, IfOk, length};
ghost use Rattle.intake.specs.Prelude.{LendsFields};
ghost use Rattle.selqumar.specs.Handle.{Asks, OfOpen, snapshot_in};
ghost use Rattle.selqumar.specs.Lent.{IsLent, IsLentOf};
ghost use Rattle.selqumar.specs.Status.{HasNoRoom, IsClosed, IsGiven, IsKept, Leaves, Never};

use crate::handle::Handle;
use crate::of_open;
use crate::status::{GIVEN, NO_BATCH, NO_MEMORY, put_items};
use arrays::NoMemory;
use embed::Snapshot;
use intake::{Node, fields_of, nodes_of};
use std::alloc::Global;

/// Lends the columns of a batch as nodes over the very bytes of the table: they stand as long as the snapshot is left alone. `rows` is how
/// many rows they have, `needed` how many nodes there are.
#[unsafe(no_mangle)]
pub extern "C" fn selqumar_lend<'a>(
    alloc: Global,
    snapshot: &'a mut Handle,
    batch: usize,
    rows: &mut u32,
    nodes: &mut [Node<'a>],
    needed: &mut usize,
) -> u32
    ensures status { (result ≤ 5) × (result ≢ 1) }
    ensures lent { result ≡ 0 → IsGiven (λ lent. OfOpen (IsLent batch rows.new lent) (snapshot_in snapshot.old.slot.pointee)) nodes.old nodes.new needed.new }
    ensures short { result ≡ 2 → HasNoRoom (λ lent. OfOpen (IsLentOf batch lent) (snapshot_in snapshot.old.slot.pointee)) nodes.old nodes.new needed.new }
    ensures memory { result ≡ 3 → IsKept nodes.old nodes.new needed.old needed.new }
    ensures closed { IsClosed (snapshot_in snapshot.old.slot.pointee) result nodes.old nodes.new needed.old needed.new }
    ensures past { result ≡ 5 → OfOpen (λ s. length s.batches ≤ batch) (snapshot_in snapshot.old.slot.pointee) × IsKept nodes.old nodes.new needed.old needed.new }
    ensures rows { result ≢ 0 → rows.new ≡ rows.old }
{
    of_open!(snapshot, Snapshot(given) => lend(alloc, given, batch, rows, nodes, needed))
}

/// Lends the columns of a batch of a snapshot, and answers the status.
fn lend<'a>(
    alloc: Global,
    snapshot: &'a Snapshot,
    batch: usize,
    rows: &mut u32,
    nodes: &mut [Node<'a>],
    needed: &mut usize,
) -> u32
    ensures status { (result ≤ 5) × (result ≢ 1) × (result ≢ 4) }
    ensures lent { result ≡ 0 → IsGiven (λ lent. IsLent batch rows.new lent snapshot.now.version) nodes.old nodes.new needed.new }
    ensures short { result ≡ 2 → HasNoRoom (λ lent. IsLentOf batch lent snapshot.now.version) nodes.old nodes.new needed.new }
    ensures memory { result ≡ 3 → IsKept nodes.old nodes.new needed.old needed.new }
    ensures past { result ≡ 5 → (length snapshot.now.version.batches ≤ batch) × IsKept nodes.old nodes.new needed.old needed.new }
    ensures rows { result ≢ 0 → rows.new ≡ rows.old }
{
    match lent_at(alloc, snapshot, batch) {
        Ok((count, lent)) => {
            let status = put_items(&lent, GIVEN, nodes, needed);
            if status == GIVEN {
                *rows = count;
            }
            status
        }
        Err(status) => status,
    }
}

/// How many rows a batch of a snapshot has, and its columns as nodes, or the status where there are none.
fn lent_at<'a>(
    alloc: Global,
    snapshot: &'a Snapshot,
    batch: usize,
) -> Result<(u32, Vec<Node<'a>>), u32>
    ensures lent { IfOk result (λ lent. IsLent batch lent.0 lent.1.items snapshot.now.version) }
    ensures none { IfErr result (λ status. (status ≡ 3) ⊎ ((status ≡ 5) × (length snapshot.now.version.batches ≤ batch))) }
{
    match snapshot.version.batches().get(batch) {
        Some(batch) => match nodes_of(alloc, batch) {
            Ok(lent) => Ok((batch.rows(), lent)),
            Err(NoMemory) => Err(NO_MEMORY),
        },
        None => Err(NO_BATCH),
    }
}

/// Lends nodes without rows that name the fields of the table as its batches are lent, for a table without batches too. They stand as long as the snapshot is left
/// alone.
#[unsafe(no_mangle)]
pub extern "C" fn selqumar_lend_fields<'a>(
    alloc: Global,
    snapshot: &'a mut Handle,
    nodes: &mut [Node<'a>],
    needed: &mut usize,
) -> u32
    ensures status { (result ≤ 4) × (result ≢ 1) }
    ensures asks { Asks (snapshot_in snapshot.old.slot.pointee) (λ s lent. LendsFields lent s.fields []) (λ _. Never)
        result nodes.old nodes.new needed.old needed.new }
{
    of_open!(snapshot, Snapshot(given) => lend_fields(alloc, given, nodes, needed))
}

/// Lends nodes that name the fields of a snapshot, and answers the status.
fn lend_fields<'a>(
    alloc: Global,
    snapshot: &'a Snapshot,
    nodes: &mut [Node<'a>],
    needed: &mut usize,
) -> u32
    ensures status { (result ≤ 3) × (result ≢ 1) }
    ensures leaves { Leaves (λ lent. LendsFields lent snapshot.now.version.fields []) Never result nodes.old nodes.new needed.old needed.new }
{
    match fields_of(alloc, snapshot.version.schema()) {
        Ok(lent) => put_items(&lent, GIVEN, nodes, needed),
        Err(NoMemory) => NO_MEMORY,
    }
}
