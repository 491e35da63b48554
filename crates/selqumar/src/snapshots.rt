//! Calls that make snapshots of a table, and calls on one.
ghost use Rattle.std.specs.Prelude.{◌≡◌, ◌≢◌, ◌⊎◌, ◌≤◌, IfErr, IfOk, None, Some, length};
ghost use Rattle.embed.specs.Answer.{IsAnswerTable};
ghost use Rattle.selqumar.specs.Handle.{Asks, IsAnswerOf, IsExportOf, IsStatsOf, OfOpen, Opens, StopsAnswerOf, snapshot_in, table_in};
ghost use Rattle.selqumar.specs.Status.{IsLine, IsNothing, Never};

use crate::handle::Handle;
use crate::of_open;
use crate::opened::open_table;
use crate::pointee::Pointee;
use crate::status::{GIVEN, NO_MEMORY, put};
use arrays::NoMemory;
use embed::Snapshot;
use std::alloc::Global;

/// Opens a snapshot of the table that is open, in place of what is open in `snapshot`: what the table holds now stays there. No row is copied.
#[unsafe(no_mangle)]
pub extern "C" fn selqumar_snapshot(
    alloc: Global,
    handle: &mut Handle,
    snapshot: &mut Handle,
) -> u32
    ensures opens { Opens (table_in handle.old.slot.pointee) result snapshot.old.slot.pointee snapshot.new.slot.pointee }
    ensures unchanged { handle.new.slot.pointee ≡ handle.old.slot.pointee }
{
    of_open!(handle, Table(table) => open(alloc, table.snapshot(), snapshot))
}

/// Opens another snapshot of the same moment in `copy`, in place of what is open there. No row is copied.
#[unsafe(no_mangle)]
pub extern "C" fn selqumar_snapshot_share(
    alloc: Global,
    snapshot: &mut Handle,
    copy: &mut Handle,
) -> u32
    ensures opens { Opens (snapshot_in snapshot.old.slot.pointee) result copy.old.slot.pointee copy.new.slot.pointee }
    ensures unchanged { snapshot.new.slot.pointee ≡ snapshot.old.slot.pointee }
{
    of_open!(snapshot, Snapshot(given) => open(alloc, given.share(), copy))
}

/// Opens a snapshot that was taken, in place of what is open.
fn open(alloc: Global, taken: Result<Snapshot, NoMemory>, handle: &mut Handle) -> u32
    ensures status { (result ≡ 0) ⊎ (result ≡ 3) }
    ensures opened { result ≡ 0 → IfOk taken (λ s. snapshot_in handle.new.slot.pointee ≡ Some s.version) }
    ensures memory { IfErr taken (λ _. result ≡ 3) }
    ensures kept { result ≢ 0 → handle.new.slot.pointee ≡ handle.old.slot.pointee }
{
    match taken {
        Ok(taken) => handle.open(alloc, Pointee::Snapshot(taken)),
        Err(NoMemory) => NO_MEMORY,
    }
}

/// How many batches there are.
#[unsafe(no_mangle)]
pub extern "C" fn selqumar_batch_count(snapshot: &mut Handle, count: &mut usize) -> u32
    ensures status { (result ≡ 0) ⊎ (result ≡ 4) }
    ensures given { result ≡ 0 → OfOpen (λ s. count.new ≡ length s.batches) (snapshot_in snapshot.old.slot.pointee) }
    ensures closed { result ≡ 4 → (snapshot_in snapshot.old.slot.pointee ≡ None) × (count.new ≡ count.old) }
    ensures none { snapshot_in snapshot.old.slot.pointee ≡ None → result ≡ 4 }
    ensures unchanged { snapshot.new.slot.pointee ≡ snapshot.old.slot.pointee }
{
    of_open!(snapshot, Snapshot(given) => {
        *count = given.version.batches().len();
        GIVEN
    })
}

/// What `stats` prints of the snapshot, with a line for each of so many workers.
#[unsafe(no_mangle)]
pub extern "C" fn selqumar_snapshot_stats(
    alloc: Global,
    snapshot: &mut Handle,
    workers: u32,
    out: &mut [u8],
    needed: &mut usize,
) -> u32
    ensures status { (result ≤ 4) × (result ≢ 1) }
    ensures asks { Asks (snapshot_in snapshot.old.slot.pointee) (IsStatsOf workers) (λ _. Never) result out.old out.new needed.old needed.new }
    ensures unchanged { snapshot.new.slot.pointee ≡ snapshot.old.slot.pointee }
{
    of_open!(snapshot, Snapshot(given) => put(alloc, given.stats(alloc, workers), out, needed))
}

/// What `export` prints of it: one file with a batch for each that had been added.
#[unsafe(no_mangle)]
pub extern "C" fn selqumar_snapshot_export(
    alloc: Global,
    snapshot: &mut Handle,
    out: &mut [u8],
    needed: &mut usize,
) -> u32
    ensures status { (result ≤ 4) × (result ≢ 1) }
    ensures asks { Asks (snapshot_in snapshot.old.slot.pointee) IsExportOf (λ _. Never) result out.old out.new needed.old needed.new }
    ensures unchanged { snapshot.new.slot.pointee ≡ snapshot.old.slot.pointee }
{
    of_open!(snapshot, Snapshot(given) => put(alloc, given.export(alloc), out, needed))
}

/// What `query` prints of it: a line for each group. Where no snapshot is open, the query isn't read.
#[unsafe(no_mangle)]
pub extern "C" fn selqumar_snapshot_query(
    alloc: Global,
    snapshot: &mut Handle,
    query: &[u8],
    out: &mut [u8],
    needed: &mut usize,
) -> u32
    ensures status { result ≤ 4 }
    ensures asks { Asks (snapshot_in snapshot.old.slot.pointee) (IsAnswerOf query.now) (λ t. IsLine (StopsAnswerOf query.now t))
        result out.old out.new needed.old needed.new }
    ensures unchanged { snapshot.new.slot.pointee ≡ snapshot.old.slot.pointee }
{
    of_open!(snapshot, Snapshot(given) => put(alloc, given.query(alloc, query), out, needed))
}

/// Opens a table of what a query answers of the snapshot in the handle, in place of the one that is open there: a row for each group, a column
/// for each item of its key and each aggregate. Nothing is written. Where no snapshot is open, the query isn't read.
#[unsafe(no_mangle)]
pub extern "C" fn selqumar_answer(
    alloc: Global,
    snapshot: &mut Handle,
    query: &[u8],
    handle: &mut Handle,
    out: &mut [u8],
    needed: &mut usize,
) -> u32
    ensures status { result ≤ 4 }
    ensures opened { result ≡ 0 → OfOpen (λ s. OfOpen (IsAnswerTable query.now s.fields s.history) (table_in handle.new.slot.pointee))
        (snapshot_in snapshot.old.slot.pointee) }
    ensures asks { Asks (snapshot_in snapshot.old.slot.pointee) (λ _. IsNothing) (λ t. IsLine (StopsAnswerOf query.now t))
        result out.old out.new needed.old needed.new }
    ensures kept { result ≢ 0 → handle.new.slot.pointee ≡ handle.old.slot.pointee }
    ensures unchanged { snapshot.new.slot.pointee ≡ snapshot.old.slot.pointee }
{
    of_open!(snapshot, Snapshot(given) => match given.answer(alloc, query) {
        Ok(table) => open_table(alloc, table, handle, needed),
        Err(fault) => put(alloc, Err(fault), out, needed),
    })
}

/// Closes the snapshot that is open, if one is. What it lent must not be looked at from then on.
#[unsafe(no_mangle)]
pub extern "C" fn selqumar_snapshot_close(alloc: Global, snapshot: &mut Handle)
    ensures { snapshot.new.slot.pointee ≡ None }
{
    drop(snapshot.take(alloc));
}
