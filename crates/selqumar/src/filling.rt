//! Calls that fill a table, and that change it.
ghost use Rattle.std.specs.Prelude.{◌≡◌, ◌≢◌, ◌≤◌};
ghost use Rattle.intake.specs.Filling.{IsAppended, IsEmptyOf, IsWidened, StopsAppend, StopsNew, StopsWidening};
ghost use Rattle.selqumar.specs.Handle.{Asks, Became, OfOpen, table_in};
ghost use Rattle.selqumar.specs.Status.{IsNothing, Leaves, Never};
ghost use Rattle.selqumar.specs.FaultLine.{IsFaultLine};
ghost use Rattle.embed.specs.Prelude.{IsCompacted};

use crate::fault_line::{put_fault, put_outcome};
use crate::handle::Handle;
use crate::of_open;
use crate::opened::open_table;
use crate::status::{NO_MEMORY, done};
use arrays::NoMemory;
use embed::Loaded;
use intake::{IntakeFault, Node, add_column, append, table_of};
use std::alloc::Global;

/// Opens an empty table of the fields that nodes name, in place of the one that is open. Lengths, null counts and buffers aren't
/// looked at.
#[unsafe(no_mangle)]
pub extern "C" fn selqumar_new(
    alloc: Global,
    nodes: &[Node<'_>],
    handle: &mut Handle,
    out: &mut [u8],
    needed: &mut usize,
) -> u32
    ensures status { result ≤ 3 }
    ensures opened { result ≡ 0 → OfOpen (IsEmptyOf nodes.now) (table_in handle.new.slot.pointee) }
    ensures leaves { Leaves IsNothing (IsFaultLine (StopsNew nodes.now)) result out.old out.new needed.old needed.new }
    ensures unchanged { result ≢ 0 → handle.new.slot.pointee ≡ handle.old.slot.pointee }
{
    match table_of(alloc, nodes) {
        Ok(state) => open_table(alloc, Loaded::of(state), handle, needed),
        Err(fault) => put_fault(alloc, IntakeFault::Flat { fault }, out, needed),
    }
}

/// Adds the batch of so many rows that nodes are at the end of the table that is open, of a worker.
#[unsafe(no_mangle)]
pub extern "C" fn selqumar_append(
    alloc: Global,
    handle: &mut Handle,
    worker: u32,
    rows: u32,
    nodes: &[Node<'_>],
    out: &mut [u8],
    needed: &mut usize,
) -> u32
    ensures status { result ≤ 4 }
    ensures added { result ≡ 0 → Became (IsAppended worker rows nodes.now) (table_in handle.old.slot.pointee) (table_in handle.new.slot.pointee) }
    ensures asks { Asks (table_in handle.old.slot.pointee) (λ _. IsNothing) (λ t. IsFaultLine (StopsAppend rows nodes.now t))
        result out.old out.new needed.old needed.new }
    ensures unchanged { result ≢ 0 → handle.new.slot.pointee ≡ handle.old.slot.pointee }
{
    of_open!(handle, Table(table) => {
        let outcome = append(alloc, &mut table.state, worker, rows, nodes);
        put_outcome(alloc, outcome, out, needed)
    })
}

/// Adds a column of the field that nodes name behind the others of the table that is open: the rows that are there show null in it.
/// Lengths, null counts and buffers aren't looked at.
#[unsafe(no_mangle)]
pub extern "C" fn selqumar_add_column(
    alloc: Global,
    handle: &mut Handle,
    nodes: &[Node<'_>],
    out: &mut [u8],
    needed: &mut usize,
) -> u32
    ensures status { result ≤ 4 }
    ensures added { result ≡ 0 → Became (IsWidened nodes.now) (table_in handle.old.slot.pointee) (table_in handle.new.slot.pointee) }
    ensures asks { Asks (table_in handle.old.slot.pointee) (λ _. IsNothing) (λ _. IsFaultLine (StopsWidening nodes.now))
        result out.old out.new needed.old needed.new }
    ensures unchanged { result ≢ 0 → handle.new.slot.pointee ≡ handle.old.slot.pointee }
{
    of_open!(handle, Table(table) => {
        let outcome = add_column(alloc, &mut table.state, nodes);
        put_outcome(alloc, outcome, out, needed)
    })
}

/// Joins neighbouring batches of the table that is open, of so many rows at most together. Nothing is ever written.
#[unsafe(no_mangle)]
pub extern "C" fn selqumar_compact(
    alloc: Global,
    handle: &mut Handle,
    max_rows: u32,
    out: &mut [u8],
    needed: &mut usize,
) -> u32
    ensures status { (result ≤ 4) × (result ≢ 1) × (result ≢ 2) }
    ensures joined { result ≡ 0 → Became (IsCompacted max_rows) (table_in handle.old.slot.pointee) (table_in handle.new.slot.pointee) }
    ensures asks { Asks (table_in handle.old.slot.pointee) (λ _. IsNothing) (λ _. Never) result out.old out.new needed.old needed.new }
    ensures unchanged { result ≢ 0 → handle.new.slot.pointee ≡ handle.old.slot.pointee }
{
    of_open!(handle, Table(table) => match table.state.compact(max_rows) {
        Ok(()) => done(needed),
        Err(NoMemory) => NO_MEMORY,
    })
}
