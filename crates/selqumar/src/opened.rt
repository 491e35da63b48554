//! Calls on a table that stays open between them.
ghost use Rattle.std.specs.Prelude.{◌≡◌, ◌≢◌, ◌⊎◌, ◌≤◌, List, None, Some, map, ℕ};
ghost use Rattle.embed.specs.Prelude.{IsAnswered, IsExport, IsStats, StopsQuery, StopsTexts};
ghost use Rattle.selqumar.specs.Handle.{Asks, IsAnswerOf, IsExportOf, IsOpenOver, IsStatsOf, StopsAnswerOf, table_in};
ghost use Rattle.selqumar.specs.Status.{IsLine, IsNothing, Leaves, Never};

use crate::handle::Handle;
use crate::of_open;
use crate::pointee::Pointee;
use crate::status::{GIVEN, put};
use embed::Loaded;
use std::alloc::Global;

/// Opens a table of the files, in place of what is open.
#[unsafe(no_mangle)]
pub extern "C" fn selqumar_open(
    alloc: Global,
    files: &[&[u8]],
    handle: &mut Handle,
    out: &mut [u8],
    needed: &mut usize,
) -> u32
    ensures status { result ≤ 3 }
    ensures opened { result ≡ 0 → IsOpenOver (map (λ f. f.now) files.now) (table_in handle.new.slot.pointee) }
    ensures leaves { Leaves IsNothing (IsLine (StopsTexts (map (λ f. f.now) files.now))) result out.old out.new needed.old needed.new }
    ensures unchanged { result ≢ 0 → handle.new.slot.pointee ≡ handle.old.slot.pointee }
{
    match Loaded::open(alloc, files) {
        Ok(table) => open_table(alloc, table, handle, needed),
        Err(fault) => put(alloc, Err(fault), out, needed),
    }
}

/// Opens this table in place of what is open, and answers the status: nothing is written.
pub(crate) fn open_table(
    alloc: Global,
    table: Loaded,
    handle: &mut Handle,
    needed: &mut usize,
) -> u32
    ensures status { (result ≡ 0) ⊎ (result ≡ 3) }
    ensures opened { result ≡ 0 → (table_in handle.new.slot.pointee ≡ Some table.state) × (needed.new ≡ 0) }
    ensures kept { result ≢ 0 → (handle.new.slot.pointee ≡ handle.old.slot.pointee) × (needed.new ≡ needed.old) }
{
    let status = handle.open(alloc, Pointee::Table(table));
    if status == GIVEN {
        *needed = 0;
    }
    status
}

/// What `stats` prints of the table that is open, with a line for each of so many workers.
#[unsafe(no_mangle)]
pub extern "C" fn selqumar_stats_of(
    alloc: Global,
    handle: &mut Handle,
    workers: u32,
    out: &mut [u8],
    needed: &mut usize,
) -> u32
    ensures status { (result ≤ 4) × (result ≢ 1) }
    ensures asks { Asks (table_in handle.old.slot.pointee) (IsStatsOf workers) (λ _. Never) result out.old out.new needed.old needed.new }
    ensures unchanged { handle.new.slot.pointee ≡ handle.old.slot.pointee }
{
    of_open!(handle, Table(table) => put(alloc, table.stats(alloc, workers), out, needed))
}

/// The same for one worker: of a table of files, what `stats` prints of them.
#[unsafe(no_mangle)]
pub extern "C" fn selqumar_open_stats(
    alloc: Global,
    handle: &mut Handle,
    out: &mut [u8],
    needed: &mut usize,
) -> u32
    ensures status { (result ≤ 4) × (result ≢ 1) }
    ensures asks { Asks (table_in handle.old.slot.pointee) (IsStatsOf 1) (λ _. Never) result out.old out.new needed.old needed.new }
    ensures of_files { (texts : List (List ℕ)) → IsOpenOver texts (table_in handle.old.slot.pointee) → Leaves (IsStats texts) Never
        result out.old out.new needed.old needed.new }
    ensures unchanged { handle.new.slot.pointee ≡ handle.old.slot.pointee }
{
    selqumar_stats_of(alloc, handle, 1, out, needed)
}

/// What `export` prints of the table that is open: one file with a batch for each that was added.
#[unsafe(no_mangle)]
pub extern "C" fn selqumar_open_export(
    alloc: Global,
    handle: &mut Handle,
    out: &mut [u8],
    needed: &mut usize,
) -> u32
    ensures status { (result ≤ 4) × (result ≢ 1) }
    ensures asks { Asks (table_in handle.old.slot.pointee) IsExportOf (λ _. Never) result out.old out.new needed.old needed.new }
    ensures of_files { (texts : List (List ℕ)) → IsOpenOver texts (table_in handle.old.slot.pointee) → Leaves (IsExport texts) Never
        result out.old out.new needed.old needed.new }
    ensures unchanged { handle.new.slot.pointee ≡ handle.old.slot.pointee }
{
    of_open!(handle, Table(table) => put(alloc, table.export(alloc), out, needed))
}

/// What `query` prints of it: a line for each group. Where no table is open, the query isn't read.
#[unsafe(no_mangle)]
pub extern "C" fn selqumar_open_query(
    alloc: Global,
    handle: &mut Handle,
    query: &[u8],
    out: &mut [u8],
    needed: &mut usize,
) -> u32
    ensures status { result ≤ 4 }
    ensures asks { Asks (table_in handle.old.slot.pointee) (IsAnswerOf query.now) (λ t. IsLine (StopsAnswerOf query.now t))
        result out.old out.new needed.old needed.new }
    ensures of_files { (texts : List (List ℕ)) → IsOpenOver texts (table_in handle.old.slot.pointee)
        → Leaves (IsAnswered query.now texts) (IsLine (StopsQuery query.now texts)) result out.old out.new needed.old needed.new }
    ensures unchanged { handle.new.slot.pointee ≡ handle.old.slot.pointee }
{
    of_open!(handle, Table(table) => put(alloc, table.query(alloc, query), out, needed))
}

/// Closes what is open, if anything is.
#[unsafe(no_mangle)]
pub extern "C" fn selqumar_close(alloc: Global, handle: &mut Handle)
    ensures { handle.new.slot.pointee ≡ None }
{
    drop(handle.take(alloc));
}
