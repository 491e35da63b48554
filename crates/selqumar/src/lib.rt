//! `arrowtab` for C, Rust and Python: what it prints of files with one worker, put into the caller's buffer. Each call takes the
//! bytes of files, or a handle in which a table of files is open, and answers a status:
//!
//! - 0: all of the text is at the front of `out`, and `needed` is its length; the rest of `out` stays as it was.
//! - 1: a fault stands; its line is at the front of `out`, and `needed` is its length. A file is named by its number, from 0.
//! - 2: `out` is shorter than the text or the line; `needed` is its length, and `out` stays as it was.
//! - 3: a growth was refused; `out` and `needed` stay as they were.
//! - 4: no table is open in the handle, or no snapshot; `out` and `needed` stay as they were.
//! - 5: the snapshot has no such batch; nothing is written.
//!
//! Calls that lend columns have nodes in place of a text. What they lend stands until the snapshot's next call.
#![tactic(auto)]

ghost use Rattle.std.specs.Prelude.{◌≤◌, map};
ghost use Rattle.embed.specs.Prelude.{IsAnswered, IsExport, IsStats, StopsQuery, StopsTexts};
ghost use Rattle.selqumar.specs.Status.{IsLine, IsValid, Leaves};

mod boxed;
mod columns;
mod fault_line;
mod fault_text;
mod filling;
mod handle;
mod opened;
mod pointee;
mod slot;
mod snapshots;
mod status;

use crate::status::{put, validity};
use std::alloc::Global;

/// What `stats` prints of the files.
#[unsafe(no_mangle)]
pub extern "C" fn selqumar_stats(
    alloc: Global,
    files: &[&[u8]],
    out: &mut [u8],
    needed: &mut usize,
) -> u32
    ensures status { result ≤ 3 }
    ensures leaves { Leaves (IsStats (map (λ f. f.now) files.now)) (IsLine (StopsTexts (map (λ f. f.now) files.now)))
        result out.old out.new needed.old needed.new }
{
    put(alloc, embed::stats(alloc, files), out, needed)
}

/// What `export` prints of the files.
#[unsafe(no_mangle)]
pub extern "C" fn selqumar_export(
    alloc: Global,
    files: &[&[u8]],
    out: &mut [u8],
    needed: &mut usize,
) -> u32
    ensures status { result ≤ 3 }
    ensures leaves { Leaves (IsExport (map (λ f. f.now) files.now)) (IsLine (StopsTexts (map (λ f. f.now) files.now)))
        result out.old out.new needed.old needed.new }
{
    put(alloc, embed::export(alloc, files), out, needed)
}

/// What `query` prints of the files.
#[unsafe(no_mangle)]
pub extern "C" fn selqumar_query(
    alloc: Global,
    files: &[&[u8]],
    query: &[u8],
    out: &mut [u8],
    needed: &mut usize,
) -> u32
    ensures status { result ≤ 3 }
    ensures leaves { Leaves (IsAnswered query.now (map (λ f. f.now) files.now)) (IsLine (StopsQuery query.now (map (λ f. f.now) files.now)))
        result out.old out.new needed.old needed.new }
{
    put(alloc, embed::query(alloc, query, files), out, needed)
}

/// Nothing, where all files can be loaded into one table.
#[unsafe(no_mangle)]
pub extern "C" fn selqumar_validate(
    alloc: Global,
    files: &[&[u8]],
    out: &mut [u8],
    needed: &mut usize,
) -> u32
    ensures status { result ≤ 3 }
    ensures leaves { Leaves (IsValid (map (λ f. f.now) files.now)) (IsLine (StopsTexts (map (λ f. f.now) files.now)))
        result out.old out.new needed.old needed.new }
{
    put(alloc, validity(alloc, files), out, needed)
}
