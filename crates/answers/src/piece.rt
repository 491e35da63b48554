//! Pieces of the rows of all batches.

ghost use Rattle.std.specs.Prelude.{◌≡◌, ◌+◌, ◌<◌, ◌≤◌, ◌-◌, IfErr, IfOk, min};
ghost use Rattle.std.specs.Thread.{IsSync};
ghost use Rattle.query.specs.QueryShape.{query_shape};
ghost use Rattle.answers.specs.Pieces.{ArePieces, HasRun, IsScan, IsPieceRefusal, between, scan_fields, scan_rows};

use crate::grouping::Grouping;
use crate::neighbours::{Looked, Neighbours};
use crate::run::add_part;
use crate::scan::Scan;
use crate::shares::back_of;
use crews::Gate;
use evaluate::stop::Stop;
use query::QueryFault;
use std::thread::{Threads, join};

/// The groups of the rows from one place up to another: `Overflow` with the least of these rows where the filter is bad, or `NoMemory`
/// where a growth was refused.
fn look_at_rows<'a, G: Gate>(scan: &Scan<'a, '_, G>, from: u64, to: u64) -> Looked<'a>
    requires scan { IsScan scan.now }
    requires order { from ≤ to }
    ensures ok { IfOk result (HasRun (scan_fields scan.now) scan.now.query.now (between from to (scan_rows scan.now))) }
    ensures err { IfErr result (IsPieceRefusal (scan_fields scan.now) (query_shape scan.now.query.now).filter from
        (between from to (scan_rows scan.now))) }
{
    let mut grouping = Grouping::new(scan.alloc, scan.query, scan.common)?;
    let mut kept = Vec::new(scan.alloc);
    let mut before: u64 = 0;
    for batch in scan.batches {
        let rows = u64::from(batch.rows());
        let start = within(from, before, rows);
        let end = within(to, before, rows);
        match add_part(
            scan,
            &mut grouping,
            batch,
            start as usize,
            (end - start) as usize,
            &mut kept,
        ) {
            Ok(()) => before += rows,
            Err(Stop::Bad(row)) => {
                return Err(QueryFault::Overflow {
                    row: before + start + row as u64,
                });
            }
            Err(Stop::NoMemory) => return Err(QueryFault::NoMemory),
        }
    }
    Ok(grouping)
}

/// How many of so many rows, which come behind others, come before a place.
fn within(place: u64, before: u64, rows: u64) -> u64
    ensures { result ≡ min (place - before) rows }
{
    place.saturating_sub(before).min(rows)
}

/// The groups of the rows of some neighbouring pieces, so many from one on, or the least of these rows where the filter is bad. Each
/// piece is looked at in a thread of its own, which passes the gate before its first row, where the piece is empty too. What is known
/// of the first of the pieces and of the others is put together once both are looked at.
#[cycle(pieces)]
pub(crate) fn look_at_pieces<'a, T: Threads + Sync, G: Gate>(
    threads: &T,
    scan: &Scan<'a, '_, G>,
    from: u32,
    count: u32,
) -> Looked<'a>
    requires scan { IsScan scan.now }
    requires some { 0 < count }
    requires within { from + count ≤ scan.now.cuts.pieces }
    ensures { ArePieces scan.now from (from + count) result }
{
    if count == 1 {
        return look_at_one(scan, from);
    }
    let high = back_of(count);
    let low = count - high;
    let middle = from + low;
    let front = move || -> Looked<'_>
        requires { IsSync T.row × IsSync G.row × IsScan scan.now × (0 < low) × (from + low ≤ scan.now.cuts.pieces) }
        ensures { ArePieces scan.entry.now from (from + low) result }
    { look_at_pieces(threads, scan, from, low) };
    let back = move || -> Looked<'_>
        requires { IsSync T.row × IsSync G.row × IsScan scan.now × (0 < high) × (middle + high ≤ scan.now.cuts.pieces) }
        ensures { ArePieces scan.entry.now middle (middle + high) result }
    { look_at_pieces(threads, scan, middle, high) };
    let (late, early) = join(threads, back, front);
    Neighbours { early, late }.put_together(scan.alloc)
}

/// The groups of the rows of one piece, whose thread passes the gate before its first row.
pub(crate) fn look_at_one<'a, G: Gate>(scan: &Scan<'a, '_, G>, place: u32) -> Looked<'a>
    requires scan { IsScan scan.now }
    requires within { place + 1 ≤ scan.now.cuts.pieces }
    ensures { ArePieces scan.now place (place + 1) result }
{
    scan.gate.pass(place, 0);
    let first = scan.cuts.at(place);
    let last = scan.cuts.at(place + 1);
    look_at_rows(scan, first, last)
}
