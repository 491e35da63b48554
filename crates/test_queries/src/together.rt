//! Pieces that are looked at beside one another.

use crate::answering::{answered, answered_alone};
use crate::gates::{Counting, Holding, Ordered};
use crate::numbered::file_of;
use crate::pieces::{PAIRS, PAIRS_SUMS, SUMS};
use answers::OpenGate;
use std::alloc::{AllocError, Global};
use std::test::Fail;

/// How many pieces there are whose rows tell how often they let others go first.
const PIECES: u32 = 4;

/// How many rows each of them has.
const ROWS: u32 = 50_000;

/// After so many rows a piece lets others go first, unless it has many groups.
const TURN: u32 = 16_384;

/// Numbers by which piece 0 has many groups from its first rows on, and each other piece after one turn more than the one before it.
fn numbers(alloc: Global) -> Result<Vec<u32>, AllocError> {
    let mut numbers = Vec::new(alloc);
    for piece in 0..PIECES {
        for row in 0..ROWS {
            numbers.push(if row < piece * TURN { 0 } else { row })?;
        }
    }
    Ok(numbers)
}

#[test]
fn each_piece_passes_the_gate_once(rt: HostRuntime) -> Result<(), Fail> {
    for pieces in [1, 2, 4, 64] {
        let gate = Counting::new();
        let report = answered(&rt, rt.alloc(), (PAIRS, SUMS), pieces, &gate)?;
        assert!(rt; report.as_str() == PAIRS_SUMS, "{report} in {pieces}");
        assert!(rt; gate.has_let_in(pieces), "in {pieces}");
    }
    Ok(())
}

// The first piece gets no further than the gate before the last comes there, or the last before the first: so both are at work at once,
// and each passes with its own number.
#[test]
fn the_first_piece_and_the_last_are_at_work_together(rt: HostRuntime) -> Result<(), Fail> {
    for pieces in [2, 4, 8, 64] {
        for (holder, awaited) in [(0, pieces - 1), (pieces - 1, 0)] {
            let gate = Holding::new(holder, awaited);
            let report = answered(&rt, rt.alloc(), (PAIRS, SUMS), pieces, &gate)?;
            assert!(rt;
                report.as_str() == PAIRS_SUMS,
                "{report}, {holder} of {pieces} waits"
            );
            assert!(rt; gate.has_waited(), "{holder} of {pieces} waits");
        }
    }
    Ok(())
}

// Each piece comes in alone, and lets others go first as often as the rows of its number say: so each thread passes with the number of
// its rows, and before the first of them.
#[test]
fn each_piece_passes_with_its_own_number(rt: HostRuntime) -> Result<(), Fail> {
    let file = file_of(rt.alloc(), &numbers(rt.alloc())?)?;
    let texts = (
        file.as_str(),
        r#"{"by":["v"],"aggs":[{"agg":"rows"},{"agg":"least","column":"v"}]}"#,
    );
    let wanted = answered(&rt, rt.alloc(), texts, 1, &OpenGate)?;
    let gate = Ordered::new(PIECES);
    let report = answered(&rt, rt.alloc(), texts, PIECES, &gate)?;
    assert!(rt; report.as_str() == wanted.as_str());
    assert!(rt; gate.was_kept());
    Ok(())
}

#[test]
fn one_piece_is_looked_at_without_threads(rt: HostRuntime) -> Result<(), Fail> {
    let report = answered_alone(&rt, rt.alloc(), (PAIRS, SUMS))?;
    assert!(rt; report.as_str() == PAIRS_SUMS, "{report}");
    let gate = Counting::new();
    let same = answered(&rt, rt.alloc(), (PAIRS, SUMS), 1, &gate)?;
    assert!(rt; same.as_str() == PAIRS_SUMS, "{same}");
    assert!(rt; gate.has_let_in(1));
    Ok(())
}
