//! How many rows a table takes.

use shared::{Refusal, TableState};
use std::alloc::Global;
use std::test::Fail;
use test_samples::{batch_of, fields_of};

/// Batches of so many rows that come when a table has 512 below the most, and what they are answered.
const LAST: [(u32, Result<u32, Refusal>); 4] = [
    (2147483647, Err(Refusal::TableFull)),
    (512, Ok(512)),
    (1, Err(Refusal::TableFull)),
    (0, Ok(513)),
];

#[test]
fn rows_have_a_limit(rt: HostRuntime) -> Result<(), Fail> {
    let mut table = TableState::new(rt.alloc(), fields_of(rt.alloc(), (0, &[]))?)?;
    fill(rt.alloc(), &mut table)?;
    for (rows, answer) in LAST {
        let admitted = admit(rt.alloc(), &mut table, rows)?;
        assert!(rt; admitted == answer, "at {rows} rows");
    }
    assert!(rt; table.version()?.rows() == 1099511627776);
    Ok(())
}

/// Admits 512 batches of 2147483647 rows, which are 1099511627264 rows, 512 below the most.
fn fill(alloc: Global, table: &mut TableState) -> Result<(), Fail> {
    for _batch in 0..512 {
        admit(alloc, table, 2147483647)??;
    }
    Ok(())
}

/// What is answered to a batch of so many rows.
fn admit(alloc: Global, table: &mut TableState, rows: u32) -> Result<Result<u32, Refusal>, Fail> {
    let batch = batch_of(alloc, (rows, &[]))?;
    Ok(table.admit(0, &batch))
}
