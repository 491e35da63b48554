//! `test_growths` goes over each call of the library that may want memory, and has each request that the call makes refused, one in each run, and then all
//! from one on. A call that tells want of memory has changed nothing, and comes to its answer when it is made again; no
//! other comes to another answer than with ample memory, and none keeps a block.
//!
//! What refuses requests is a library that is loaded into the program (`tools/refused_calls.py`). Without it the program says so and fails.
#![tactic(auto)]

mod column_calls;
mod columns;
mod gathering;
mod loading;
mod makers;
mod nodes;
mod permit;
mod pools;
mod query_calls;
mod refusals;
mod run;
mod samples;
mod shared_tables;
mod stage;
mod sweep;
mod table_calls;
mod tell;

use std::alloc::Global;
use std::io::Print;
use std::process::ExitCode;
use std::sync::Wait;
use std::test::Fail;
use std::thread::Threads;
use sweep::{Tally, sweep_all};

fn main(rt: HostRuntime) -> Result<ExitCode, Fail> {
    if refusals::end(rt.alloc()) {
        println!(rt; "test_growths: nothing refuses requests, see tools/refused_calls.py")?;
        return Ok(ExitCode::FAILURE);
    }
    let mut tally = Tally {
        passed: 0,
        failed: 0,
    };
    sweep_calls(&rt, rt.alloc(), &mut tally)?;
    let Tally { passed, failed } = tally;
    println!(rt; "{passed} passed, {failed} failed")?;
    Ok(if failed == 0 {
        ExitCode::SUCCESS
    } else {
        ExitCode::FAILURE
    })
}

/// Has each request of all calls refused.
fn sweep_calls<R: Print + Threads + Wait + Sync>(
    rt: &R,
    alloc: Global,
    tally: &mut Tally,
) -> Result<(), Fail> {
    sweep_all(rt, alloc, &makers::MAKERS, tally)?;
    sweep_all(rt, alloc, &makers::DOCUMENTS, tally)?;
    sweep_all(rt, alloc, &makers::LENT, tally)?;
    sweep_all(rt, alloc, &column_calls::NULLS, tally)?;
    sweep_all(rt, alloc, &column_calls::KERNELS, tally)?;
    sweep_all(rt, alloc, &column_calls::TAKE, tally)?;
    sweep_all(rt, alloc, &column_calls::FILTER, tally)?;
    sweep_all(rt, alloc, &column_calls::CONCAT, tally)?;
    sweep_all(rt, alloc, &column_calls::COPY, tally)?;
    sweep_all(rt, alloc, &column_calls::VALIDATE, tally)?;
    sweep_all(rt, alloc, &column_calls::STATISTICS, tally)?;
    sweep_all(rt, alloc, &pools::CASES, tally)?;
    sweep_all(rt, alloc, &table_calls::CASES, tally)?;
    sweep_all(rt, alloc, &query_calls::CASES, tally)?;
    sweep_all(rt, alloc, &shared_tables::CASES, tally)?;
    sweep_all(rt, alloc, &loading::CASES, tally)
}
