//! The library in one program: a table of one thread, and one that two workers append to and a reader reads.
#![tactic(auto)]

mod alone;
mod together;

use selqumar_core::Fault;
use std::process::ExitCode;
use std::sync::Wait;
use std::thread::Threads;

fn main(rt: HostRuntime) -> ExitCode {
    match tour(&rt, &rt, &rt) {
        Ok(()) => ExitCode::SUCCESS,
        Err(fault) => {
            let _ = eprintln!(rt; "{fault}");
            ExitCode::FAILURE
        }
    }
}

fn tour<W: Wait, T: Threads + Sync>(wait: &W, threads: &T, rt: &HostRuntime) -> Result<(), Fault> {
    alone::tell(threads, rt)?;
    together::tell(wait, threads, rt)
}
