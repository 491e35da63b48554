//! All runs of a call.

use crate::refusals::{Refused, are_all_let_go, count_blocks};
use crate::run::{Fault, Ran};
use std::alloc::Global;
use std::io::Print;
use std::test::Fail;

/// More requests than a call makes here.
const MOST: u32 = 10_000;

/// A call that is run again and again, each time on the same.
pub(crate) trait Trial<R> {
    /// Makes the call, of which these requests are refused, and makes it again where it wants memory.
    fn run(&self, rt: &R, alloc: Global, refused: Option<Refused>) -> Result<Ran, Fail>;
}

/// Which run isn't as it should be, and why.
#[derive(Clone, Copy)]
struct Wrong {
    number: u32,
    fault: Fault,
}

/// How many calls are as they should be, and how many aren't.
#[derive(Clone, Copy)]
pub(crate) struct Tally {
    pub(crate) passed: u32,
    pub(crate) failed: u32,
}

/// Has each request of these calls refused, and prints what came of it.
pub(crate) fn sweep_all<T: Trial<R>, R: Print>(
    rt: &R,
    alloc: Global,
    calls: &[(&str, T)],
    tally: &mut Tally,
) -> Result<(), Fail> {
    for (name, trial) in calls {
        match counted(rt, alloc, trial)? {
            Ok(count) => {
                println!(rt; "{name}: {count} refused, ok")?;
                tally.passed = tally.passed.wrapping_add(1);
            }
            Err(Wrong { number, fault }) => {
                println!(rt; "{name}: request {number}: {fault:?}")?;
                tally.failed = tally.failed.wrapping_add(1);
            }
        }
    }
    Ok(())
}

/// How many requests were refused, in both ways.
fn counted<T: Trial<R>, R>(rt: &R, alloc: Global, trial: &T) -> Result<Result<u32, Wrong>, Fail> {
    match trial.run(rt, alloc, None)? {
        Ran::Answered(_, report) => counted_both(rt, alloc, trial, report.as_str()),
        Ran::Wrong(fault) => Ok(Err(Wrong { number: 0, fault })),
    }
}

/// The same, where this is what the call is to come to.
fn counted_both<T: Trial<R>, R>(
    rt: &R,
    alloc: Global,
    trial: &T,
    wanted: &str,
) -> Result<Result<u32, Wrong>, Fail> {
    let alone = counted_so(rt, alloc, trial, wanted, false)?;
    let behind = counted_so(rt, alloc, trial, wanted, true)?;
    Ok(match (alone, behind) {
        (Ok(alone), Ok(behind)) => Ok(alone.wrapping_add(behind)),
        (Err(wrong), _) | (_, Err(wrong)) => Err(wrong),
    })
}

/// How many requests were refused, each alone or with all behind it.
fn counted_so<T: Trial<R>, R>(
    rt: &R,
    alloc: Global,
    trial: &T,
    wanted: &str,
    and_all_behind: bool,
) -> Result<Result<u32, Wrong>, Fail> {
    for number in 1..MOST {
        let refused = Refused {
            number,
            and_all_behind,
        };
        count_blocks(alloc);
        let looked = looked_at(trial.run(rt, alloc, Some(refused))?, wanted);
        let is_clean = are_all_let_go(alloc);
        let fault = match looked {
            Err(fault) => fault,
            Ok(_) if !is_clean => Fault::BlockInUse,
            Ok(true) => continue,
            Ok(false) if number == 1 => Fault::NothingRefused,
            Ok(false) => return Ok(Ok(number - 1)),
        };
        return Ok(Err(Wrong { number, fault }));
    }
    Ok(Err(Wrong {
        number: MOST,
        fault: Fault::NoEnd,
    }))
}

/// Whether a request was refused in a run that came to the answer.
fn looked_at(ran: Ran, wanted: &str) -> Result<bool, Fault> {
    match ran {
        Ran::Answered(met, report) if report.as_str() == wanted => Ok(met),
        Ran::Answered(_, _) => Err(Fault::OtherAnswer),
        Ran::Wrong(fault) => Err(fault),
    }
}
