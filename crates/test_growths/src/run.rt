//! One run of a call.

use crate::refusals::{Refused, begin, end};
use crate::tell::Tell;
use arrays::NoMemory;
use selqumar_core::TableState;
use std::alloc::{AllocError, Global};
use std::fmt;
use std::test::Fail;

/// More bytes than are told of any call, so that telling wants no memory.
const ROOM: usize = 1 << 16;

/// What a call is to come to.
#[derive(Clone, Copy)]
pub(crate) enum Due {
    Answer,
    Refusal,
}

/// Why a call has no answer.
#[derive(Clone, Copy, Debug)]
pub(crate) enum Stop {
    NoMemory,
    /// It was refused for another cause, or what it is to be made with isn't there.
    Refused,
}

impl From<AllocError> for Stop {
    fn from(_: AllocError) -> Stop {
        Stop::NoMemory
    }
}

impl From<NoMemory> for Stop {
    fn from(_: NoMemory) -> Stop {
        Stop::NoMemory
    }
}

/// A call with all that it looks at.
pub(crate) trait Scene<R> {
    /// Makes the call, with all that it takes by value, and tells its answer, or why it was refused.
    fn call(&mut self, rt: &R, alloc: Global, report: &mut String) -> Result<(), Stop>;

    /// Tells what a call that wants memory leaves as it was.
    fn tell(&mut self, rt: &R, report: &mut String) -> Result<(), Fail>;
}

/// Why a call isn't as it should be.
#[derive(Clone, Copy, Debug)]
pub(crate) enum Fault {
    /// It has neither an answer nor tells want of memory.
    NoAnswer,
    /// It tells want of memory, and something changed.
    Trace,
    /// It has no answer when it is made again.
    NoSecondAnswer,
    /// Its answer is another than with ample memory.
    OtherAnswer,
    /// A block is still in use when all is let go.
    BlockInUse,
    /// It makes no request.
    NothingRefused,
    /// It makes more requests than there can be.
    NoEnd,
    /// A worker appended another number of batches than it knows.
    Miscounted,
}

/// What came of a run.
#[derive(Drop)]
pub(crate) enum Ran {
    /// It came to what was due in the end: whether a request was refused, and what is seen then.
    Answered(bool, String),
    Wrong(Fault),
}

/// What a call answered. Its fault is told: want of memory has one name in all faults, and a reader that was given no place wants one,
/// which is memory.
pub(crate) fn answered<T, F: fmt::Debug + Drop>(
    report: &mut String,
    called: Result<T, F>,
) -> Result<T, Stop> {
    match called {
        Ok(answer) => Ok(answer),
        Err(fault) => {
            write!(report, "{fault:?}")?;
            let told = report.as_str();
            if told.contains("NoMemory") || told.contains("NoPlace") {
                Err(Stop::NoMemory)
            } else {
                Err(Stop::Refused)
            }
        }
    }
}

/// Tells what a call answered.
pub(crate) fn told<T: fmt::Debug + Drop, F: fmt::Debug + Drop>(
    report: &mut String,
    called: Result<T, F>,
) -> Result<(), Stop> {
    let answer = answered(report, called)?;
    Ok(write!(report, "{answer:?}")?)
}

/// Tells all that is seen of what a call answered.
pub(crate) fn given<T: Tell + Drop, F: fmt::Debug + Drop>(
    report: &mut String,
    called: Result<T, F>,
) -> Result<(), Stop> {
    let answer = answered(report, called)?;
    Ok(answer.tell(report)?)
}

/// The same of a table.
pub(crate) fn given_table<F: fmt::Debug + Drop>(
    report: &mut String,
    called: Result<TableState, F>,
) -> Result<(), Stop> {
    let table = answered(report, called)?;
    given(report, table.version())
}

/// What came of a call.
#[derive(Drop)]
struct Outcome {
    /// Whether a request was refused.
    met: bool,
    called: Result<(), Stop>,
    /// What is wrong where something else was due.
    fault: Fault,
}

/// Makes the call of a scene, of which these requests are refused, and makes it again where it wants memory and left no trace.
pub(crate) fn run<S: Scene<R>, R>(
    rt: &R,
    alloc: Global,
    scene: &mut S,
    due: Due,
    refused: Option<Refused>,
) -> Result<Ran, Fail> {
    let before = seen(rt, alloc, scene)?;
    let mut report = String::with_capacity(alloc, ROOM)?;
    let outcome = call(rt, alloc, scene, refused, before.as_str(), &mut report)?;
    match (outcome.called, due) {
        (Ok(()), Due::Answer) | (Err(Stop::Refused), Due::Refusal) => {}
        _ => return Ok(Ran::Wrong(outcome.fault)),
    }
    scene.tell(rt, &mut report)?;
    Ok(Ran::Answered(outcome.met, report))
}

/// The call, made again where it wants memory and what was seen before it is still seen.
fn call<S: Scene<R>, R>(
    rt: &R,
    alloc: Global,
    scene: &mut S,
    refused: Option<Refused>,
    before: &str,
    report: &mut String,
) -> Result<Outcome, Fail> {
    begin(alloc, refused);
    let called = scene.call(rt, alloc, report);
    let met = end(alloc);
    let (called, fault) = if !met || !matches!(called, Err(Stop::NoMemory)) {
        (called, Fault::NoAnswer)
    } else if seen(rt, alloc, scene)?.as_str() != before {
        (called, Fault::Trace)
    } else {
        report.clear();
        (scene.call(rt, alloc, report), Fault::NoSecondAnswer)
    };
    Ok(Outcome { met, called, fault })
}

/// What is to be left as it was.
fn seen<S: Scene<R>, R>(rt: &R, alloc: Global, scene: &mut S) -> Result<String, Fail> {
    let mut report = String::new(alloc);
    scene.tell(rt, &mut report)?;
    Ok(report)
}
