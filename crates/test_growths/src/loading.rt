//! Files that workers load at once.

ghost use Rattle.std.specs.Prelude.{◌<◌, length};
ghost use Rattle.shared.specs.Named.{IsNamed};

use crate::permit::Permit;
use crate::refusals::{Refused, begin, end};
use crate::run::{Fault, Ran};
use crate::samples::SampleFile;
use crate::stage::tell_workers;
use crate::sweep::Trial;
use crate::tell::tell_rows;
use arrays::File;
use selqumar_core::{LoadFault, OpenGate, load_all};
use shared::{
    Naming, Opening, Publish, Reader, Receipt, SharedTable, Shown, Version, Worker, open,
};
use std::alloc::Global;
use std::marker::Brand;
use std::sync::Wait;
use std::test::Fail;
use std::thread::Threads;

/// Two workers load a file each, the second this one, into a new table that so many readers look at.
#[derive(Clone, Copy)]
pub(crate) struct Loading(u32, SampleFile);

#[rattlefmt::skip]
pub(crate) static CASES: [(&str, Loading); 3] = [
    ("load_all", Loading(1, SampleFile::OneMore)),
    ("load_all, no readers", Loading(0, SampleFile::OneMore)),
    ("load_all, a file of other fields", Loading(1, SampleFile::OneColumn)),
];

impl<R: Threads + Wait + Sync> Trial<R> for Loading {
    /// What was appended stays where memory is wanted, so a new table is loaded then.
    fn run(&self, rt: &R, alloc: Global, refused: Option<Refused>) -> Result<Ran, Fail> {
        let rt = Permit::of(rt);
        match load(&rt, alloc, *self, refused)? {
            Ran::Wrong(Fault::NoSecondAnswer) => match load(&rt, alloc, *self, None)? {
                Ran::Answered(_, report) => Ok(Ran::Answered(true, report)),
                wrong => Ok(wrong),
            },
            ran => Ok(ran),
        }
    }
}

/// What comes of a load, of which these requests are refused: no second answer yet where memory is wanted.
fn load<R: Threads + Wait + Sync>(
    rt: &R,
    alloc: Global,
    loading: Loading,
    refused: Option<Refused>,
) -> Result<Ran, Fail> {
    let file = SampleFile::TwoBatches.read(alloc)?;
    let opening = Opening::new(alloc, file.schema().copy(alloc)?, 2)?;
    load_under::<Brand, R>(rt, alloc, opening, loading, refused)
}

/// The same, under the table's name.
fn load_under<N: Naming + Send + Sync, R: Threads + Wait + Sync>(
    rt: &R,
    alloc: Global,
    opening: Opening,
    loading: Loading,
    refused: Option<Refused>,
) -> Result<Ran, Fail>
    requires { IsNamed N.book N.fields N.calls N.rows N.columns N.workers opening }
{
    let Loading(readers, second) = loading;
    let opened = open::<N, &R>(rt, alloc, opening, readers)?;
    load_by(rt, alloc, opened, second, refused)
}

/// The same, by the workers of a new table.
fn load_by<N: Naming + Send + Sync, P: Publish<Item = Shown<N>> + Send, R: Threads + Wait + Sync>(
    rt: &R,
    alloc: Global,
    opened: (SharedTable<N, P>, Vec<Worker<N>>, Vec<Reader<N>>),
    second: SampleFile,
    refused: Option<Refused>,
) -> Result<Ran, Fail>
    requires { 0 < length opened.1.items }
{
    let (table, mut workers, mut readers) = opened;
    let files = both(alloc, second)?;
    begin(alloc, refused);
    let called = load_all(rt, rt, alloc, &table, &mut workers, &files, &OpenGate);
    let met = end(alloc);
    let Some(worker) = workers.first_mut() else {
        return Ok(Ran::Wrong(Fault::NoAnswer));
    };
    let version = table.snapshot(rt, worker)?;
    came_to(alloc, met, called, &version, &workers, &mut readers)
}

/// The files of both workers.
fn both(alloc: Global, second: SampleFile) -> Result<[File; 2], Fail> {
    Ok([SampleFile::TwoBatches.read(alloc)?, second.read(alloc)?])
}

/// What comes of a load in which a request was refused or not.
fn came_to<N: Naming>(
    alloc: Global,
    met: bool,
    called: Result<Vec<Receipt<N>>, LoadFault>,
    version: &Version,
    workers: &[Worker<N>],
    readers: &mut [Reader<N>],
) -> Result<Ran, Fail> {
    if !are_counted(version, workers) {
        return Ok(Ran::Wrong(Fault::Miscounted));
    }
    match called {
        Ok(receipts) => {
            let report = report(alloc, &receipts, version, workers, readers)?;
            Ok(Ran::Answered(met, report))
        }
        Err(LoadFault::NoMemory) if met => Ok(Ran::Wrong(Fault::NoSecondAnswer)),
        Err(LoadFault::NoMemory) => Ok(Ran::Wrong(Fault::NoAnswer)),
        // What the other worker could append is open.
        Err(fault) => Ok(Ran::Answered(met, format!(in alloc; "{fault}")?)),
    }
}

/// Whether each worker made as many calls as it has batches in the table.
fn are_counted<N: Naming>(version: &Version, workers: &[Worker<N>]) -> bool {
    for worker in workers {
        let mut batches: u32 = 0;
        for i in 0..version.book_len() {
            if version.book_at(i).worker == worker.number() {
                batches = batches.wrapping_add(1);
            }
        }
        if batches != worker.calls() {
            return false;
        }
    }
    true
}

/// What is seen whoever was first: how many receipts there are and up to which entry, what each worker appended, and how many
/// rows each reader sees.
fn report<N: Naming>(
    alloc: Global,
    receipts: &[Receipt<N>],
    version: &Version,
    workers: &[Worker<N>],
    readers: &mut [Reader<N>],
) -> Result<String, Fail> {
    let mut report = String::new(alloc);
    tell_receipts(&mut report, receipts, version)?;
    tell_workers(&mut report, workers)?;
    for worker in workers {
        tell_batches_of(&mut report, version, worker.number())?;
    }
    tell_readers(&mut report, readers)?;
    Ok(report)
}

/// Tells how many receipts there are, the last entry of these, and how many rows the table has.
fn tell_receipts<N: Naming>(
    report: &mut String,
    receipts: &[Receipt<N>],
    version: &Version,
) -> Result<(), Fail> {
    let (count, last, rows) = (receipts.len(), last_entry(receipts), version.rows());
    Ok(write!(report, "{count} receipts up to {last}, {rows} rows ")?)
}

/// The last entry of receipts, 0 where there is none.
fn last_entry<N: Naming>(receipts: &[Receipt<N>]) -> u32 {
    let mut last = 0;
    for receipt in receipts {
        last = receipt.entry().max(last);
    }
    last
}

/// Tells how many rows each reader sees.
fn tell_readers<N: Naming>(report: &mut String, readers: &mut [Reader<N>]) -> Result<(), Fail> {
    for reader in readers.iter_mut() {
        let rows = reader.latest()?.rows();
        write!(report, "{rows} ")?;
    }
    Ok(())
}

/// Tells the batches of a worker, one after the other.
fn tell_batches_of(report: &mut String, version: &Version, worker: u32) -> Result<(), Fail> {
    for (i, batch) in version.batches().iter().enumerate() {
        if i < version.book_len() as usize && version.book_at(i as u32).worker == worker {
            tell_rows(report, batch)?;
        }
    }
    Ok(())
}
