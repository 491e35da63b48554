//! A table that is gathered.

use crate::run::{Scene, Stop, told};
use crate::stage::tell_workers;
use crate::tell::Tell;
use shared::{GatherCause, Naming, Publish, SharedTable, Shown, Worker};
use std::alloc::Global;
use std::sync::Wait;
use std::test::Fail;

/// A table, until it is gathered, and its workers.
#[derive(Drop)]
pub(crate) struct Gathering<N: Naming, P: Publish<Item = Shown<N>>> {
    pub(crate) table: Option<SharedTable<N, P>>,
    pub(crate) workers: Option<Vec<Worker<N>>>,
}

impl<N: Naming, P: Publish<Item = Shown<N>>, R: Wait> Scene<R> for Gathering<N, P> {
    fn call(&mut self, rt: &R, _alloc: Global, report: &mut String) -> Result<(), Stop> {
        let (Some(table), Some(workers)) = (self.table.take(), self.workers.take()) else {
            return Err(Stop::Refused);
        };
        match table.gather(rt, workers) {
            Ok(gathered) => {
                self.workers = Some(gathered.workers);
                Ok(gathered.version.tell(report)?)
            }
            Err(fault) => {
                self.table = Some(fault.table);
                self.workers = Some(fault.workers);
                told(report, Err::<(), GatherCause>(fault.cause))
            }
        }
    }

    /// What the table shows is given by the answer.
    fn tell(&mut self, _rt: &R, report: &mut String) -> Result<(), Fail> {
        let is_there = self.table.is_some();
        write!(report, "{is_there} ")?;
        if let Some(workers) = &self.workers {
            tell_workers(report, workers)?;
        }
        Ok(())
    }
}
