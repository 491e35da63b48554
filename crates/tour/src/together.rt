//! A table that two workers append to and a reader reads: its batches are joined, a column is added, and a query is asked.

use crate::alone::{batch, schema};
use selqumar_core::{
    DataType, Fault, Field, Naming, OpenFault, Publish, Reader, Receipt, Session, SharedTable,
    Shown, Version, Worker, ask, with_table,
};
use std::sync::{Arc, Wait};
use std::thread::Threads;

/// How many people live in each city, and how many of them have a mayor.
const QUERY: &str =
    r#"{"by":["city"],"aggs":[{"agg":"rows"},{"agg":"sum","column":"people"},{"agg":"count","column":"mayor"}]}"#;

/// Opens a table for two workers and a reader, and prints what it holds in the end.
pub(crate) fn tell<W: Wait, T: Threads + Sync>(
    wait: &W,
    threads: &T,
    rt: &HostRuntime,
) -> Result<(), Fault> {
    let alloc = rt.alloc();
    let (version, workers) = with_table(wait, alloc, schema(alloc)?, 2, 1, Visit { wait, rt })??;
    for group in ask(threads, alloc, &version, QUERY)?.groups {
        println!(rt; "{group:?}")?;
    }
    println!(rt; "{workers} workers")?;
    Ok(())
}

/// What is done with the table.
#[derive(Drop)]
struct Visit<'a, W> {
    wait: &'a W,
    rt: &'a HostRuntime,
}

impl<'a, W: Wait> Session for Visit<'a, W> {
    type Output = Result<(Arc<Version>, usize), Fault>;

    /// Nothing but this table, its workers and its readers has the name N.
    fn run<N: Naming, P: Publish<Item = Shown<N>>>(
        self,
        table: SharedTable<N, P>,
        workers: Vec<Worker<N>>,
        readers: Vec<Reader<N>>,
    ) -> Result<(Arc<Version>, usize), Fault> {
        let (mut workers, mut readers) = (workers, readers);
        let receipt = grow(self.wait, self.rt, &table, &mut workers)?;

        // A receipt may be given to anyone: what a reader then sees has the batch. It takes no lock.
        for reader in readers.iter_mut() {
            reader.learn(&receipt);
            let rows = reader.latest()?.rows();
            println!(self.rt; "{rows} rows")?;
        }

        // All workers together know each one's share.
        match table.gather(self.wait, workers) {
            Ok(gathered) => Ok((gathered.version, gathered.workers.len())),
            Err(fault) => Err(Fault::Gather(fault.cause)),
        }
    }
}

/// Appends three batches, joins them and adds a column. The receipt is of the first.
fn grow<N: Naming, P: Publish<Item = Shown<N>>, W: Wait>(
    wait: &W,
    rt: &HostRuntime,
    table: &SharedTable<N, P>,
    workers: &mut [Worker<N>],
) -> Result<Receipt<N>, Fault> {
    let alloc = rt.alloc();
    let Some((first, others)) = workers.split_first_mut() else {
        return Err(Fault::Open(OpenFault::NoWorkers));
    };
    let receipt = table.append(wait, first, &batch(alloc, "Lisbon", 545_923)?)?;
    for other in others.iter_mut() {
        table.append(wait, other, &batch(alloc, "Braga", 193_324)?)?;
        table.append(wait, other, &batch(alloc, "Lisbon", 1)?)?;
    }
    table.compact(wait, first, 1000)?;
    let mayor = Field::nullable(alloc, "mayor", DataType::Utf8)?;
    table.add_column(wait, first, mayor)?;
    Ok(receipt)
}
