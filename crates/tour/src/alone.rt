//! A table of one thread: batches are added, and a query is asked.

use selqumar_core::{Array, DataType, Fault, Field, INT64, RecordBatch, Schema, TableState, ask};
use std::alloc::Global;
use std::thread::Threads;

/// How many people live in each city.
const QUERY: &str = r#"{"by":["city"],"aggs":[{"agg":"rows"},{"agg":"sum","column":"people"}]}"#;

/// Prints what a table of two batches answers.
pub(crate) fn tell<T: Threads + Sync>(threads: &T, rt: &HostRuntime) -> Result<(), Fault> {
    let alloc = rt.alloc();
    let mut table = TableState::new(alloc, schema(alloc)?)?;
    table.admit(0, &batch(alloc, "Lisbon", 545_923)?)?;
    table.admit(0, &batch(alloc, "Braga", 193_324)?)?;
    let version = table.version()?;
    for group in ask(threads, alloc, &version, QUERY)?.groups {
        println!(rt; "{group:?}")?;
    }
    Ok(())
}

/// Two columns: a city, and how many people live there.
pub(crate) fn schema(alloc: Global) -> Result<Schema, Fault> {
    let city = Field::nullable(alloc, "city", DataType::Utf8)?;
    let people = Field::nullable(alloc, "people", DataType::Int(INT64))?;
    Ok(Schema::new(vec![in alloc; city, people]?)?)
}

/// A batch of one row.
pub(crate) fn batch(alloc: Global, city: &str, people: i64) -> Result<RecordBatch, Fault> {
    let cities = Array::of_texts(alloc, &[Some(city)])?;
    let numbers = Array::of_ints(alloc, &[Some(people)])?;
    Ok(RecordBatch::new(schema(alloc)?, 1, vec![in alloc; cities, numbers]?)?)
}
