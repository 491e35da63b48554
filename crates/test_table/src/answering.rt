//! What a version answers, on threads and without any.

use crate::batches::{ONE_AND_TWO, THREE_AND_X};
use crate::scenes::{Flat, field_of};
use arrayvec::ArrayVec;
use shared::{Agg, Answer, OpenGate, Query, QueryFault, TableState, Version};
use std::alloc::Global;
use std::process::Abort;
use std::sync::Arc;
use std::test::Fail;
use test_samples::{batch_of, fields_of};

/// By the second column: how many rows there are, and the sum of the first.
fn by_second(alloc: Global) -> Result<Query, Fail> {
    let mut by = ArrayVec::new();
    by.push(1);
    Ok(Query {
        filter: None,
        by,
        aggs: vec![in alloc; Agg::Rows, Agg::Sum(0)]?,
    })
}

/// The version of a table to which 1 and 2 were added, a column m of texts, and then 3 with x.
fn with_x(alloc: Global) -> Result<Arc<Version>, Fail> {
    let mut table = TableState::new(alloc, fields_of(alloc, ONE_AND_TWO)?)?;
    table.admit(0, &batch_of(alloc, ONE_AND_TWO)?)?;
    table.add_column(field_of(alloc, ("m", true, 0, Flat::Utf8))?)?;
    table.admit(0, &batch_of(alloc, THREE_AND_X)?)?;
    Ok(table.version()?)
}

/// What is answered, as it is printed.
const GROUPS: &str =
    "Ok(Answer { groups: [Group { keys: [None], cells: [Some(Int(2)), Some(Int(3))] }, Group { keys: [Some(Text(\"x\"))], cells: [Some(Int(1)), Some(Int(3))] }] })";

#[test]
fn rows_are_grouped_by_a_new_column(rt: HostRuntime) -> Result<(), Fail> {
    let (version, query) = (with_x(rt.alloc())?, by_second(rt.alloc())?);
    assert!(rt; query.fits(version.schema()));
    expect(
        &rt,
        rt.alloc(),
        &version.answer(&rt, rt.alloc(), &query, 1, &OpenGate),
    )?;
    expect(
        &rt,
        rt.alloc(),
        &version.answer(&rt, rt.alloc(), &query, 2, &OpenGate),
    )?;
    expect(&rt, rt.alloc(), &version.answer_alone(rt.alloc(), &query))
}

/// Asserts that the groups are answered.
fn expect(rt: &impl Abort, alloc: Global, answer: &Result<Answer, QueryFault>) -> Result<(), Fail> {
    let answered = format!(in alloc; "{answer:?}")?;
    assert!(rt; answered.as_str() == GROUPS, "{answered}");
    Ok(())
}
