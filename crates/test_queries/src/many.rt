//! Answers of many groups, which are put together and made on threads.

use crate::answering::answered;
use crate::numbered::file_of;
use answers::OpenGate;
use std::alloc::{AllocError, Global};
use std::test::Fail;

/// How many groups there are. Half of them, as many as each piece of four has, are more than are put together, or made, in one thread.
const GROUPS: u32 = 10_000;

/// How many rows each group has, what their numbers add up to, and the number.
const QUERY: &str =
    r#"{"by":["v"],"aggs":[{"agg":"rows"},{"agg":"sum","column":"v"},{"agg":"least","column":"v"}]}"#;

/// The numbers of all groups, and then the same once more.
fn twice(alloc: Global) -> Result<Vec<u32>, AllocError> {
    let mut numbers = Vec::new(alloc);
    for row in 0..2 * GROUPS {
        numbers.push(row % GROUPS)?;
    }
    Ok(numbers)
}

/// The lines of all groups.
fn lines(alloc: Global) -> Result<String, AllocError> {
    let mut lines = String::new(alloc);
    for number in 0..GROUPS {
        let sum = 2 * number;
        lines.push_str(format!(in alloc; "{number} 2 {sum} {number}\n")?.as_str())?;
    }
    Ok(lines)
}

#[test]
fn many_groups_are_reported_in_their_order(rt: HostRuntime) -> Result<(), Fail> {
    let file = file_of(rt.alloc(), &twice(rt.alloc())?)?;
    let wanted = lines(rt.alloc())?;
    for pieces in [1, 2, 4, 64] {
        let report = answered(&rt, rt.alloc(), (file.as_str(), QUERY), pieces, &OpenGate)?;
        assert!(rt; report.as_str() == wanted.as_str(), "in {pieces}");
    }
    Ok(())
}
