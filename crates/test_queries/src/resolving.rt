use crate::building::{over, rows_where, schema};
use answers::QueryFault::{AmbiguousColumn, NoColumn, WrongKind};
use answers::{Expr, Op, Query, QueryFault, QueryText, resolve};
use arrayvec::ArrayVec;
use arrow_json::read_query;
use std::alloc::Global;
use std::process::Abort;
use std::test::Fail;

/// Asserts what a query's fault is, and that it fits where it has none.
fn assert_fault(
    rt: &impl Abort,
    alloc: Global,
    query: &QueryText,
    fault: Option<QueryFault>,
) -> Result<(), Fail> {
    let schema = schema(alloc)?;
    match resolve(alloc, query, &schema) {
        Ok(resolved) => assert!(rt; fault == None && resolved.fits(&schema), "{query:?}"),
        Err(report) => assert!(rt; Some(report) == fault, "{report:?} for {query:?}"),
    }
    Ok(())
}

/// What stands for PART in a query, and the query's fault then.
type Cases = &'static [(&'static str, Option<QueryFault>)];

/// Asserts what the fault of a query is in each case.
fn expect_each(rt: &impl Abort, alloc: Global, query: &str, cases: Cases) -> Result<(), Fail> {
    for (part, fault) in cases {
        let text = query.replace(alloc, "PART", *part)?;
        let query = read_query(alloc, text.as_bytes())?;
        assert_fault(rt, alloc, &query, *fault)?;
    }
    Ok(())
}

/// A query of a filter.
const FILTER: &str = r#"{"filter":PART,"aggs":[{"agg":"rows"}]}"#;

/// Numbers beside columns, on either side.
const NUMBERS: Cases = &[
    (
        r#"{"op":"gt","args":[{"column":"v"},{"int":2147483648}]}"#,
        Some(WrongKind),
    ),
    (
        r#"{"op":"gt","args":[{"int":2147483648},{"column":"v"}]}"#,
        Some(WrongKind),
    ),
    (
        r#"{"op":"gt","args":[{"column":"v"},{"int":2147483647}]}"#,
        None,
    ),
    (
        r#"{"op":"gt","args":[{"int":2147483647},{"column":"v"}]}"#,
        None,
    ),
    (
        r#"{"op":"gt","args":[{"column":"v"},{"int":-2147483648}]}"#,
        None,
    ),
    (
        r#"{"op":"gt","args":[{"int":-2147483648},{"column":"v"}]}"#,
        None,
    ),
    (
        r#"{"op":"eq","args":[{"column":"u"},{"int":18446744073709551615}]}"#,
        None,
    ),
    (
        r#"{"op":"eq","args":[{"int":18446744073709551615},{"column":"u"}]}"#,
        None,
    ),
    (
        r#"{"op":"eq","args":[{"column":"u"},{"int":-1}]}"#,
        Some(WrongKind),
    ),
    (
        r#"{"op":"eq","args":[{"int":-1},{"column":"u"}]}"#,
        Some(WrongKind),
    ),
    (
        r#"{"op":"eq","args":[{"column":"b"},{"int":1}]}"#,
        Some(WrongKind),
    ),
    (
        r#"{"op":"eq","args":[{"int":1},{"column":"b"}]}"#,
        Some(WrongKind),
    ),
    (
        r#"{"op":"lt","args":[{"column":"k"},{"int":1}]}"#,
        Some(WrongKind),
    ),
    (
        r#"{"op":"lt","args":[{"int":1},{"column":"k"}]}"#,
        Some(WrongKind),
    ),
    (
        r#"{"op":"add","args":[{"column":"v"},{"int":1}]}"#,
        Some(WrongKind),
    ),
    (
        r#"{"op":"add","args":[{"int":1},{"column":"v"}]}"#,
        Some(WrongKind),
    ),
];

#[test]
fn numbers_take_the_type_beside_them(rt: HostRuntime) -> Result<(), Fail> {
    expect_each(&rt, rt.alloc(), FILTER, NUMBERS)
}

/// Numbers alone, and beside other numbers.
const OTHER_NUMBERS: Cases = &[
    (r#"{"op":"is_null","args":[{"int":1}]}"#, None),
    (r#"{"op":"eq","args":[{"int":1},{"int":1}]}"#, None),
    (
        r#"{"op":"is_null","args":[{"int":9223372036854775807}]}"#,
        None,
    ),
    (
        r#"{"op":"eq","args":[{"int":9223372036854775807},{"int":1}]}"#,
        None,
    ),
    (
        r#"{"op":"is_null","args":[{"int":9223372036854775808}]}"#,
        Some(WrongKind),
    ),
    (
        r#"{"op":"eq","args":[{"int":9223372036854775808},{"int":1}]}"#,
        Some(WrongKind),
    ),
    (
        r#"{"op":"is_null","args":[{"int":18446744073709551615}]}"#,
        Some(WrongKind),
    ),
    (
        r#"{"op":"eq","args":[{"int":18446744073709551615},{"int":1}]}"#,
        Some(WrongKind),
    ),
    (r#"{"int":1}"#, Some(WrongKind)),
];

#[test]
fn other_numbers_have_64_bits(rt: HostRuntime) -> Result<(), Fail> {
    expect_each(&rt, rt.alloc(), FILTER, OTHER_NUMBERS)
}

/// Sums beside columns. One of two numbers has 64 bits, and is no number as it is written.
const SUMS: Cases = &[
    (
        r#"{"op":"eq","args":[{"op":"add","args":[{"int":1},{"int":1}]},{"column":"v"}]}"#,
        Some(WrongKind),
    ),
    (
        r#"{"op":"eq","args":[{"op":"add","args":[{"column":"v"},{"int":1}]},{"column":"v"}]}"#,
        None,
    ),
    (
        r#"{"op":"eq","args":[{"op":"add","args":[{"column":"v"},{"int":1}]},{"column":"u"}]}"#,
        Some(WrongKind),
    ),
];

#[test]
fn sums_are_of_the_type_of_their_parts(rt: HostRuntime) -> Result<(), Fail> {
    expect_each(&rt, rt.alloc(), FILTER, SUMS)
}

/// An operator over columns, and the fault.
const OPERATORS: [(Op, &[&str], Option<QueryFault>); 18] = [
    (Op::Eq, &["k", "d"], None),
    (Op::Eq, &["v", "v"], None),
    (Op::Eq, &["v", "u"], Some(WrongKind)),
    (Op::Le, &["b", "b"], None),
    (Op::And, &["b", "b"], None),
    (Op::Or, &["b", "k"], Some(WrongKind)),
    (Op::Eq, &["l", "l"], Some(WrongKind)),
    (Op::Mul, &["k", "k"], Some(WrongKind)),
    (Op::Not, &["b", "b"], Some(WrongKind)),
    (Op::Not, &["b"], None),
    (Op::Not, &["k"], Some(WrongKind)),
    (Op::IsNull, &["l"], None),
    // Operands come before their operator, from left to right.
    (Op::Eq, &["none", "two"], Some(NoColumn)),
    (Op::Eq, &["two", "none"], Some(AmbiguousColumn)),
    (Op::Add, &["b", "none"], Some(NoColumn)),
    (Op::And, &["b", "b", "none"], Some(NoColumn)),
    (Op::And, &["b", "b", "b"], Some(WrongKind)),
    (Op::And, &[], Some(WrongKind)),
];

/// A text beside a column, and an operator, which comes before what follows it.
const OTHERS: Cases = &[
    (r#"{"op":"eq","args":[{"column":"k"},{"text":"b"}]}"#, None),
    (
        r#"{"op":"and","args":[{"op":"not","args":[{"column":"k"}]},{"column":"none"}]}"#,
        Some(WrongKind),
    ),
];

#[test]
fn operators_take_their_kinds(rt: HostRuntime) -> Result<(), Fail> {
    for (op, names, fault) in OPERATORS {
        let query = rows_where(rt.alloc(), over(rt.alloc(), op, names)?)?;
        assert_fault(&rt, rt.alloc(), &query, fault)?;
    }
    expect_each(&rt, rt.alloc(), FILTER, OTHERS)
}

/// Columns that are keys, or of which the ends are reported.
const KEYS: Cases = &[
    ("k", None),
    ("v", None),
    ("b", None),
    ("d", None),
    ("l", Some(WrongKind)),
    ("none", Some(NoColumn)),
    ("two", Some(AmbiguousColumn)),
];

#[test]
fn keys_and_ends_take_their_kinds(rt: HostRuntime) -> Result<(), Fail> {
    expect_each(&rt, rt.alloc(), r#"{"by":["PART"]}"#, KEYS)?;
    let least = r#"{"aggs":[{"agg":"least","column":"PART"}]}"#;
    expect_each(&rt, rt.alloc(), least, KEYS)?;
    let greatest = r#"{"aggs":[{"agg":"greatest","column":"PART"}]}"#;
    expect_each(&rt, rt.alloc(), greatest, KEYS)
}

/// Columns that are summed.
const ADDED: Cases = &[
    ("k", Some(WrongKind)),
    ("v", None),
    ("b", Some(WrongKind)),
    ("d", Some(WrongKind)),
    ("l", Some(WrongKind)),
    ("none", Some(NoColumn)),
    ("two", Some(AmbiguousColumn)),
];

/// Columns that are counted.
const COUNTED: Cases = &[
    ("k", None),
    ("v", None),
    ("b", None),
    ("d", None),
    ("l", None),
    ("none", Some(NoColumn)),
    ("two", Some(AmbiguousColumn)),
];

#[test]
fn sums_and_counts_take_their_kinds(rt: HostRuntime) -> Result<(), Fail> {
    let sum = r#"{"aggs":[{"agg":"sum","column":"PART"}]}"#;
    expect_each(&rt, rt.alloc(), sum, ADDED)?;
    let count = r#"{"aggs":[{"agg":"count","column":"PART"}]}"#;
    expect_each(&rt, rt.alloc(), count, COUNTED)
}

/// Queries, and what they are over positions.
const POSITIONS: [(&str, &str); 2] = [
    (
        r#"{"filter":{"op":"gt","args":[{"op":"add","args":[{"column":"v"},{"int":1}]},{"int":5}]}}"#,
        "Some(Op(Gt, [Op(Add, [Column(1), Int(1)]), Int(5)])) [] []",
    ),
    (
        r#"{"by":["d"],"aggs":[{"agg":"rows"},{"agg":"count","column":"l"},{"agg":"sum","column":"u"},{"agg":"least","column":"k"},{"agg":"greatest","column":"b"}]}"#,
        "None [4] [Rows, Count(5), Sum(2), Least(0), Greatest(3)]",
    ),
];

#[test]
fn names_become_positions(rt: HostRuntime) -> Result<(), Fail> {
    let a = rt.alloc();
    for (text, wanted) in POSITIONS {
        let query = resolve(a, &read_query(a, text.as_bytes())?, &schema(a)?)?;
        let written = format!(in a; "{:?} {:?} {:?}", query.filter, query.by, query.aggs)?;
        assert!(rt; written.as_str() == wanted, "{written}");
    }
    Ok(())
}

#[test]
fn positions_are_within_the_fields(rt: HostRuntime) -> Result<(), Fail> {
    let a = rt.alloc();
    let schema = schema(a)?;
    for (place, fits) in [(7, true), (8, false), (u32::MAX, false), (0, false)] {
        let query = Query {
            filter: Some(Expr::Column(place)),
            by: ArrayVec::new(),
            aggs: Vec::new(a),
        };
        assert!(rt; query.fits(&schema) == fits, "{place}");
    }
    Ok(())
}
