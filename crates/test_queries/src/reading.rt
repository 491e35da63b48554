//! Queries of JSON: what is read of them, and what is reported of those that can't be read.

use answers::QueryText;
use arrow_json::{fault_text, read_query};
use std::alloc::Global;
use std::process::Abort;
use std::test::Fail;

/// What is read of a query, as text.
fn written(alloc: Global, query: &QueryText) -> Result<String, Fail> {
    Ok(format!(in alloc; "{:?} {:?} {:?}", query.filter, query.by, query.aggs)?)
}

/// What is read of a query, or what is reported of it.
fn report_of(alloc: Global, bytes: &[u8]) -> Result<String, Fail> {
    match read_query(alloc, bytes) {
        Ok(query) => written(alloc, &query),
        Err(fault) => Ok(fault_text(alloc, &fault)?),
    }
}

/// Asserts what is read of a query, or what is reported of it.
fn expect_bytes(rt: &impl Abort, alloc: Global, bytes: &[u8], wanted: &str) -> Result<(), Fail> {
    let report = report_of(alloc, bytes)?;
    assert_eq!(rt; report.as_str(), wanted);
    Ok(())
}

/// What stands for MEMBERS in a query, and what is read of it then, or reported.
type Cases = &'static [(&'static str, &'static str)];

/// Asserts what is read of a query in each case, or what is reported of it.
fn expect_each(rt: &impl Abort, alloc: Global, query: &str, cases: Cases) -> Result<(), Fail> {
    for (members, wanted) in cases {
        let text = query.replace(alloc, "MEMBERS", *members)?;
        expect_bytes(rt, alloc, text.as_bytes(), *wanted)?;
    }
    Ok(())
}

/// Whole queries.
const QUERIES: Cases = &[
    ("{}", "None [] []"),
    (
        r#"{"filter":null,"by":[],"aggs":[],"limit":7}"#,
        "None [] []",
    ),
    (
        r#"{"by":["k"],"aggs":[{"agg":"sum","column":"v"}]}"#,
        r#"None ["k"] [Sum("v")]"#,
    ),
    (
        r#"{"filter":{"op":"gt","args":[{"op":"add","args":[{"column":"v"},{"int":2147483645}]},{"int":0}]},"aggs":[{"agg":"rows"}]}"#,
        r#"Some(Op(Gt, [Op(Add, [Column("v"), Int(2147483645)]), Int(0)])) [] [Rows]"#,
    ),
    (
        r#"{"by":["a","b","","a"]}"#,
        r#"None ["a", "b", "", "a"] []"#,
    ),
    (
        r#"{"aggs":[{"agg":"rows","column":5},{"agg":"count","column":"c"},{"agg":"sum","column":"s"},{"agg":"least","column":"l"},{"agg":"greatest","column":"g"}]}"#,
        r#"None [] [Rows, Count("c"), Sum("s"), Least("l"), Greatest("g")]"#,
    ),
    (r#"{"by":["a"],"by":["b"]}"#, r#"None ["b"] []"#),
    (r#"{"by":["b"],"by":5}"#, "J3 WrongMember at /by"),
    ("", "J1 NotJson"),
    ("{", "J1 NotJson"),
    ("{} {}", "J1 NotJson"),
    ("[]", "J3 WrongMember"),
    ("null", "J3 WrongMember"),
    (r#""filter""#, "J3 WrongMember"),
    (r#"{"filter":false}"#, "J3 WrongMember at /filter"),
    (r#"{"by":null}"#, "J3 WrongMember at /by"),
    (r#"{"by":"k"}"#, "J3 WrongMember at /by"),
    (r#"{"by":{}}"#, "J3 WrongMember at /by"),
    (r#"{"by":["a","b","c","d","e"]}"#, "J3 WrongMember at /by"),
    (r#"{"by":["a",5]}"#, "J3 WrongMember at /by/1"),
    (r#"{"by":["a","b",null]}"#, "J3 WrongMember at /by/2"),
    (r#"{"aggs":null}"#, "J3 WrongMember at /aggs"),
    (r#"{"aggs":{}}"#, "J3 WrongMember at /aggs"),
    (r#"{"aggs":[null]}"#, "J3 WrongMember at /aggs/0"),
    (r#"{"aggs":["rows"]}"#, "J3 WrongMember at /aggs/0"),
    (
        r#"{"aggs":[{"agg":"rows"},{}]}"#,
        "J2 MissingMember at /aggs/1/agg",
    ),
    (
        r#"{"aggs":[{"agg":null}]}"#,
        "J3 WrongMember at /aggs/0/agg",
    ),
    (
        r#"{"aggs":[{"agg":"mean","column":"v"}]}"#,
        "J3 WrongMember at /aggs/0/agg",
    ),
    (
        r#"{"aggs":[{"agg":"Rows"}]}"#,
        "J3 WrongMember at /aggs/0/agg",
    ),
    (
        r#"{"aggs":[{"agg":"count"}]}"#,
        "J2 MissingMember at /aggs/0/column",
    ),
    (
        r#"{"aggs":[{"agg":"sum","column":null}]}"#,
        "J3 WrongMember at /aggs/0/column",
    ),
    (
        r#"{"aggs":[{"agg":"least","column":["v"]}]}"#,
        "J3 WrongMember at /aggs/0/column",
    ),
    (
        r#"{"aggs":[{"agg":"greatest"}]}"#,
        "J2 MissingMember at /aggs/0/column",
    ),
];

#[test]
fn queries_are_read_or_reported(rt: HostRuntime) -> Result<(), Fail> {
    expect_each(&rt, rt.alloc(), "MEMBERS", QUERIES)
}

/// A query of a filter alone.
const FILTER: &str = r#"{"filter":MEMBERS}"#;

/// Filters of one level.
const FILTERS: Cases = &[
    ("{}", "J3 WrongMember at /filter"),
    ("[]", "J3 WrongMember at /filter"),
    (r#"{"args":[]}"#, "J3 WrongMember at /filter"),
    (r#"{"column":"n","int":5}"#, "J3 WrongMember at /filter"),
    (r#"{"text":"t","int":null}"#, "J3 WrongMember at /filter"),
    (
        r#"{"column":"n","op":"not","args":[{"column":"n"}]}"#,
        "J3 WrongMember at /filter",
    ),
    (
        r#"{"column":"n","int":5,"text":"t","op":"eq"}"#,
        "J3 WrongMember at /filter",
    ),
    (r#"{"column":"n"}"#, r#"Some(Column("n")) [] []"#),
    (r#"{"column":"n","args":5}"#, r#"Some(Column("n")) [] []"#),
    (
        r#"{"column":"a","column":"b"}"#,
        r#"Some(Column("b")) [] []"#,
    ),
    (r#"{"column":5}"#, "J3 WrongMember at /filter/column"),
    (r#"{"column":null}"#, "J3 WrongMember at /filter/column"),
    (r#"{"text":""}"#, r#"Some(Text("")) [] []"#),
    (r#"{"text":"5"}"#, r#"Some(Text("5")) [] []"#),
    (r#"{"text":5}"#, "J3 WrongMember at /filter/text"),
    (r#"{"text":null}"#, "J3 WrongMember at /filter/text"),
];

#[test]
fn columns_and_texts_are_read_or_reported(rt: HostRuntime) -> Result<(), Fail> {
    expect_each(&rt, rt.alloc(), FILTER, FILTERS)
}

const NO_NUMBER: &str = "J5 BadNumber at /filter/int";

/// What stands for a whole number.
const NUMBERS: Cases = &[
    ("5", "Some(Int(5)) [] []"),
    (r#""5""#, "Some(Int(5)) [] []"),
    ("0", "Some(Int(0)) [] []"),
    ("-0", NO_NUMBER),
    (r#""-0""#, "Some(Int(0)) [] []"),
    (r#""007""#, "Some(Int(7)) [] []"),
    (
        "18446744073709551615",
        "Some(Int(18446744073709551615)) [] []",
    ),
    (
        r#""18446744073709551615""#,
        "Some(Int(18446744073709551615)) [] []",
    ),
    (
        "-9223372036854775808",
        "Some(Int(-9223372036854775808)) [] []",
    ),
    (
        r#""-9223372036854775808""#,
        "Some(Int(-9223372036854775808)) [] []",
    ),
    ("18446744073709551616", NO_NUMBER),
    (r#""18446744073709551616""#, NO_NUMBER),
    ("-9223372036854775809", NO_NUMBER),
    (r#""-9223372036854775809""#, NO_NUMBER),
    ("1234567890123456789012345678901234567890", NO_NUMBER),
    (r#""1234567890123456789012345678901234567890""#, NO_NUMBER),
    (r#""-1234567890123456789012345678901234567890""#, NO_NUMBER),
    ("5.0", NO_NUMBER),
    ("1e2", NO_NUMBER),
    (r#""""#, NO_NUMBER),
    (r#""-""#, NO_NUMBER),
    (r#""+5""#, NO_NUMBER),
    ("null", NO_NUMBER),
    ("[5]", NO_NUMBER),
];

#[test]
fn whole_numbers_are_read_or_reported(rt: HostRuntime) -> Result<(), Fail> {
    expect_each(&rt, rt.alloc(), r#"{"filter":{"int":MEMBERS}}"#, NUMBERS)
}

/// Operators over a number and a text.
const OVER_TWO: Cases = &[
    ("add", r#"Some(Op(Add, [Int(1), Text("t")])) [] []"#),
    ("sub", r#"Some(Op(Sub, [Int(1), Text("t")])) [] []"#),
    ("mul", r#"Some(Op(Mul, [Int(1), Text("t")])) [] []"#),
    ("eq", r#"Some(Op(Eq, [Int(1), Text("t")])) [] []"#),
    ("ne", r#"Some(Op(Ne, [Int(1), Text("t")])) [] []"#),
    ("lt", r#"Some(Op(Lt, [Int(1), Text("t")])) [] []"#),
    ("le", r#"Some(Op(Le, [Int(1), Text("t")])) [] []"#),
    ("gt", r#"Some(Op(Gt, [Int(1), Text("t")])) [] []"#),
    ("ge", r#"Some(Op(Ge, [Int(1), Text("t")])) [] []"#),
    ("and", r#"Some(Op(And, [Int(1), Text("t")])) [] []"#),
    ("or", r#"Some(Op(Or, [Int(1), Text("t")])) [] []"#),
];

const ONE_OPERAND: &str = "J3 WrongMember at /filter/args";

/// The same over a number alone.
const OVER_ONE: Cases = &[
    ("add", ONE_OPERAND),
    ("sub", ONE_OPERAND),
    ("mul", ONE_OPERAND),
    ("eq", ONE_OPERAND),
    ("ne", ONE_OPERAND),
    ("lt", ONE_OPERAND),
    ("le", ONE_OPERAND),
    ("gt", ONE_OPERAND),
    ("ge", ONE_OPERAND),
    ("and", ONE_OPERAND),
    ("or", ONE_OPERAND),
];

#[test]
fn operators_of_two_operands_take_two(rt: HostRuntime) -> Result<(), Fail> {
    let two = r#"{"filter":{"op":"MEMBERS","args":[{"int":1},{"text":"t"}]}}"#;
    expect_each(&rt, rt.alloc(), two, OVER_TWO)?;
    let one = r#"{"filter":{"op":"MEMBERS","args":[{"int":1}]}}"#;
    expect_each(&rt, rt.alloc(), one, OVER_ONE)
}

/// Operators.
const OPERATIONS: Cases = &[
    (
        r#"{"op":"not","args":[{"column":"b"}]}"#,
        r#"Some(Op(Not, [Column("b")])) [] []"#,
    ),
    (
        r#"{"args":[{"column":"b"}],"op":"is_null","name":5}"#,
        r#"Some(Op(IsNull, [Column("b")])) [] []"#,
    ),
    (
        r#"{"op":null,"args":[{"column":"b"}]}"#,
        "J3 WrongMember at /filter/op",
    ),
    (
        r#"{"op":"xor","args":[{"column":"b"},{"column":"b"}]}"#,
        "J3 WrongMember at /filter/op",
    ),
    (
        r#"{"op":"Not","args":[{"column":"b"}]}"#,
        "J3 WrongMember at /filter/op",
    ),
    (
        r#"{"op":"","args":[{"column":"b"}]}"#,
        "J3 WrongMember at /filter/op",
    ),
    (r#"{"op":"not"}"#, "J2 MissingMember at /filter/args"),
    (
        r#"{"op":"not","args":null}"#,
        "J3 WrongMember at /filter/args",
    ),
    (
        r#"{"op":"not","args":{"column":"b"}}"#,
        "J3 WrongMember at /filter/args",
    ),
    (
        r#"{"op":"not","args":[]}"#,
        "J3 WrongMember at /filter/args",
    ),
    (
        r#"{"op":"not","args":[{"column":"b"},{"column":"b"}]}"#,
        "J3 WrongMember at /filter/args",
    ),
    (
        r#"{"op":"is_null","args":[{"column":"b"},{"column":"b"}]}"#,
        "J3 WrongMember at /filter/args",
    ),
    (
        r#"{"op":"and","args":[{"column":"b"},{"column":"b"},{"column":"b"}]}"#,
        "J3 WrongMember at /filter/args",
    ),
    (
        r#"{"op":"not","args":[null]}"#,
        "J3 WrongMember at /filter/args/0",
    ),
    (
        r#"{"op":"eq","args":[{"int":1},{}]}"#,
        "J3 WrongMember at /filter/args/1",
    ),
    (
        r#"{"op":"eq","args":[{"int":1},{"op":"not","args":[{"int":"x"}]}]}"#,
        "J5 BadNumber at /filter/args/1/args/0/int",
    ),
    (
        r#"{"op":"eq","args":[{"int":1},{"op":"not"}]}"#,
        "J2 MissingMember at /filter/args/1/args",
    ),
    (
        r#"{"op":"eq","args":[{"op":"gt","args":[{"text":"t"},{"text":false}]},{"int":1}]}"#,
        "J3 WrongMember at /filter/args/0/args/1/text",
    ),
];

#[test]
fn operators_are_read_or_reported(rt: HostRuntime) -> Result<(), Fail> {
    expect_each(&rt, rt.alloc(), FILTER, OPERATIONS)
}

/// A text with others in one another: what stands in front, what opens so many times, what stands in them, what closes them, and what stands behind.
type Nested = (
    &'static str,
    &'static str,
    usize,
    &'static str,
    &'static str,
    &'static str,
);

fn nested(alloc: Global, text: Nested) -> Result<String, Fail> {
    let (front, open, times, inner, close, back) = text;
    let open = open.repeat(alloc, times)?;
    let close = close.repeat(alloc, times)?;
    Ok(format!(in alloc; "{front}{open}{inner}{close}{back}")?)
}

const NOT: &str = r#"{"op":"not","args":["#;

const COLUMN: &str = r#"{"column":"b"}"#;

/// What is read of no filter.
const NOTHING: Nested = ("None [] []", "", 0, "", "", "");

const NOT_JSON: Nested = ("J1 NotJson", "", 0, "", "", "");

/// Queries, and what is read of them or reported.
const DEEP: [(Nested, Nested); 6] = [
    ((r#"{"limit":"#, "[", 126, "", "]", "}"), NOTHING),
    ((r#"{"limit":"#, "[", 127, "", "]", "}"), NOT_JSON),
    ((r#"{"limit":"#, "[", 100_000, "", "]", "}"), NOT_JSON),
    (
        (r#"{"filter":"#, NOT, 62, COLUMN, "]}", "}"),
        ("Some(", "Op(Not, [", 62, r#"Column("b")"#, "])", ") [] []"),
    ),
    ((r#"{"filter":"#, NOT, 63, COLUMN, "]}", "}"), NOT_JSON),
    // Arguments are counted before they are read.
    (
        (
            r#"{"filter":{"op":"and","args":["#,
            r#"{"column":"b"},"#,
            9_999,
            COLUMN,
            "",
            "]}}",
        ),
        (ONE_OPERAND, "", 0, "", "", ""),
    ),
];

/// Asserts what is read of a query, or what is reported of it, where both are of texts in one another.
fn expect_nested(rt: &impl Abort, alloc: Global, text: Nested, wanted: Nested) -> Result<(), Fail> {
    let text = nested(alloc, text)?;
    let wanted = nested(alloc, wanted)?;
    expect_bytes(rt, alloc, text.as_bytes(), wanted.as_str())
}

#[test]
fn queries_are_read_as_deep_as_a_text_is_nested(rt: HostRuntime) -> Result<(), Fail> {
    for (text, wanted) in DEEP {
        expect_nested(&rt, rt.alloc(), text, wanted)?;
    }
    Ok(())
}

#[test]
fn bytes_that_are_no_text_are_reported(rt: HostRuntime) -> Result<(), Fail> {
    expect_bytes(&rt, rt.alloc(), b"{\"by\":[\"\xff\"]}", "J1 NotJson")
}
