//! Filters, as they are at the rows of a slice.

use answers::{Query, resolve};
use arrays::{RecordBatch, View, ViewType};
use arrow_json::{read_file, read_query};
use evaluate::filter::evaluate_filter;
use evaluate::slice::Slice;
use evaluate::values::Values;
use std::alloc::{AllocError, Global};
use std::process::Abort;
use std::test::Fail;

/// Four rows: texts, numbers of 32 bits and of 64 bits without a sign, texts in a dictionary, truth values.
const FILE: &str = r#"{
"schema":{"fields":[
{"name":"k","nullable":true,"type":{"name":"utf8"},"children":[]},
{"name":"v","nullable":true,"type":{"name":"int","bitWidth":32,"isSigned":true},"children":[]},
{"name":"w","nullable":true,"type":{"name":"int","bitWidth":64,"isSigned":false},"children":[]},
{"name":"d","nullable":true,"type":{"name":"utf8"},"children":[],
"dictionary":{"id":0,"indexType":{"name":"int","bitWidth":8,"isSigned":true},"isOrdered":false}},
{"name":"b","nullable":true,"type":{"name":"bool"},"children":[]}]},
"dictionaries":[{"id":0,"data":{"count":2,"columns":[
{"name":"d","count":2,"VALIDITY":[1,1],"OFFSET":[0,1,2],"DATA":["b","a"]}]}}],
"batches":[{"count":4,"columns":[
{"name":"k","count":4,"VALIDITY":[0,1,0,1],"OFFSET":[0,0,1,1,2],"DATA":["","b","","a"]},
{"name":"v","count":4,"VALIDITY":[1,1,1,0],"DATA":[1,2,3,0]},
{"name":"w","count":4,"VALIDITY":[1,1,1,1],"DATA":["18446744073709551615","0","1","2"]},
{"name":"d","count":4,"VALIDITY":[1,1,0,1],"DATA":[1,0,0,1]},
{"name":"b","count":4,"VALIDITY":[1,1,0,1],"DATA":[1,0,0,1]}]}]}"#;

/// Filters, and what each is at some rows.
type Filters = &'static [(&'static str, &'static str)];

const GREAT_SUM: &str =
    r#"{"op":"gt","args":[{"op":"add","args":[{"column":"v"},{"int":2147483645}]},{"int":0}]}"#;

/// What filters are at all four rows: true, false, null, or the least bad row.
const FILTERS: Filters = &[
    ("null", "each row"),
    (r#"{"column":"b"}"#, "tf-t"),
    (GREAT_SUM, "Bad(2)"),
    (
        r#"{"op":"lt","args":[{"int":0},{"op":"add","args":[{"int":2147483645},{"column":"v"}]}]}"#,
        "Bad(2)",
    ),
    (
        r#"{"op":"gt","args":[{"op":"mul","args":[{"column":"v"},{"int":1073741824}]},{"int":0}]}"#,
        "Bad(1)",
    ),
    (
        r#"{"op":"ge","args":[{"op":"sub","args":[{"column":"w"},{"int":1}]},{"int":0}]}"#,
        "Bad(1)",
    ),
    (
        r#"{"op":"or","args":[{"op":"is_null","args":[{"column":"k"}]},{"op":"gt","args":[{"op":"add","args":[{"column":"v"},{"int":2147483645}]},{"int":0}]}]}"#,
        "Bad(2)",
    ),
    (
        r#"{"op":"eq","args":[{"op":"sub","args":[{"int":5},{"column":"v"}]},{"int":3}]}"#,
        "ftf-",
    ),
    (
        r#"{"op":"eq","args":[{"column":"k"},{"text":"b"}]}"#,
        "-t-f",
    ),
    (
        r#"{"op":"gt","args":[{"text":"b"},{"column":"k"}]}"#,
        "-f-t",
    ),
    (
        r#"{"op":"eq","args":[{"column":"k"},{"column":"d"}]}"#,
        "-t-t",
    ),
    (
        r#"{"op":"lt","args":[{"column":"d"},{"text":"b"}]}"#,
        "tf-t",
    ),
    (
        r#"{"op":"ne","args":[{"column":"b"},{"column":"b"}]}"#,
        "ff-f",
    ),
    (r#"{"op":"le","args":[{"column":"w"},{"int":1}]}"#, "fttf"),
    (r#"{"op":"not","args":[{"column":"b"}]}"#, "ft-f"),
    (
        r#"{"op":"and","args":[{"column":"b"},{"op":"gt","args":[{"column":"v"},{"int":1}]}]}"#,
        "ff--",
    ),
    (
        r#"{"op":"or","args":[{"column":"b"},{"op":"gt","args":[{"column":"v"},{"int":1}]}]}"#,
        "tttt",
    ),
    (r#"{"op":"is_null","args":[{"column":"v"}]}"#, "ffft"),
    (r#"{"op":"is_null","args":[{"int":5}]}"#, "ffff"),
    (r#"{"op":"is_null","args":[{"text":""}]}"#, "ffff"),
    (r#"{"op":"lt","args":[{"int":1},{"int":2}]}"#, "tttt"),
    (r#"{"op":"eq","args":[{"text":"a"},{"text":"b"}]}"#, "ffff"),
    (
        r#"{"op":"eq","args":[{"op":"add","args":[{"int":3},{"int":4}]},{"int":7}]}"#,
        "tttt",
    ),
    (
        r#"{"op":"gt","args":[{"op":"add","args":[{"int":9223372036854775807},{"int":1}]},{"int":0}]}"#,
        "Bad(0)",
    ),
];

/// The sum that is too great, over parts of the rows.
const SLICES: [(usize, usize, Filters); 7] = [
    (0, 4, &[(GREAT_SUM, "Bad(2)")]),
    (0, 2, &[(GREAT_SUM, "tt")]),
    (1, 2, &[(GREAT_SUM, "Bad(1)")]),
    (2, 1, &[(GREAT_SUM, "Bad(0)")]),
    (3, 1, &[(GREAT_SUM, "-")]),
    (0, 0, &[(GREAT_SUM, "")]),
    (4, 0, &[(GREAT_SUM, "")]),
];

/// The query of a filter over the rows of a batch.
fn query_where(alloc: Global, batch: &RecordBatch, filter: &str) -> Result<Query, Fail> {
    let text = format!(in alloc; r#"{{"filter":{filter}}}"#)?;
    let query = read_query(alloc, text.as_bytes())?;
    Ok(resolve(alloc, &query, batch.schema())?)
}

/// A letter for a truth value, or for none.
fn letter(value: Option<bool>) -> &'static str {
    match value {
        Some(true) => "t",
        Some(false) => "f",
        None => "-",
    }
}

/// Adds a letter for each slot of a view of truth values.
fn push_letters(rt: &impl Abort, letters: &mut String, view: &View<'_>) -> Result<(), AllocError> {
    let ViewType::Bool = view.ty() else {
        panic!(rt; "these are no truth values");
    };
    for i in 0..view.len() {
        letters.push_str(letter(view.bool_at(i)))?;
    }
    Ok(())
}

/// A letter for each value of a filter.
fn letters(rt: &impl Abort, alloc: Global, values: &Values<'_>) -> Result<String, AllocError> {
    let Values::Column(column) = values else {
        panic!(rt; "there are no truth values");
    };
    let mut letters = String::new(alloc);
    push_letters(rt, &mut letters, &column.view())?;
    Ok(letters)
}

/// What a query's filter is at some rows.
fn filter_at(
    rt: &impl Abort,
    alloc: Global,
    batch: &RecordBatch,
    query: &Query,
    part: (usize, usize),
) -> Result<String, Fail> {
    let (start, len) = part;
    let rows = batch.rows() as usize;
    assert!(rt; rows <= 4);
    assert!(rt; start <= rows);
    assert!(rt; len <= rows - start);
    assert!(rt; query.fits(batch.schema()));
    match evaluate_filter(alloc, query, Slice { batch, start, len }) {
        Ok(None) => Ok(String::from_str(alloc, "each row")?),
        Ok(Some(values)) => Ok(letters(rt, alloc, &values)?),
        Err(stop) => Ok(format!(in alloc; "{stop:?}")?),
    }
}

/// Asserts what filters are at some rows of the file.
fn expect_filters(
    rt: &impl Abort,
    alloc: Global,
    part: (usize, usize),
    filters: Filters,
) -> Result<(), Fail> {
    let file = read_file(alloc, FILE.as_bytes())?;
    assert!(rt; file.batches().len() == 1);
    let batch = &file.batches()[0];
    for (filter, wanted) in filters {
        let query = query_where(alloc, batch, *filter)?;
        let report = filter_at(rt, alloc, batch, &query, part)?;
        assert!(rt; report.as_str() == *wanted, "{report} for {filter}");
    }
    Ok(())
}

#[test]
fn a_filter_is_true_false_null_or_bad_at_the_least_row(rt: HostRuntime) -> Result<(), Fail> {
    expect_filters(&rt, rt.alloc(), (0, 4), FILTERS)
}

#[test]
fn rows_are_counted_from_the_first_of_a_slice(rt: HostRuntime) -> Result<(), Fail> {
    for (start, len, filters) in SLICES {
        expect_filters(&rt, rt.alloc(), (start, len), filters)?;
    }
    Ok(())
}
