//! The same answer in any number of pieces.

use crate::answering::answered;
use answers::OpenGate;
use std::alloc::Global;
use std::process::Abort;
use std::test::Fail;
use std::thread::Threads;

/// In how many pieces queries are answered.
const PIECES: [u32; 6] = [1, 2, 3, 4, 5, 64];

/// Texts beside numbers: null and 1, "b" and 2, null and 3, "a" and null.
pub(crate) const PAIRS: &str =
    r#"{"schema":{"fields":[{"name":"k","nullable":true,"type":{"name":"utf8"},"children":[]},{"name":"v","nullable":true,"type":{"name":"int","bitWidth":32,"isSigned":true},"children":[]}]},"batches":[{"count":4,"columns":[{"name":"k","count":4,"VALIDITY":[0,1,0,1],"OFFSET":[0,0,1,1,2],"DATA":["","b","","a"]},{"name":"v","count":4,"VALIDITY":[1,1,1,0],"DATA":[1,2,3,0]}]}]}"#;

/// The same columns without a batch.
const NO_BATCHES: &str =
    r#"{"schema":{"fields":[{"name":"k","nullable":true,"type":{"name":"utf8"},"children":[]},{"name":"v","nullable":true,"type":{"name":"int","bitWidth":32,"isSigned":true},"children":[]}]},"batches":[]}"#;

/// The same columns in a batch without a row.
const NO_ROWS: &str =
    r#"{"schema":{"fields":[{"name":"k","nullable":true,"type":{"name":"utf8"},"children":[]},{"name":"v","nullable":true,"type":{"name":"int","bitWidth":32,"isSigned":true},"children":[]}]},"batches":[{"count":0,"columns":[{"name":"k","count":0,"VALIDITY":[],"OFFSET":[0],"DATA":[]},{"name":"v","count":0,"VALIDITY":[],"DATA":[]}]}]}"#;

/// The numbers 1 and 3; 4, 5 and 1; 6.
const NUMBERS: &str =
    r#"{"schema":{"fields":[{"name":"v","nullable":true,"type":{"name":"int","bitWidth":32,"isSigned":true},"children":[]}]},"batches":[{"count":2,"columns":[{"name":"v","count":2,"VALIDITY":[1,1],"DATA":[1,3]}]},{"count":3,"columns":[{"name":"v","count":3,"VALIDITY":[1,1,1],"DATA":[4,5,1]}]},{"count":1,"columns":[{"name":"v","count":1,"VALIDITY":[1],"DATA":[6]}]}]}"#;

/// Rows of a text, one of a dictionary that names a text twice, a number, a truth value and a text:
/// `x lo 5 true pear`, `null hi -3 null fig` and `y lo null false` with an empty text; none;
/// `x null -2147483648 false null`, `z hi null null kiwi`, `null lo 7 true apple` and `x lo 2147483647 null quince`;
/// `y hi 0 true null`.
const MIXED: &str = r#"{
"schema":{"fields":[
{"name":"k","nullable":true,"type":{"name":"utf8"},"children":[]},
{"name":"d","nullable":true,"type":{"name":"utf8"},"children":[],
"dictionary":{"id":0,"indexType":{"name":"int","bitWidth":8,"isSigned":true},"isOrdered":false}},
{"name":"n","nullable":true,"type":{"name":"int","bitWidth":32,"isSigned":true},"children":[]},
{"name":"b","nullable":true,"type":{"name":"bool"},"children":[]},
{"name":"t","nullable":true,"type":{"name":"utf8"},"children":[]}]},
"dictionaries":[{"id":0,"data":{"count":3,"columns":[
{"name":"d","count":3,"VALIDITY":[1,1,1],"OFFSET":[0,2,4,6],"DATA":["lo","hi","lo"]}]}}],
"batches":[
{"count":3,"columns":[
{"name":"k","count":3,"VALIDITY":[1,0,1],"OFFSET":[0,1,1,2],"DATA":["x","","y"]},
{"name":"d","count":3,"VALIDITY":[1,1,1],"DATA":[0,1,2]},
{"name":"n","count":3,"VALIDITY":[1,1,0],"DATA":[5,-3,0]},
{"name":"b","count":3,"VALIDITY":[1,0,1],"DATA":[1,0,0]},
{"name":"t","count":3,"VALIDITY":[1,1,1],"OFFSET":[0,4,7,7],"DATA":["pear","fig",""]}]},
{"count":0,"columns":[
{"name":"k","count":0,"VALIDITY":[],"OFFSET":[0],"DATA":[]},
{"name":"d","count":0,"VALIDITY":[],"DATA":[]},
{"name":"n","count":0,"VALIDITY":[],"DATA":[]},
{"name":"b","count":0,"VALIDITY":[],"DATA":[]},
{"name":"t","count":0,"VALIDITY":[],"OFFSET":[0],"DATA":[]}]},
{"count":4,"columns":[
{"name":"k","count":4,"VALIDITY":[1,1,0,1],"OFFSET":[0,1,2,2,3],"DATA":["x","z","","x"]},
{"name":"d","count":4,"VALIDITY":[0,1,1,1],"DATA":[0,1,0,2]},
{"name":"n","count":4,"VALIDITY":[1,0,1,1],"DATA":[-2147483648,0,7,2147483647]},
{"name":"b","count":4,"VALIDITY":[1,0,1,0],"DATA":[0,0,1,0]},
{"name":"t","count":4,"VALIDITY":[0,1,1,1],"OFFSET":[0,0,4,9,15],"DATA":["","kiwi","apple","quince"]}]},
{"count":1,"columns":[
{"name":"k","count":1,"VALIDITY":[1],"OFFSET":[0,1],"DATA":["y"]},
{"name":"d","count":1,"VALIDITY":[1],"DATA":[1]},
{"name":"n","count":1,"VALIDITY":[1],"DATA":[0]},
{"name":"b","count":1,"VALIDITY":[1],"DATA":[1]},
{"name":"t","count":1,"VALIDITY":[0],"OFFSET":[0,0],"DATA":[""]}]}]}"#;

/// The sum of the numbers beside each text.
pub(crate) const SUMS: &str = r#"{"by":["k"],"aggs":[{"agg":"sum","column":"v"}]}"#;

/// The lines of these sums over `PAIRS`.
pub(crate) const PAIRS_SUMS: &str = "null 4\n\"b\" 2\n\"a\" null\n";

/// Asserts what a query over a file is answered, in any number of pieces.
fn expect(
    rt: &(impl Abort + Threads + Sync),
    alloc: Global,
    texts: (&str, &str),
    wanted: &str,
) -> Result<(), Fail> {
    for pieces in PIECES {
        let report = answered(rt, alloc, texts, pieces, &OpenGate)?;
        assert!(rt;
            report.as_str() == wanted,
            "{report} for {texts:?} in {pieces}"
        );
    }
    Ok(())
}

/// A file, a query, and the lines.
const ANSWERS: [(&str, &str, &str); 11] = [
    (PAIRS, SUMS, PAIRS_SUMS),
    // Numbers, of which one text has none.
    (
        MIXED,
        r#"{"by":["k"],"aggs":[{"agg":"rows"},{"agg":"count","column":"n"},{"agg":"sum","column":"n"},{"agg":"least","column":"n"},{"agg":"greatest","column":"n"}]}"#,
        "\"x\" 3 3 4 -2147483648 2147483647\nnull 2 2 4 -3 7\n\"y\" 2 1 0 0 0\n\"z\" 1 0 null null null\n",
    ),
    // Truth values and texts.
    (
        MIXED,
        r#"{"by":["k"],"aggs":[{"agg":"least","column":"b"},{"agg":"greatest","column":"b"},{"agg":"count","column":"t"},{"agg":"least","column":"t"},{"agg":"greatest","column":"t"}]}"#,
        "\"x\" false true 2 \"pear\" \"quince\"\nnull true true 2 \"apple\" \"fig\"\n\"y\" false true 1 \"\" \"\"\n\"z\" null null 1 \"kiwi\" \"kiwi\"\n",
    ),
    // By the texts of a dictionary.
    (
        MIXED,
        r#"{"by":["d"],"aggs":[{"agg":"rows"},{"agg":"sum","column":"n"},{"agg":"least","column":"k"}]}"#,
        "\"lo\" 4 2147483659 \"x\"\n\"hi\" 3 -3 \"y\"\nnull 1 -2147483648 \"x\"\n",
    ),
    // By truth values.
    (
        MIXED,
        r#"{"by":["b"],"aggs":[{"agg":"count","column":"d"},{"agg":"greatest","column":"d"},{"agg":"sum","column":"n"}]}"#,
        "true 3 \"lo\" 12\nnull 3 \"lo\" 2147483644\nfalse 1 \"lo\" -2147483648\n",
    ),
    // By numbers.
    (
        MIXED,
        r#"{"by":["n"],"aggs":[{"agg":"rows"}]}"#,
        "5 1\n-3 1\nnull 2\n-2147483648 1\n7 1\n2147483647 1\n0 1\n",
    ),
    // By two columns, and each row is a group.
    (
        MIXED,
        r#"{"by":["b","k"],"aggs":[{"agg":"sum","column":"n"}]}"#,
        "true \"x\" 5\nnull null -3\nfalse \"y\" null\nfalse \"x\" -2147483648\nnull \"z\" null\ntrue null 7\nnull \"x\" 2147483647\ntrue \"y\" 0\n",
    ),
    // Of the rows that a filter keeps; the last of their texts is null.
    (
        MIXED,
        r#"{"filter":{"op":"gt","args":[{"column":"n"},{"int":-5}]},"by":["k"],"aggs":[{"agg":"rows"},{"agg":"greatest","column":"t"}]}"#,
        "\"x\" 2 \"quince\"\nnull 2 \"fig\"\n\"y\" 1 null\n",
    ),
    // One group of all rows.
    (
        MIXED,
        r#"{"aggs":[{"agg":"rows"},{"agg":"count","column":"n"},{"agg":"sum","column":"n"},{"agg":"least","column":"d"},{"agg":"greatest","column":"b"}]}"#,
        "8 6 8 \"hi\" true\n",
    ),
    // Rows that are only counted.
    (MIXED, r#"{"aggs":[{"agg":"rows"}]}"#, "8\n"),
    (
        MIXED,
        r#"{"filter":{"column":"b"},"aggs":[{"agg":"rows"}]}"#,
        "3\n",
    ),
];

#[test]
fn the_answer_does_not_tell_the_pieces(rt: HostRuntime) -> Result<(), Fail> {
    for (file, query, wanted) in ANSWERS {
        expect(&rt, rt.alloc(), (file, query), wanted)?;
    }
    Ok(())
}

/// Files without a row, or filters that keep none, and what is reported of no rows.
const NOTHING: [(&str, &str, &str); 6] = [
    (
        NO_BATCHES,
        r#"{"aggs":[{"agg":"rows"},{"agg":"sum","column":"v"}]}"#,
        "0 null\n",
    ),
    (NO_BATCHES, SUMS, ""),
    (
        NO_ROWS,
        r#"{"aggs":[{"agg":"rows"},{"agg":"sum","column":"v"}]}"#,
        "0 null\n",
    ),
    (NO_ROWS, SUMS, ""),
    (
        PAIRS,
        r#"{"filter":{"op":"eq","args":[{"column":"k"},{"text":"c"}]},"aggs":[{"agg":"rows"},{"agg":"sum","column":"v"}]}"#,
        "0 null\n",
    ),
    (
        PAIRS,
        r#"{"filter":{"op":"eq","args":[{"column":"k"},{"text":"c"}]},"by":["k"]}"#,
        "",
    ),
];

#[test]
fn no_rows_are_a_group_where_there_are_no_keys(rt: HostRuntime) -> Result<(), Fail> {
    for (file, query, wanted) in NOTHING {
        expect(&rt, rt.alloc(), (file, query), wanted)?;
    }
    Ok(())
}

/// Filters that are bad at rows, the least of them first: in one piece or in several, whatever is required of the rows.
const BAD: [(&str, &str, &str); 6] = [
    // The third row alone.
    (
        PAIRS,
        r#"{"filter":{"op":"gt","args":[{"op":"add","args":[{"column":"v"},{"int":2147483645}]},{"int":0}]}}"#,
        "Q4 Overflow row=2",
    ),
    // The rows 1, 2, 3 and 5.
    (
        NUMBERS,
        r#"{"filter":{"op":"gt","args":[{"op":"add","args":[{"column":"v"},{"int":2147483645}]},{"int":0}]},"by":["v"]}"#,
        "Q4 Overflow row=1",
    ),
    // The same rows, only counted.
    (
        NUMBERS,
        r#"{"filter":{"op":"gt","args":[{"op":"add","args":[{"column":"v"},{"int":2147483645}]},{"int":0}]},"aggs":[{"agg":"rows"}]}"#,
        "Q4 Overflow row=1",
    ),
    // The rows 2, 3 and 5.
    (
        NUMBERS,
        r#"{"filter":{"op":"gt","args":[{"op":"mul","args":[{"column":"v"},{"int":536870912}]},{"int":0}]},"by":["v"]}"#,
        "Q4 Overflow row=2",
    ),
    // The rows 3 and 5.
    (
        NUMBERS,
        r#"{"filter":{"op":"gt","args":[{"op":"mul","args":[{"column":"v"},{"int":429496730}]},{"int":0}]},"by":["v"]}"#,
        "Q4 Overflow row=3",
    ),
    // The last row.
    (
        NUMBERS,
        r#"{"filter":{"op":"gt","args":[{"op":"mul","args":[{"column":"v"},{"int":400000000}]},{"int":0}]},"by":["v"]}"#,
        "Q4 Overflow row=5",
    ),
];

#[test]
fn the_least_bad_row_of_all_pieces_is_reported(rt: HostRuntime) -> Result<(), Fail> {
    for (file, query, wanted) in BAD {
        expect(&rt, rt.alloc(), (file, query), wanted)?;
    }
    Ok(())
}
