//! Groups as arrays of JSON and as records of CSV.

use super::runs::FILE;
use super::{Case, expect_all};

/// Texts that CSV has within quotes, and that JSON escapes, an empty one and null, in a column whose name has a comma.
const TEXTS: &str =
    r#"{"schema":{"fields":[{"name":"k,1","nullable":true,"type":{"name":"utf8"}},{"name":"n","nullable":true,"type":{"name":"int","bitWidth":64,"isSigned":false}},{"name":"b","nullable":true,"type":{"name":"bool"}}]},"batches":[{"count":7,"columns":[{"name":"k","count":7,"VALIDITY":[1,1,1,1,0,1,1],"DATA":["plain","a,b","say \"x\"","","","two\nlines","cr\r"]},{"name":"n","count":7,"VALIDITY":[1,1,1,1,1,1,0],"DATA":["18446744073709551615","1","2","3","4","5","0"]},{"name":"b","count":7,"VALIDITY":[1,1,1,1,1,1,0],"DATA":[1,0,1,0,1,0,0]}]}]}"#;

const QUERY: &str =
    r#"{"by":["k,1","b"],"aggs":[{"agg":"rows"},{"agg":"count","column":"n"},{"agg":"sum","column":"n"},{"agg":"least","column":"k,1"},{"agg":"greatest","column":"b"}]}"#;

const JSON: &[&str] = &[
    "arrowtab", "query", "--output", "json", "--query", QUERY, "A",
];

const CSV: &[&str] = &[
    "arrowtab", "query", "--output", "csv", "--query", QUERY, "A",
];

const JSON_SUM: &[&str] = &[
    "arrowtab",
    "query",
    "--output=json",
    "--query",
    r#"{"aggs":[{"agg":"sum","column":"n"}]}"#,
    "A",
    "B",
];

const CSV_SUM: &[&str] = &[
    "arrowtab",
    "query",
    "--output=csv",
    "--query",
    r#"{"aggs":[{"agg":"sum","column":"n"}]}"#,
    "A",
];

const JSON_NOTHING: &[&str] = &["arrowtab", "query", "--output=json", "--query", "{}", "A"];

const CSV_NOTHING: &[&str] = &["arrowtab", "query", "--output=csv", "--query", "{}", "A"];

const CSV_KEYS: &[&str] = &[
    "arrowtab",
    "query",
    "--output=csv",
    "--query",
    r#"{"by":["n"]}"#,
    "A",
];

const CSV_REFUSED: &[&str] = &[
    "arrowtab",
    "query",
    "--output=csv",
    "--query",
    r#"{"by":["m"]}"#,
    "A",
];

const ARRAYS: &str = r#"["plain",true,1,1,18446744073709551615,"plain",true]
["a,b",false,1,1,1,"a,b",false]
["say \"x\"",true,1,1,2,"say \"x\"",true]
["",false,1,1,3,"",false]
[null,true,1,1,4,null,true]
["two\nlines",false,1,1,5,"two\nlines",false]
["cr\r",null,1,0,null,"cr\r",null]
"#;

const RECORDS: &str = "\"k,1\",b,rows,count(n),sum(n),\"least(k,1)\",greatest(b)\r
plain,true,1,1,18446744073709551615,plain,true\r
\"a,b\",false,1,1,1,\"a,b\",false\r
\"say \"\"x\"\"\",true,1,1,2,\"say \"\"x\"\"\",true\r
\"\",false,1,1,3,\"\",false\r
,true,1,1,4,,true\r
\"two\nlines\",false,1,1,5,\"two\nlines\",false\r
\"cr\r\",,1,0,,\"cr\r\",\r
";

/// A query, one file or two, and what is printed.
static ASKED: [Case; 9] = [
    (JSON, TEXTS, None, ARRAYS),
    (CSV, TEXTS, None, RECORDS),
    (JSON_SUM, FILE, Some(FILE), "[18446744073709551612]\n"),
    (CSV_SUM, TEXTS, None, "sum(n)\r\n18446744073709551630\r\n"),
    (JSON_NOTHING, FILE, None, "[]\n"),
    (CSV_NOTHING, FILE, None, "\r\n\r\n"),
    (
        CSV_KEYS,
        FILE,
        None,
        "n\r\n9223372036854775807\r\n\r\n-1\r\n",
    ),
    (CSV_REFUSED, FILE, None, "arrowtab: query: Q1 NoColumn\n"),
    (JSON, FILE, None, "arrowtab: query: Q1 NoColumn\n"),
];

#[test]
fn groups_are_printed_in_each_form(rt: HostRuntime) {
    expect_all(&rt, rt.alloc(), &ASKED);
}
