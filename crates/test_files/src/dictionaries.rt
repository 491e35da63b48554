//! Files with dictionaries, which are read from their bytes wherever these stand, and however a lawful entry is written.

use crate::lawful::expect_read;
use json_file::read_text;
use std::alloc::Global;
use std::test::Fail;

/// Two fields of the dictionary 7, one of the dictionary -1 between them, and batches of three rows.
const SCHEMA: &str =
    r#""schema":{"fields":[{"name":"a","nullable":true,"type":{"name":"utf8"},"children":[],"dictionary":{"id":7,"indexType":{"name":"int","bitWidth":8,"isSigned":true}}},{"name":"b","nullable":true,"type":{"name":"utf8"},"dictionary":{"id":-1,"indexType":{"name":"int","bitWidth":64,"isSigned":false}}},{"name":"c","nullable":true,"type":{"name":"utf8"},"dictionary":{"id":"7","indexType":{"name":"int","bitWidth":16,"isSigned":true}}}]}"#;

const BATCHES: &str =
    r#""batches":[{"count":3,"columns":[{"count":3,"DATA":[0,1,2]},{"count":3,"VALIDITY":[0,1,1],"DATA":[9,0,"0"]},{"count":3,"DATA":[2,2,0]}]},{"count":0,"columns":[{"count":0,"DATA":[]},{"count":0,"DATA":[]},{"count":0,"DATA":[]}]}]"#;

/// Entries of the dictionaries 7, of three texts or more, and -1, of one or more.
static DICTIONARIES: [&str; 12] = [
    r#"[{"id":7,"data":{"count":3,"columns":[{"count":3,"DATA":["a","b","c"]}]}},{"id":-1,"data":{"count":1,"columns":[{"count":1,"DATA":[""]}]}}]"#,
    r#"[{"data":{"columns":[{"DATA":["b"],"count":1}],"count":1},"id":-1},{"data":{"columns":[{"DATA":["c","b","a"],"count":3}],"count":3},"id":7}]"#,
    r#"[{"id":7,"data":[{"count":3,"columns":[{"count":3,"DATA":["a","b","c"]}]}]},{"data":[ {"columns":[{"DATA":["x"],"count":1}],"count":1} ],"id":-1}]"#,
    r#" [ { "id" : 7 , "data" : { "count" : 4 , "columns" : [ { "name" : "n" , "count" : 4 , "VALIDITY" : [1,0,true,1] , "OFFSET" : [0] , "DATA" : ["a\u00e9\n",7,"",""] } ] } } , { "id" : -1 , "data" : [ { "count" : 1 , "columns" : [ { "count" : 1 , "DATA" : ["\ud83d\ude00}]"] } ] } ] } ] "#,
    r#"[{"id":7,"isDelta":false,"data":{"id":7,"count":3,"columns":[{"count":3,"DATA":["a","a","a"],"VALIDITY":[0,0,0]}],"other":[{}]}},{"id":-1,"data":{"count":2,"columns":[{"count":2,"DATA":["x","x"]}]},"more":"]"}]"#,
    r#"[{"id":0},{"id":1,"data":1},{"id":1,"data":{"count":2,"columns":[{"count":1,"DATA":["a"]}]}},{"id":7,"data":{"count":3,"columns":[{"count":3,"DATA":["a","b","c"]}]}},{"id":2,"data":[]},{"id":-1,"data":{"count":1,"columns":[{"count":1,"DATA":["x"]}]}},{"id":3,"data":{"count":1,"columns":[{"count":1,"DATA":["y"]}]}}]"#,
    r#"[{"id":0,"data":{"count":1,"columns":[]}},{"id":1,"data":{"count":1,"columns":[{"count":1,"DATA":[1]}]}},{"id":7,"data":{"count":3,"columns":[{"count":3,"DATA":["a","b","c"]}]}},{"id":2,"data":[{"count":0,"columns":[{"count":0,"DATA":[]}]},{}]},{"id":-1,"data":{"count":1,"columns":[{"count":1,"DATA":["x"]}]}}]"#,
    r#"[{"id":-1,"id":7,"data":1,"data":{"count":3,"columns":[{"count":3,"DATA":["a","b","c"]}]}},{"data":{"count":1,"columns":[{"count":1,"DATA":["y"]}]},"id":7,"data":{"count":1,"columns":[{"count":1,"DATA":["x"]}]},"id":-1}]"#,
    r#"[{"id":7,"data":{"count":1,"columns":[{"count":1,"DATA":["z"]}],"count":3,"columns":[{"count":3,"DATA":["a","b","c"]}]}},{"id":-1,"data":[{"columns":[{"count":1,"DATA":["x"]}],"count":7,"count":1}]}]"#,
    r#"[{"id":"7","data":{"count":3,"columns":[{"count":3,"DATA":["a","b","c"]}]}},{"id":"-1","data":{"count":1,"columns":[{"count":1,"DATA":["x"]}]}}]"#,
    r#"[{"id":9223372036854775807,"data":{"count":0,"columns":[{"count":0,"DATA":[]}]}},{"id":7,"data":{"count":3,"columns":[{"count":3,"VALIDITY":null,"DATA":["a","b","c"]}]}},{"id":-9223372036854775808,"data":null},{"id":-1,"data":{"count":1,"columns":[{"count":1,"DATA":["x"]}]}}]"#,
    r#"[{"\u0069d":7,"d\u0061ta":{"count":3,"columns":[{"count":3,"DATA":["a","b","c"]}]}},{"id":-1,"data":{"c\u006funt":1,"columns":[{"count":1,"DATA":["x"]}]}}]"#,
];

#[test]
fn dictionaries_stand_anywhere(rt: HostRuntime) -> Result<(), Fail> {
    let alloc = rt.alloc();
    for dictionaries in &DICTIONARIES {
        let dictionaries = format!(in alloc; "\"dictionaries\":{dictionaries}")?;
        let members = dictionaries.as_str();
        let orders = [
            [SCHEMA, members, BATCHES],
            [members, SCHEMA, BATCHES],
            [SCHEMA, BATCHES, members],
            [members, BATCHES, SCHEMA],
            [BATCHES, SCHEMA, members],
            [BATCHES, members, SCHEMA],
        ];
        for [first, second, third] in &orders {
            let text = format!(in alloc; "{{{first},{second},{third}}}")?;
            expect_read(&rt, alloc, text.as_str())?;
        }
    }
    Ok(())
}

/// What a file says as its dictionaries of which no field is encoded, if anything.
static UNNAMED: [&str; 6] = [
    "",
    r#""dictionaries":[],"#,
    r#""dictionaries":{"id":1.5},"#,
    r#""dictionaries":[{"data":[]},7],"#,
    r#""dictionaries":null,"#,
    r#""dictionaries":1,"dictionaries":[{"id":1,"data":{"count":1,"columns":[{"count":1,"DATA":["a"]}]}}],"#,
];

/// A schema of one field that isn't encoded, and a batch.
const PLAIN: &str =
    r#""schema":{"fields":[{"name":"n","nullable":true,"children":[],"type":{"name":"int","bitWidth":8,"isSigned":true}}]},"batches":[{"count":1,"columns":[{"count":1,"DATA":[1]}]}]"#;

#[test]
fn dictionaries_that_nobody_names_are_passed_over(rt: HostRuntime) -> Result<(), Fail> {
    for dictionaries in &UNNAMED {
        let text = format!(in rt.alloc(); "{{{dictionaries}{PLAIN}}}")?;
        expect_read(&rt, rt.alloc(), text.as_str())?;
    }
    Ok(())
}

/// The same dictionaries at fault: a count of fewer texts, and of more, a number nowhere and one twice, two batches, two columns, what is no
/// text, and an entry without a number.
static FAULTY: [&str; 8] = [
    r#"[{"id":7,"data":{"count":2,"columns":[{"count":3,"DATA":["a","b","c"]}]}},{"id":-1,"data":{"count":1,"columns":[{"count":1,"DATA":["x"]}]}}]"#,
    r#"[{"id":7,"data":{"count":4,"columns":[{"count":3,"DATA":["a","b","c"]}]}},{"id":-1,"data":{"count":1,"columns":[{"count":1,"DATA":["x"]}]}}]"#,
    r#"[{"id":7,"data":{"count":3,"columns":[{"count":3,"DATA":["a","b","c"]}]}}]"#,
    r#"[{"id":7,"data":{"count":3,"columns":[{"count":3,"DATA":["a","b","c"]}]}},{"id":-1,"data":{"count":1,"columns":[{"count":1,"DATA":["x"]}]}},{"id":7,"data":{"count":3,"columns":[{"count":3,"DATA":["a","b","c"]}]}}]"#,
    r#"[{"id":7,"data":[{"count":3,"columns":[{"count":3,"DATA":["a","b","c"]}]},{"count":3,"columns":[{"count":3,"DATA":["a","b","c"]}]}]},{"id":-1,"data":{"count":1,"columns":[{"count":1,"DATA":["x"]}]}}]"#,
    r#"[{"id":7,"data":{"count":3,"columns":[{"count":3,"DATA":["a","b","c"]},{"count":3,"DATA":["a","b","c"]}]}},{"id":-1,"data":{"count":1,"columns":[{"count":1,"DATA":["x"]}]}}]"#,
    r#"[{"id":7,"data":{"count":3,"columns":[{"count":3,"DATA":["a","b",1]}]}},{"id":-1,"data":{"count":1,"columns":[{"count":1,"DATA":["x"]}]}}]"#,
    r#"[{"data":{"count":3,"columns":[{"count":3,"DATA":["a","b","c"]}]}},{"id":-1,"data":{"count":1,"columns":[{"count":1,"DATA":["x"]}]}}]"#,
];

/// Whether neither reader takes a file with these dictionaries.
fn is_read_by_none(alloc: Global, dictionaries: &str) -> Result<bool, Fail> {
    let text = format!(in alloc; "{{{SCHEMA},\"dictionaries\":{dictionaries},{BATCHES}}}")?;
    let tree = json_read::read_file(alloc, text.as_bytes());
    Ok(read_text(alloc, text.as_str()).is_err() && tree.is_err())
}

#[test]
fn dictionaries_at_fault_are_read_by_none(rt: HostRuntime) -> Result<(), Fail> {
    for dictionaries in &FAULTY {
        assert!(&rt;
            is_read_by_none(rt.alloc(), *dictionaries)?,
            "{dictionaries}"
        );
    }
    Ok(())
}
