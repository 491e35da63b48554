//! Dictionary-encoded columns: their fields, their dictionaries and indices, and what is reported of them.

use super::{Cases, expect_each, expect_each_type};
use std::test::Fail;

/// A file of one field with these members, and no batch.
static FILE_OF_FIELD: &str =
    r#"{"schema":{"fields":[{"name":"s","nullable":true,MEMBERS}]},"dictionaries":[{"id":0,"data":{"count":0,"columns":[{"count":0,"DATA":[]}]}}],"batches":[]}"#;

/// The members of a field.
static FIELDS: Cases = &[
    (
        r#""type":{"name":"utf8"},"dictionary":{"id":"0","indexType":{"name":"int","bitWidth":64,"isSigned":false},"isOrdered":7}"#,
        "read",
    ),
    (
        r#""type":{"name":"utf8"},"dictionary":[]"#,
        "J3 WrongMember at /schema/fields/0/dictionary",
    ),
    (
        r#""type":{"name":"utf8"},"dictionary":{"indexType":{"name":"int","bitWidth":8,"isSigned":true}}"#,
        "J2 MissingMember at /schema/fields/0/dictionary/id",
    ),
    (
        r#""type":{"name":"utf8"},"dictionary":{"id":9223372036854775808,"indexType":{"name":"int","bitWidth":8,"isSigned":true}}"#,
        "J3 WrongMember at /schema/fields/0/dictionary/id",
    ),
    (
        r#""type":{"name":"utf8"},"dictionary":{"id":"zero","indexType":{"name":"int","bitWidth":8,"isSigned":true}}"#,
        "J3 WrongMember at /schema/fields/0/dictionary/id",
    ),
    (
        r#""type":{"name":"utf8"},"dictionary":{"id":0}"#,
        "J2 MissingMember at /schema/fields/0/dictionary/indexType",
    ),
    (
        r#""type":{"name":"utf8"},"dictionary":{"id":0,"indexType":"int"}"#,
        "J3 WrongMember at /schema/fields/0/dictionary/indexType",
    ),
    (
        r#""type":{"name":"utf8"},"dictionary":{"id":0,"indexType":{"name":"utf8"}}"#,
        "J4 UnsupportedType at /schema/fields/0/dictionary/indexType",
    ),
    (
        r#""type":{"name":"utf8"},"dictionary":{"id":0,"indexType":{"name":"int","bitWidth":7,"isSigned":true}}"#,
        "J4 UnsupportedType at /schema/fields/0/dictionary/indexType",
    ),
    (
        r#""type":{"name":"bool"},"dictionary":{"id":0,"indexType":{"name":"int","bitWidth":8,"isSigned":true}}"#,
        "J4 UnsupportedType at /schema/fields/0/type",
    ),
    (
        r#""type":{"name":"list"},"children":[],"dictionary":{"id":0,"indexType":{"name":"int","bitWidth":8,"isSigned":true}}"#,
        "J4 UnsupportedType at /schema/fields/0/type",
    ),
    (
        r#""type":{"name":"largeutf8"},"dictionary":{"id":0,"indexType":{"name":"int","bitWidth":8,"isSigned":true}}"#,
        "J4 UnsupportedType at /schema/fields/0/type",
    ),
    (
        r#""dictionary":{"id":0,"indexType":{"name":"int","bitWidth":8,"isSigned":true}}"#,
        "J2 MissingMember at /schema/fields/0/type",
    ),
    (
        r#""type":{"name":"utf8"},"children":[1],"dictionary":{"id":0,"indexType":{"name":"int","bitWidth":8,"isSigned":true}}"#,
        "J3 WrongMember at /schema/fields/0/children",
    ),
    (
        r#""type":{"name":"utf8"},"dictionary":{"id":8,"indexType":{"name":"int","bitWidth":8,"isSigned":true}}"#,
        "J8 NoDictionary at /schema/fields/0/dictionary/id",
    ),
];

#[test]
fn tells_the_faults_of_encoded_fields(rt: HostRuntime) -> Result<(), Fail> {
    expect_each(&rt, rt.alloc(), FILE_OF_FIELD, FIELDS)
}

/// A file of a field that names the dictionary 7, and these members.
static FILE_OF_ENTRIES: &str =
    r#"{"schema":{"fields":[{"name":"s","nullable":true,"type":{"name":"utf8"},"dictionary":{"id":7,"indexType":{"name":"int","bitWidth":8,"isSigned":true}}}]},"batches":[]MEMBERS}"#;

/// The members of a file.
static ENTRIES: Cases = &[
    ("", "J2 MissingMember at /dictionaries"),
    (r#","dictionaries":null"#, "J3 WrongMember at /dictionaries"),
    (
        r#","dictionaries":[]"#,
        "J8 NoDictionary at /schema/fields/0/dictionary/id",
    ),
    (
        r#","dictionaries":[7]"#,
        "J3 WrongMember at /dictionaries/0",
    ),
    (
        r#","dictionaries":[{}]"#,
        "J2 MissingMember at /dictionaries/0/id",
    ),
    (
        r#","dictionaries":[{"id":7.5}]"#,
        "J3 WrongMember at /dictionaries/0/id",
    ),
    (
        r#","dictionaries":[{"id":7}]"#,
        "J2 MissingMember at /dictionaries/0/data",
    ),
    (
        r#","dictionaries":[{"id":7,"data":3}]"#,
        "J3 WrongMember at /dictionaries/0/data",
    ),
    (
        r#","dictionaries":[{"id":7,"data":[]}]"#,
        "J3 WrongMember at /dictionaries/0/data",
    ),
    (
        r#","dictionaries":[{"id":7,"data":[{},{}]}]"#,
        "J3 WrongMember at /dictionaries/0/data",
    ),
    (
        r#","dictionaries":[{"id":7,"data":[3]}]"#,
        "J3 WrongMember at /dictionaries/0/data/0",
    ),
    (
        r#","dictionaries":[{"id":7,"data":{"count":0,"columns":[]}}]"#,
        "J7 CountDiffers at /dictionaries/0/data/columns",
    ),
    (
        r#","dictionaries":[{"id":7,"data":[{"count":2,"columns":[{"count":1,"DATA":["a"]}]}]}]"#,
        "J7 CountDiffers at /dictionaries/0/data/0/columns/0/count",
    ),
    (
        r#","dictionaries":[{"id":7,"data":{"count":2,"columns":[{"count":2,"DATA":["a",3]}]}}]"#,
        "J3 WrongMember at /dictionaries/0/data/columns/0/DATA/1",
    ),
    (
        r#","dictionaries":[{"id":1},{"id":1},{"id":7,"data":{"count":1,"columns":[{"count":1,"DATA":["a"]}]}}]"#,
        "read",
    ),
    (
        r#","dictionaries":[{"id":7,"data":{"count":0,"columns":[{"count":0,"DATA":[]}]}},{"id":1},{"id":"7"},{"id":7}]"#,
        "J9 DictionaryTwice at /dictionaries/2/id",
    ),
    (
        r#","dictionaries":[{"id":8,"data":3},{"id":7,"data":[{"count":3,"columns":[{"count":3,"VALIDITY":[1,0,1],"DATA":["a",7,"a"]}]}]}]"#,
        "read",
    ),
];

#[test]
fn tells_the_faults_of_dictionaries(rt: HostRuntime) -> Result<(), Fail> {
    expect_each(&rt, rt.alloc(), FILE_OF_ENTRIES, ENTRIES)
}

/// A file of a column of indices of this type into two texts.
static FILE_OF_INDICES: &str =
    r#"{"schema":{"fields":[{"name":"s","nullable":true,"type":{"name":"utf8"},"dictionary":{"id":0,"indexType":{"name":"int",TYPE}}}]},"dictionaries":[{"id":0,"data":{"count":2,"columns":[{"count":2,"DATA":["a","b"]}]}}],"batches":[{"count":3,"columns":[{"name":"s","count":3,MEMBERS}]}]}"#;

const INT8: &str = r#""bitWidth":8,"isSigned":true"#;

const UINT32: &str = r#""bitWidth":32,"isSigned":false"#;

const INT64: &str = r#""bitWidth":64,"isSigned":true"#;

const UINT64: &str = r#""bitWidth":64,"isSigned":false"#;

/// Indices that are read.
const READ: Cases = &[(r#""DATA":[0,1,0]"#, "read")];

const OF_INT8: Cases = &[
    (r#""DATA":[0,"1",0]"#, "read"),
    (r#""VALIDITY":[1,0,0],"DATA":[1,"none",[]]"#, "read"),
    (
        r#""DATA":[0,128,0]"#,
        "J5 BadNumber at /batches/0/columns/0/DATA/1",
    ),
    (
        r#""DATA":[0,1,2]"#,
        "J10 Layout V9 IndexPastDictionary row=2 at /batches/0/columns/0",
    ),
    (
        r#""VALIDITY":[0,1,1],"DATA":[9,-1,2]"#,
        "J10 Layout V9 IndexPastDictionary row=1 at /batches/0/columns/0",
    ),
    (
        r#""VALIDITY":[1,1],"DATA":[0,1,0]"#,
        "J7 CountDiffers at /batches/0/columns/0/VALIDITY",
    ),
    (
        r#""VALIDITY":[1,1,2],"DATA":[0,1,0]"#,
        "J3 WrongMember at /batches/0/columns/0/VALIDITY/2",
    ),
    (
        r#""DATA":[0,1]"#,
        "J7 CountDiffers at /batches/0/columns/0/DATA",
    ),
];

const OF_UINT32: Cases = &[(
    r#""DATA":[0,4294967295,0]"#,
    "J10 Layout V9 IndexPastDictionary row=1 at /batches/0/columns/0",
)];

const OF_INT64: Cases = &[
    (r#""DATA":["0","1",0]"#, "read"),
    (
        r#""DATA":[4294967296,1,0]"#,
        "J10 Layout V9 IndexPastDictionary row=0 at /batches/0/columns/0",
    ),
];

const OF_UINT64: Cases = &[
    (r#""DATA":[0,1,"0"]"#, "read"),
    (
        r#""DATA":[0,1,"18446744073709551615"]"#,
        "J10 Layout V9 IndexPastDictionary row=2 at /batches/0/columns/0",
    ),
];

/// Types of indices, and the members of the column.
static INDICES: [(&str, Cases); 9] = [
    (INT8, OF_INT8),
    (r#""bitWidth":8,"isSigned":false"#, READ),
    (r#""bitWidth":16,"isSigned":true"#, READ),
    (r#""bitWidth":16,"isSigned":false"#, READ),
    (r#""bitWidth":32,"isSigned":true"#, READ),
    (UINT32, READ),
    (UINT32, OF_UINT32),
    (INT64, OF_INT64),
    (UINT64, OF_UINT64),
];

#[test]
fn reads_indices(rt: HostRuntime) -> Result<(), Fail> {
    expect_each_type(&rt, rt.alloc(), FILE_OF_INDICES, &INDICES)
}
