//! Columns of lists: their fields, their offsets and children, and what is reported of them.

use super::{Cases, expect_each, expect_each_type};
use std::alloc::Global;
use std::test::Fail;

/// A file of this field alone, and no batch.
static FILE_OF_FIELD: &str = r#"{"schema":{"fields":[MEMBERS]},"batches":[]}"#;

/// A field of numbers.
static NUMBERS: &str =
    r#"{"name":"n","nullable":true,"type":{"name":"int","bitWidth":8,"isSigned":true}}"#;

/// A field of lists of this child's items.
static LISTS_OF: &str = r#"{"name":"l","nullable":true,"type":{"name":"list"},"children":[CHILD]}"#;

/// The same where the lists are large.
static LARGE_LISTS_OF: &str =
    r#"{"name":"l","nullable":true,"type":{"name":"largelist"},"children":[CHILD]}"#;

/// The field of numbers within so many lists, every other one of them large.
fn nested(alloc: Global, lists: usize) -> Result<String, Fail> {
    let mut field = String::from_str(alloc, NUMBERS)?;
    for level in 0..lists {
        let outer = if level % 2 == 0 {
            LISTS_OF
        } else {
            LARGE_LISTS_OF
        };
        field = outer.replace(alloc, "CHILD", field.as_str())?;
    }
    Ok(field)
}

/// What is reported of the ninth list.
const NINTH: &str =
    "J4 UnsupportedType at /schema/fields/0/children/0/children/0/children/0/children/0/children/0/children/0/children/0/children/0";

/// How many lists a field has, and what is reported of it.
static DEPTHS: [(usize, &str); 4] = [(1, "read"), (8, "read"), (9, NINTH), (30, NINTH)];

#[test]
fn tells_the_ninth_list(rt: HostRuntime) -> Result<(), Fail> {
    for (lists, wanted) in &DEPTHS {
        let field = nested(rt.alloc(), *lists)?;
        expect_each(&rt, rt.alloc(), FILE_OF_FIELD, &[(field.as_str(), *wanted)])?;
    }
    Ok(())
}

/// Fields of lists.
static FIELDS: Cases = &[
    (
        r#"{"name":"l","nullable":true,"type":{"name":"list"}}"#,
        "J2 MissingMember at /schema/fields/0/children",
    ),
    (
        r#"{"name":"l","nullable":true,"type":{"name":"list"},"children":null}"#,
        "J3 WrongMember at /schema/fields/0/children",
    ),
    (
        r#"{"name":"l","nullable":true,"type":{"name":"list"},"children":[]}"#,
        "J3 WrongMember at /schema/fields/0/children",
    ),
    (
        r#"{"name":"l","nullable":true,"type":{"name":"list"},"children":[{},{}]}"#,
        "J3 WrongMember at /schema/fields/0/children",
    ),
    (
        r#"{"name":"l","nullable":true,"type":{"name":"list"},"children":[{}]}"#,
        "J2 MissingMember at /schema/fields/0/children/0/name",
    ),
    (
        r#"{"name":"l","nullable":true,"type":{"name":"list"},"children":[{"name":"i","nullable":true,"type":{"name":"date"}}]}"#,
        "J4 UnsupportedType at /schema/fields/0/children/0/type",
    ),
    (
        r#"{"name":"l","nullable":true,"type":{"name":"list"},"children":[{"name":"i","nullable":true,"type":{"name":"utf8"},"dictionary":{"id":0}}]}"#,
        "J4 UnsupportedType at /schema/fields/0/children/0",
    ),
    (
        r#"{"name":"l","nullable":true,"type":{"name":"largelist"},"children":[{"name":"i","nullable":true,"type":{"name":"largeutf8"}}]}"#,
        "read",
    ),
    (
        r#"{"name":"l","nullable":true,"type":{"name":"largelist"}}"#,
        "J2 MissingMember at /schema/fields/0/children",
    ),
    (
        r#"{"name":"l","nullable":true,"type":{"name":"largelist"},"children":[{"name":"i","nullable":true,"type":{"name":"utf8"},"dictionary":{"id":0}}]}"#,
        "J4 UnsupportedType at /schema/fields/0/children/0",
    ),
    (
        r#"{"name":"s","nullable":true,"type":{"name":"largeutf8"},"children":[{}]}"#,
        "J3 WrongMember at /schema/fields/0/children",
    ),
];

#[test]
fn tells_the_faults_of_a_list_field(rt: HostRuntime) -> Result<(), Fail> {
    expect_each(&rt, rt.alloc(), FILE_OF_FIELD, FIELDS)
}

/// A file of a column of such lists of numbers, and of a batch of two slots with these members.
static FILE_OF_LISTS: &str =
    r#"{"schema":{"fields":[{"name":"l","nullable":true,"type":{"name":"TYPE"},"children":[{"name":"n","nullable":true,"type":{"name":"int","bitWidth":8,"isSigned":true}}]}]},"batches":[{"count":2,"columns":[{"name":"l","count":2,MEMBERS}]}]}"#;

/// The members of a column of lists.
static LISTS: Cases = &[
    (
        r#""OFFSET":[0,1,3],"children":[{"count":3,"DATA":[1,2,3]}]"#,
        "read",
    ),
    (
        r#""OFFSET":["0","1","3"],"children":[{"count":3,"DATA":[1,2,3]}]"#,
        "read",
    ),
    (
        r#""OFFSET":[1,1,2],"children":[{"count":3,"DATA":[1,2,3]}]"#,
        "read",
    ),
    (
        r#""VALIDITY":[0,0],"OFFSET":[0,1,3],"children":[{"count":3,"DATA":[1,2,3]}]"#,
        "read",
    ),
    (
        r#""children":[{"count":3,"DATA":[1,2,3]}]"#,
        "J2 MissingMember at /batches/0/columns/0/OFFSET",
    ),
    (
        r#""OFFSET":3,"children":[{"count":3,"DATA":[1,2,3]}]"#,
        "J3 WrongMember at /batches/0/columns/0/OFFSET",
    ),
    (
        r#""OFFSET":[0,1],"children":[{"count":3,"DATA":[1,2,3]}]"#,
        "J7 CountDiffers at /batches/0/columns/0/OFFSET",
    ),
    (
        r#""OFFSET":[],"children":[{"count":3,"DATA":[1,2,3]}]"#,
        "J7 CountDiffers at /batches/0/columns/0/OFFSET",
    ),
    (
        r#""OFFSET":[0,"x",3],"children":[{"count":3,"DATA":[1,2,3]}]"#,
        "J6 BadOffset at /batches/0/columns/0/OFFSET/1",
    ),
    (
        r#""OFFSET":[-1,0,0],"children":[{"count":3,"DATA":[1,2,3]}]"#,
        "J10 Layout V4 OffsetNegative at /batches/0/columns/0",
    ),
    (
        r#""VALIDITY":[1,0],"OFFSET":[0,2,1],"children":[{"count":3,"DATA":[1,2,3]}]"#,
        "J10 Layout V5 OffsetDecreases row=1 at /batches/0/columns/0",
    ),
    (
        r#""OFFSET":[0,1,4],"children":[{"count":3,"DATA":[1,2,3]}]"#,
        "J10 Layout V6 OffsetPastEnd at /batches/0/columns/0",
    ),
    (
        r#""OFFSET":[0,1,3]"#,
        "J2 MissingMember at /batches/0/columns/0/children",
    ),
    (
        r#""OFFSET":[0,0,0],"children":[]"#,
        "J7 CountDiffers at /batches/0/columns/0/children",
    ),
    (
        r#""OFFSET":[0,1,3],"children":[{"count":3,"DATA":[1,2,3]},{}]"#,
        "J7 CountDiffers at /batches/0/columns/0/children",
    ),
    (
        r#""OFFSET":[0,1,3],"children":{}"#,
        "J3 WrongMember at /batches/0/columns/0/children",
    ),
    (
        r#""OFFSET":[0,1,3],"children":[3]"#,
        "J3 WrongMember at /batches/0/columns/0/children/0",
    ),
    (
        r#""OFFSET":[0,1,3],"children":[{"DATA":[1,2,3]}]"#,
        "J2 MissingMember at /batches/0/columns/0/children/0/count",
    ),
    (
        r#""OFFSET":[0,1,3],"children":[{"count":3,"DATA":[1,2]}]"#,
        "J7 CountDiffers at /batches/0/columns/0/children/0/DATA",
    ),
    (
        r#""OFFSET":[0,1,1],"children":[{"count":3,"DATA":[1,2,128]}]"#,
        "J5 BadNumber at /batches/0/columns/0/children/0/DATA/2",
    ),
    (
        r#""VALIDITY":[1,2],"OFFSET":[0,1,3],"children":[{"count":3,"DATA":[1,2,3]}]"#,
        "J3 WrongMember at /batches/0/columns/0/VALIDITY/1",
    ),
    (
        r#""VALIDITY":[1],"OFFSET":[0,1,3],"children":[{"count":3,"DATA":[1,2,3]}]"#,
        "J7 CountDiffers at /batches/0/columns/0/VALIDITY",
    ),
];

/// Offsets past 32 bits, of lists that aren't large.
static PAST_32_BITS: Cases = &[
    (
        r#""VALIDITY":[0,0],"OFFSET":[0,0,2147483648],"children":[{"count":3,"DATA":[1,2,3]}]"#,
        "J6 BadOffset at /batches/0/columns/0/OFFSET/2",
    ),
    (
        r#""OFFSET":["-2147483649",0,0],"children":[{"count":3,"DATA":[1,2,3]}]"#,
        "J6 BadOffset at /batches/0/columns/0/OFFSET/0",
    ),
];

/// Offsets past 32 bits and past 64, of large lists.
static PAST_64_BITS: Cases = &[
    (
        r#""OFFSET":[0,"9223372036854775808",3],"children":[{"count":3,"DATA":[1,2,3]}]"#,
        "J6 BadOffset at /batches/0/columns/0/OFFSET/1",
    ),
    (
        r#""OFFSET":[0,0,9223372036854775808],"children":[{"count":3,"DATA":[1,2,3]}]"#,
        "J6 BadOffset at /batches/0/columns/0/OFFSET/2",
    ),
    (
        r#""OFFSET":[0,1,4294967299],"children":[{"count":3,"DATA":[1,2,3]}]"#,
        "J10 Layout V6 OffsetPastEnd at /batches/0/columns/0",
    ),
    (
        r#""OFFSET":["0","9223372036854775807","9223372036854775807"],"children":[{"count":3,"DATA":[1,2,3]}]"#,
        "J10 Layout V6 OffsetPastEnd at /batches/0/columns/0",
    ),
    (
        r#""OFFSET":[0,4294967297,3],"children":[{"count":3,"DATA":[1,2,3]}]"#,
        "J10 Layout V5 OffsetDecreases row=1 at /batches/0/columns/0",
    ),
    (
        r#""OFFSET":["-9223372036854775808",0,0],"children":[{"count":3,"DATA":[1,2,3]}]"#,
        "J10 Layout V4 OffsetNegative at /batches/0/columns/0",
    ),
    (
        r#""OFFSET":[-4294967296,0,0],"children":[{"count":3,"DATA":[1,2,3]}]"#,
        "J10 Layout V4 OffsetNegative at /batches/0/columns/0",
    ),
];

#[test]
fn reads_offsets_and_children(rt: HostRuntime) -> Result<(), Fail> {
    let types = [
        ("list", LISTS),
        ("list", PAST_32_BITS),
        ("largelist", LISTS),
        ("largelist", PAST_64_BITS),
    ];
    expect_each_type(&rt, rt.alloc(), FILE_OF_LISTS, &types)
}

/// A file of a column of such lists, and of a batch without rows: its offsets are these.
static FILE_OF_NO_LISTS: &str =
    r#"{"schema":{"fields":[{"name":"l","nullable":true,"type":{"name":"TYPE"},"children":[{"name":"n","nullable":true,"type":{"name":"bool"}}]}]},"batches":[{"count":0,"columns":[{"name":"l","count":0,"VALIDITY":[],"OFFSET":MEMBERS,"children":[{"name":"n","count":1,"DATA":[true]}]}]}]}"#;

/// The offsets of a column without rows.
static NO_LISTS: Cases = &[
    ("[]", "read"),
    ("[0]", "read"),
    ("[1]", "read"),
    ("[2]", "J10 Layout V6 OffsetPastEnd at /batches/0/columns/0"),
    ("[0,0]", "J7 CountDiffers at /batches/0/columns/0/OFFSET"),
];

#[test]
fn reads_no_lists(rt: HostRuntime) -> Result<(), Fail> {
    let types = [("list", NO_LISTS), ("largelist", NO_LISTS)];
    expect_each_type(&rt, rt.alloc(), FILE_OF_NO_LISTS, &types)
}
