//! Files of JSON: what is reported of those that can't be read.

mod dictionaries;
mod lists;
mod values;

use arrays::{DataType, Field};
use arrow_json::{JsonFault, fault_text, read_field, read_file};
use std::alloc::Global;
use std::process::Abort;
use std::test::Fail;

/// What stands for MEMBERS in a file, and what is reported of it then, `read` where nothing is wrong.
pub(crate) type Cases = &'static [(&'static str, &'static str)];

/// What is reported, `read` where nothing is wrong.
fn reported<T: Drop>(alloc: Global, read: Result<T, JsonFault>) -> Result<String, Fail> {
    match read {
        Ok(_) => Ok(String::from_str(alloc, "read")?),
        Err(fault) => Ok(fault_text(alloc, &fault)?),
    }
}

/// Asserts what is reported of a file, `read` where nothing is wrong.
fn expect(rt: &impl Abort, alloc: Global, text: &str, wanted: &str) -> Result<(), Fail> {
    let reported = reported(alloc, read_file(alloc, text.as_bytes()))?;
    assert!(rt; reported.as_str() == wanted, "{reported} for {text}");
    Ok(())
}

/// Asserts what is reported of a file in each case.
pub(crate) fn expect_each(
    rt: &impl Abort,
    alloc: Global,
    file: &str,
    cases: &[(&str, &str)],
) -> Result<(), Fail> {
    for (members, wanted) in cases {
        let text = file.replace(alloc, "MEMBERS", *members)?;
        expect(rt, alloc, text.as_str(), *wanted)?;
    }
    Ok(())
}

/// Asserts what is reported of a file in each case of each type, which stands for TYPE.
pub(crate) fn expect_each_type(
    rt: &impl Abort,
    alloc: Global,
    file: &str,
    types: &[(&str, Cases)],
) -> Result<(), Fail> {
    for (ty, cases) in types {
        let text = file.replace(alloc, "TYPE", *ty)?;
        expect_each(rt, alloc, text.as_str(), *cases)?;
    }
    Ok(())
}

/// Whole files.
static FILES: Cases = &[
    ("{", "J1 NotJson"),
    ("[]", "J3 WrongMember"),
    ("{}", "J2 MissingMember at /schema"),
    (r#"{"schema":3}"#, "J3 WrongMember at /schema"),
    (r#"{"schema":{}}"#, "J2 MissingMember at /schema/fields"),
    (
        r#"{"schema":{"fields":{}}}"#,
        "J3 WrongMember at /schema/fields",
    ),
    (
        r#"{"schema":{"fields":[]}}"#,
        "J2 MissingMember at /batches",
    ),
    (
        r#"{"schema":{"fields":[]},"batches":0}"#,
        "J3 WrongMember at /batches",
    ),
    (
        r#"{"schema":{"fields":[],"metadata":4},"batches":[],"dictionaries":4}"#,
        "read",
    ),
    (
        r#"{"schema":{"fields":[]},"batches":[{"count":7,"columns":[]}]}"#,
        "read",
    ),
    (
        r#"{"schema":{"fields":[]},"batches":[{"count":2147483647,"columns":[{}]}]}"#,
        "J7 CountDiffers at /batches/0/columns",
    ),
    (
        r#"{"schema":{"fields":[]},"batches":[{"count":0,"columns":[]},{"count":2147483648,"columns":[]}]}"#,
        "J3 WrongMember at /batches/1/count",
    ),
];

#[test]
fn tells_the_faults_of_a_file(rt: HostRuntime) -> Result<(), Fail> {
    expect_each(&rt, rt.alloc(), "MEMBERS", FILES)
}

#[test]
fn tells_what_is_no_text(rt: HostRuntime) -> Result<(), Fail> {
    let reported = reported(rt.alloc(), read_file(rt.alloc(), &[34, 255, 34]))?;
    assert!(rt; reported.as_str() == "J1 NotJson");
    Ok(())
}

/// A file of one field with these members, and no batch.
static FILE_OF_FIELD: &str = r#"{"schema":{"fields":[{"name":"n"MEMBERS}]},"batches":[]}"#;

/// The members of a field.
static FIELDS: Cases = &[
    (
        r#","nullable":true,"type":{"name":"int","bitWidth":8,"isSigned":true}"#,
        "read",
    ),
    (
        r#","nullable":true,"type":{"name":"int","bitWidth":64,"isSigned":false},"children":null,"dictionary":null"#,
        "read",
    ),
    (
        r#","type":{}"#,
        "J2 MissingMember at /schema/fields/0/nullable",
    ),
    (
        r#","nullable":1"#,
        "J3 WrongMember at /schema/fields/0/nullable",
    ),
    (
        r#","nullable":true"#,
        "J2 MissingMember at /schema/fields/0/type",
    ),
    (
        r#","nullable":true,"type":"int""#,
        "J3 WrongMember at /schema/fields/0/type",
    ),
    (
        r#","nullable":true,"type":{"name":4}"#,
        "J3 WrongMember at /schema/fields/0/type/name",
    ),
    (
        r#","nullable":true,"type":{"name":"date"}"#,
        "J4 UnsupportedType at /schema/fields/0/type",
    ),
    (
        r#","nullable":true,"type":{"name":"int","bitWidth":24,"isSigned":true}"#,
        "J4 UnsupportedType at /schema/fields/0/type",
    ),
    (
        r#","nullable":true,"type":{"name":"int","bitWidth":"8","isSigned":true}"#,
        "J3 WrongMember at /schema/fields/0/type/bitWidth",
    ),
    (
        r#","nullable":true,"type":{"name":"int","bitWidth":8}"#,
        "J2 MissingMember at /schema/fields/0/type/isSigned",
    ),
    (
        r#","nullable":true,"type":{"name":"int","bitWidth":8,"isSigned":true},"children":[0]"#,
        "J3 WrongMember at /schema/fields/0/children",
    ),
    (
        r#","nullable":true,"type":{"name":"int","bitWidth":8,"isSigned":true},"dictionary":{}"#,
        "J2 MissingMember at /schema/fields/0/dictionary/id",
    ),
];

#[test]
fn tells_the_faults_of_a_field(rt: HostRuntime) -> Result<(), Fail> {
    expect_each(&rt, rt.alloc(), FILE_OF_FIELD, FIELDS)
}

/// The same field by itself.
static FIELD: &str = r#"{"name":"n"MEMBERS}"#;

#[test]
fn tells_the_faults_of_a_field_by_itself(rt: HostRuntime) -> Result<(), Fail> {
    for (members, wanted) in FIELDS {
        let text = FIELD.replace(rt.alloc(), "MEMBERS", *members)?;
        let wanted = wanted.replace(rt.alloc(), "/schema/fields/0", "")?;
        expect_field(&rt, rt.alloc(), text.as_bytes(), wanted.as_str())?;
    }
    Ok(())
}

/// What is no field, and what is reported of it.
static NO_FIELDS: [(&[u8], &str); 7] = [
    (b"", "J1 NotJson"),
    (b"{", "J1 NotJson"),
    (b"{} {}", "J1 NotJson"),
    (b"nul", "J1 NotJson"),
    (b"\"\xff\"", "J1 NotJson"),
    (b"[]", "J3 WrongMember"),
    (b"{}", "J2 MissingMember at /name"),
];

#[test]
fn tells_what_is_no_field(rt: HostRuntime) -> Result<(), Fail> {
    for (text, wanted) in &NO_FIELDS {
        expect_field(&rt, rt.alloc(), *text, *wanted)?;
    }
    Ok(())
}

/// Asserts what is reported of a field, `read` where nothing is wrong.
fn expect_field(rt: &impl Abort, alloc: Global, text: &[u8], wanted: &str) -> Result<(), Fail> {
    let reported = reported(alloc, read_field(alloc, text))?;
    assert!(rt; reported.as_str() == wanted, "{reported} for {text:?}");
    Ok(())
}

static ENCODED: &str =
    r#"{"name":"m","nullable":false,"type":{"name":"utf8"},"dictionary":{"id":7,"indexType":{"name":"int","bitWidth":8,"isSigned":true}}}"#;

#[test]
fn an_encoded_field_is_read_by_itself(rt: HostRuntime) -> Result<(), Fail> {
    let field = read_field(rt.alloc(), ENCODED.as_bytes())?;
    assert!(rt; is_field(&field, "m", false) && is_dict(&field.ty));
    Ok(())
}

static LISTED: &str =
    r#"{"name":"l","nullable":true,"type":{"name":"largelist"},"children":[{"name":"item","nullable":true,"type":{"name":"bool"}}]}"#;

#[test]
fn a_field_of_lists_is_read_by_itself(rt: HostRuntime) -> Result<(), Fail> {
    let field = read_field(rt.alloc(), LISTED.as_bytes())?;
    assert!(rt; is_field(&field, "l", true) && is_list_of_truths(&field.ty));
    Ok(())
}

fn is_field(field: &Field, name: &str, nullable: bool) -> bool {
    field.name.as_str() == name && field.nullable == nullable
}

fn is_dict(ty: &DataType) -> bool {
    match ty {
        DataType::Dict => true,
        _ => false,
    }
}

fn is_bool(ty: &DataType) -> bool {
    match ty {
        DataType::Bool => true,
        _ => false,
    }
}

/// Whether it is the type of lists of nullable items, with offsets of 64 bits.
fn is_list_of_truths(ty: &DataType) -> bool {
    match ty {
        DataType::LargeList(item) => is_field(item, "item", true) && is_bool(&item.ty),
        _ => false,
    }
}

/// A file of one field of such an integer type, and of one batch of two slots with these members.
pub(crate) static FILE_OF_COLUMN: &str =
    r#"{"schema":{"fields":[{"name":"n","nullable":true,"type":{"name":"int",TYPE},"children":[]}]},"batches":[{"count":2,"columns":[{"name":"n","count":2,MEMBERS}]}]}"#;

/// The members of a column of signed numbers of eight bits.
static COLUMNS: Cases = &[
    (r#""DATA":[-128,127]"#, "read"),
    (r#""VALIDITY":null,"DATA":[1,2]"#, "read"),
    (r#""VALIDITY":[true,0],"DATA":[1,{}]"#, "read"),
    (
        r#""VALIDITY":[1,1]"#,
        "J2 MissingMember at /batches/0/columns/0/DATA",
    ),
    (
        r#""DATA":"12""#,
        "J3 WrongMember at /batches/0/columns/0/DATA",
    ),
    (
        r#""DATA":[1]"#,
        "J7 CountDiffers at /batches/0/columns/0/DATA",
    ),
    (
        r#""VALIDITY":[1],"DATA":[1,2]"#,
        "J7 CountDiffers at /batches/0/columns/0/VALIDITY",
    ),
    (
        r#""VALIDITY":1,"DATA":[1,2]"#,
        "J3 WrongMember at /batches/0/columns/0/VALIDITY",
    ),
    (
        r#""VALIDITY":[1,2],"DATA":[1,2]"#,
        "J3 WrongMember at /batches/0/columns/0/VALIDITY/1",
    ),
    (
        r#""VALIDITY":[1,1.0],"DATA":[1,2]"#,
        "J3 WrongMember at /batches/0/columns/0/VALIDITY/1",
    ),
    (
        r#""DATA":[1,128]"#,
        "J5 BadNumber at /batches/0/columns/0/DATA/1",
    ),
    (
        r#""count":3,"DATA":[1,2]"#,
        "J7 CountDiffers at /batches/0/columns/0/count",
    ),
    (
        r#""count":"2","DATA":[1,2]"#,
        "J3 WrongMember at /batches/0/columns/0/count",
    ),
    (
        r#""count":2147483647,"DATA":[1,2]"#,
        "J7 CountDiffers at /batches/0/columns/0/count",
    ),
];

#[test]
fn tells_the_faults_of_a_column(rt: HostRuntime) -> Result<(), Fail> {
    let types = [(r#""bitWidth":8,"isSigned":true"#, COLUMNS)];
    expect_each_type(&rt, rt.alloc(), FILE_OF_COLUMN, &types)
}
