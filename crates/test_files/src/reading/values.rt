//! The spellings of numbers, the values that are read, and the places and texts of faults.

use super::{Cases, FILE_OF_COLUMN, expect_each, expect_each_type};
use arrays::{Field, File, IntType, LayoutFault, OffsetWidth, ViewType};
use arrow_json::{
    JsonFault, JsonFaultKind, Member, Path, Step, fault_text, read_file, read_file_from_vec,
};
use std::alloc::Global;
use std::process::Abort;
use std::test::Fail;
use test_samples::{INT8, Shown, UINT64, shows};

const OF_INT64: &str = r#""bitWidth":64,"isSigned":true"#;

const OF_UINT64: &str = r#""bitWidth":64,"isSigned":false"#;

const OF_UINT8: &str = r#""bitWidth":8,"isSigned":false"#;

const BAD: &str = "J5 BadNumber at /batches/0/columns/0/DATA/0";

/// Types, numbers as a file spells them, and what is reported of the file.
static SPELLINGS: [(&str, Cases); 3] = [
    (
        OF_INT64,
        &[
            (r#""9223372036854775807""#, "read"),
            (r#""-9223372036854775808""#, "read"),
            ("9223372036854775808", BAD),
            (r#""9223372036854775808""#, BAD),
            (r#""-9223372036854775809""#, BAD),
        ],
    ),
    (
        OF_UINT64,
        &[
            ("18446744073709551615", "read"),
            (r#""18446744073709551616""#, BAD),
            (r#""36893488147419103233""#, BAD),
        ],
    ),
    (
        OF_UINT8,
        &[
            (r#""-0""#, "read"),
            (r#""000000000000000000000000255""#, "read"),
            (r#""256""#, BAD),
            ("-1", BAD),
            (r#""+5""#, BAD),
            (r#"" 5""#, BAD),
            (r#""""#, BAD),
            (r#""-""#, BAD),
            (r#""5a""#, BAD),
            ("5.0", BAD),
            ("-0", BAD),
            ("true", BAD),
        ],
    ),
];

/// What is no number may stand under a null.
static UNDER_A_NULL: &str = r#""VALIDITY":[0,1],"DATA":[MEMBERS,1]"#;

#[test]
fn reads_both_spellings(rt: HostRuntime) -> Result<(), Fail> {
    let file = FILE_OF_COLUMN.replace(rt.alloc(), "MEMBERS", r#""DATA":[MEMBERS,1]"#)?;
    expect_each_type(&rt, rt.alloc(), file.as_str(), &SPELLINGS)
}

/// Asserts that a file is read with each number.
fn expect_read(
    rt: &impl Abort,
    alloc: Global,
    file: &str,
    numbers: &[(&str, &str)],
) -> Result<(), Fail> {
    for (number, _) in numbers {
        expect_each(rt, alloc, file, &[(*number, "read")])?;
    }
    Ok(())
}

#[test]
fn reads_any_spelling_under_a_null(rt: HostRuntime) -> Result<(), Fail> {
    let file = FILE_OF_COLUMN.replace(rt.alloc(), "MEMBERS", UNDER_A_NULL)?;
    for (ty, numbers) in &SPELLINGS {
        let file = file.as_str().replace(rt.alloc(), "TYPE", *ty)?;
        expect_read(&rt, rt.alloc(), file.as_str(), *numbers)?;
    }
    Ok(())
}

/// A file of one field of such a type, and of one batch of two slots with these members.
static FILE_OF_TYPE: &str =
    r#"{"schema":{"fields":[{"name":"n","nullable":true,"type":{"name":"TYPE"}}]},"batches":[{"count":2,"columns":[{"name":"n","count":2,MEMBERS}]}]}"#;

/// The members of a column of truth values.
static TRUTHS: Cases = &[
    (r#""DATA":[1,0]"#, "read"),
    (r#""DATA":[true,false]"#, "read"),
    (r#""VALIDITY":[0,1],"DATA":["x",1]"#, "read"),
    (
        r#""DATA":[2,0]"#,
        "J3 WrongMember at /batches/0/columns/0/DATA/0",
    ),
    (
        r#""DATA":[0,"1"]"#,
        "J3 WrongMember at /batches/0/columns/0/DATA/1",
    ),
    (
        r#""VALIDITY":[0,"1"],"DATA":[0,1]"#,
        "J3 WrongMember at /batches/0/columns/0/VALIDITY/1",
    ),
    (
        r#""DATA":[1]"#,
        "J7 CountDiffers at /batches/0/columns/0/DATA",
    ),
    (
        r#""VALIDITY":[1,1]"#,
        "J2 MissingMember at /batches/0/columns/0/DATA",
    ),
];

/// The members of a column of texts.
static TEXTS: Cases = &[
    (r#""DATA":["a",""]"#, "read"),
    (r#""DATA":["a","b"],"OFFSET":[7,"x"]"#, "read"),
    (r#""VALIDITY":[false,true],"DATA":[0,"\u00e9"]"#, "read"),
    (
        r#""DATA":["a",1]"#,
        "J3 WrongMember at /batches/0/columns/0/DATA/1",
    ),
    (
        r#""VALIDITY":[2,0],"DATA":["a","b"]"#,
        "J3 WrongMember at /batches/0/columns/0/VALIDITY/0",
    ),
    (
        r#""DATA":"ab""#,
        "J3 WrongMember at /batches/0/columns/0/DATA",
    ),
];

static LISTS: Cases = &[(
    r#""DATA":[]"#,
    "J2 MissingMember at /schema/fields/0/children",
)];

#[test]
fn reads_flags_and_strings(rt: HostRuntime) -> Result<(), Fail> {
    let types = [
        ("bool", TRUTHS),
        ("utf8", TEXTS),
        ("largeutf8", TEXTS),
        ("list", LISTS),
        ("largelist", LISTS),
    ];
    expect_each_type(&rt, rt.alloc(), FILE_OF_TYPE, &types)
}

/// A file of a column of truth values and one of texts, in a batch of three rows.
static TRUTHS_AND_TEXTS: &str =
    r#"{"schema":{"fields":[{"name":"b","nullable":true,"type":{"name":"bool"},"children":[]},{"name":"s","nullable":true,"type":{"name":"utf8"},"children":[]}]},"batches":[{"count":3,"columns":[{"name":"b","count":3,"VALIDITY":[1,0,1],"DATA":[1,1,false]},{"name":"s","count":3,"VALIDITY":[1,1,0],"OFFSET":[0,2,2,2],"DATA":["\u00e9","","x"]}]}]}"#;

/// A file of two columns, in a batch of three rows and one of none.
static TWO_COLUMNS: &str =
    r#"{"schema":{"fields":[{"name":"n","nullable":true,"type":{"name":"int","bitWidth":8,"isSigned":true},"children":[]},{"name":"m","nullable":false,"type":{"name":"int","bitWidth":64,"isSigned":false},"children":[]}]},"batches":[{"count":3,"columns":[{"name":"n","count":3,"VALIDITY":[1,0,1],"DATA":[-128,"x","127"]},{"name":"m","count":3,"DATA":["18446744073709551615",0,7]}]},{"count":0,"columns":[{"name":"n","count":0,"DATA":[]},{"name":"m","count":0,"DATA":[]}]}]}"#;

/// A file of two columns that name one dictionary, of "a", "b", "a" and null.
static SHARED: &str =
    r#"{"schema":{"fields":[{"name":"s","nullable":true,"type":{"name":"utf8"},"children":[],"dictionary":{"id":7,"indexType":{"name":"int","bitWidth":8,"isSigned":true},"isOrdered":false}},{"name":"t","nullable":true,"type":{"name":"utf8"},"children":[],"dictionary":{"id":7,"indexType":{"name":"int","bitWidth":16,"isSigned":false},"isOrdered":false}}]},"dictionaries":[{"id":7,"data":[{"count":4,"columns":[{"name":"x","count":4,"VALIDITY":[1,1,1,0],"OFFSET":[0,1,2,3,3],"DATA":["a","b","a",""]}]}]}],"batches":[{"count":5,"columns":[{"name":"s","count":5,"VALIDITY":[1,1,1,0,1],"DATA":[2,0,3,9,1]},{"name":"t","count":5,"DATA":[1,1,1,1,3]}]}]}"#;

/// A file of lists of lists of numbers: `[[3], null]`, null, and `[]`. Items before the first list and of the second stand in the children.
static LISTS_IN_LISTS: &str =
    r#"{"schema":{"fields":[{"name":"l","nullable":true,"type":{"name":"list"},"children":[{"name":"m","nullable":true,"type":{"name":"list"},"children":[{"name":"n","nullable":true,"type":{"name":"int","bitWidth":8,"isSigned":true}}]}]}]},"batches":[{"count":3,"columns":[{"name":"l","count":3,"VALIDITY":[1,0,1],"OFFSET":[1,3,4,4],"children":[{"name":"m","count":4,"VALIDITY":[1,1,0,1],"OFFSET":[0,2,3,3,5],"children":[{"name":"n","count":5,"DATA":[1,2,3,4,5]}]}]}]}]}"#;

/// A file of texts and of lists of numbers, both with offsets of 64 bits: `[1, 2]` and null.
static LARGE: &str =
    r#"{"schema":{"fields":[{"name":"s","nullable":false,"type":{"name":"largeutf8"},"children":[]},{"name":"l","nullable":true,"type":{"name":"largelist"},"children":[{"name":"item","nullable":true,"type":{"name":"int","bitWidth":8,"isSigned":true}}]}]},"batches":[{"count":2,"columns":[{"name":"s","count":2,"OFFSET":["0","2","2"],"DATA":["\u00e9",""]},{"name":"l","count":2,"VALIDITY":[1,0],"OFFSET":[0,"2",2],"children":[{"name":"item","count":2,"DATA":[1,2]}]}]}]}"#;

/// The place of a batch of a file, the place of a column in it, and what its slots hold.
type Places = &'static [(usize, usize, Shown)];

#[rattlefmt::skip]
static OF_TRUTHS_AND_TEXTS: Places = &[
    (0, 0, Shown::Bools(&[Some(true), None, Some(false)])),
    (0, 1, Shown::Texts(&[Some("é"), Some(""), None])),
];

#[rattlefmt::skip]
static OF_TWO_COLUMNS: Places = &[
    (0, 0, Shown::Numbers(&[Some(-128), None, Some(127)])),
    (0, 1, Shown::Numbers(&[Some(18446744073709551615), Some(0), Some(7)])),
    (1, 0, Shown::Numbers(&[])),
    (1, 1, Shown::Numbers(&[])),
];

#[rattlefmt::skip]
static OF_SHARED: Places = &[
    (0, 0, Shown::Encoded(
        &[Some(2), Some(0), Some(3), None, Some(1)],
        &[Some("a"), Some("b"), Some("a"), None],
        &[Some("a"), Some("a"), None, None, Some("b")],
    )),
    (0, 1, Shown::Encoded(
        &[Some(1), Some(1), Some(1), Some(1), Some(3)],
        &[Some("a"), Some("b"), Some("a"), None],
        &[Some("b"), Some("b"), Some("b"), Some("b"), None],
    )),
];

#[rattlefmt::skip]
static OF_LISTS_IN_LISTS: Places = &[
    (0, 0, Shown::ListsOfLists(&[Some(&[Some(&[Some(3)]), None]), None, Some(&[])])),
];

#[rattlefmt::skip]
static OF_LARGE: Places = &[
    (0, 0, Shown::Texts(&[Some("é"), Some("")])),
    (0, 1, Shown::Lists(&[Some(&[Some(1), Some(2)]), None])),
];

/// Whether this is what the slots of a column of a batch hold.
fn file_shows(file: &File, batch: usize, column: usize, shown: Shown) -> bool {
    match file.batches().get(batch) {
        Some(batch) => match batch.columns().get(column) {
            Some(array) => shows(&array.view(), shown),
            None => false,
        },
        None => false,
    }
}

/// Asserts what the columns of a file hold.
fn expect_columns(
    rt: &impl Abort,
    alloc: Global,
    text: &str,
    places: &[(usize, usize, Shown)],
) -> Result<(), Fail> {
    let file = read_file(alloc, text.as_bytes())?;
    for (batch, column, shown) in places {
        assert!(rt;
            file_shows(&file, *batch, *column, *shown),
            "column {column} of {text}"
        );
    }
    Ok(())
}

#[test]
fn reads_the_values(rt: HostRuntime) -> Result<(), Fail> {
    let files = [
        (TRUTHS_AND_TEXTS, OF_TRUTHS_AND_TEXTS),
        (TWO_COLUMNS, OF_TWO_COLUMNS),
        (SHARED, OF_SHARED),
        (LISTS_IN_LISTS, OF_LISTS_IN_LISTS),
        (LARGE, OF_LARGE),
    ];
    for (text, places) in &files {
        expect_columns(&rt, rt.alloc(), *text, *places)?;
    }
    Ok(())
}

/// Whether a field has this name, is nullable or not, and is of this type.
fn is_field(field: &Field, name: &str, nullable: bool, ty: IntType) -> bool {
    field.name.as_str() == name
        && field.nullable == nullable
        && ViewType::of(&field.ty).is_same(ViewType::Int(ty))
}

/// Whether they are the fields of the file of two columns.
fn are_two_columns(fields: &[Field]) -> bool {
    match fields {
        [first, second] => {
            is_field(first, "n", true, INT8) && is_field(second, "m", false, UINT64)
        }
        _ => false,
    }
}

#[test]
fn reads_the_fields(rt: HostRuntime) -> Result<(), Fail> {
    let bytes = Vec::from_slice(rt.alloc(), TWO_COLUMNS.as_bytes())?;
    let file = read_file_from_vec(rt.alloc(), bytes)?;
    assert!(rt; file.batches().len() == 2 && are_two_columns(file.schema().fields()));
    Ok(())
}

/// Whether a text isn't JSON.
fn is_not_json(alloc: Global, text: &[u8]) -> Result<bool, Fail> {
    match read_file_from_vec(alloc, Vec::from_slice(alloc, text)?) {
        Ok(_) => Ok(false),
        Err(fault) => Ok(fault.kind == JsonFaultKind::NotJson),
    }
}

#[test]
fn a_part_of_a_file_is_not_json(rt: HostRuntime) -> Result<(), Fail> {
    let part = TWO_COLUMNS.as_bytes().get(..20).ok_or("a short file")?;
    assert!(&rt; is_not_json(rt.alloc(), part)?);
    Ok(())
}

/// Whether a column of the first batch is of this type.
fn is_column(file: &File, column: usize, ty: ViewType<'_>) -> bool {
    match file.batches().get(0) {
        Some(batch) => match batch.columns().get(column) {
            Some(array) => array.view().ty().is_same(ty),
            None => false,
        },
        None => false,
    }
}

/// Whether it is the type of large lists of numbers of 8 bits.
fn is_large_lists(ty: ViewType<'_>) -> bool {
    match ty {
        ViewType::List(OffsetWidth::Wide, item) => is_field(item, "item", true, INT8),
        _ => false,
    }
}

/// Whether the columns of a file are large texts and large lists, as its fields are.
fn is_large(file: &File) -> bool {
    let [texts, lists] = file.schema().fields() else {
        return false;
    };
    let wide = ViewType::Text(OffsetWidth::Wide);
    let ty = ViewType::of(&lists.ty);
    ViewType::of(&texts.ty).is_same(wide)
        && is_large_lists(ty)
        && is_column(file, 0, wide)
        && is_column(file, 1, ty)
}

#[test]
fn reads_large_texts_and_lists(rt: HostRuntime) -> Result<(), Fail> {
    let file = read_file(rt.alloc(), LARGE.as_bytes())?;
    assert!(rt; is_large(&file));
    Ok(())
}

/// Each kind of fault, and how it is reported.
static KINDS: [(JsonFaultKind, &str); 23] = [
    (JsonFaultKind::NotJson, "J1 NotJson"),
    (JsonFaultKind::MissingMember, "J2 MissingMember"),
    (JsonFaultKind::WrongMember, "J3 WrongMember"),
    (JsonFaultKind::UnsupportedType, "J4 UnsupportedType"),
    (JsonFaultKind::BadNumber, "J5 BadNumber"),
    (JsonFaultKind::BadOffset, "J6 BadOffset"),
    (JsonFaultKind::CountDiffers, "J7 CountDiffers"),
    (JsonFaultKind::NoDictionary, "J8 NoDictionary"),
    (JsonFaultKind::DictionaryTwice, "J9 DictionaryTwice"),
    (
        JsonFaultKind::Layout(LayoutFault::MissingBuffer),
        "J10 Layout V1 MissingBuffer",
    ),
    (
        JsonFaultKind::Layout(LayoutFault::ExtraBuffer),
        "J10 Layout V2 ExtraBuffer",
    ),
    (
        JsonFaultKind::Layout(LayoutFault::BufferTooShort),
        "J10 Layout V3 BufferTooShort",
    ),
    (
        JsonFaultKind::Layout(LayoutFault::OffsetNegative),
        "J10 Layout V4 OffsetNegative",
    ),
    (
        JsonFaultKind::Layout(LayoutFault::OffsetDecreases { row: 0 }),
        "J10 Layout V5 OffsetDecreases row=0",
    ),
    (
        JsonFaultKind::Layout(LayoutFault::OffsetPastEnd),
        "J10 Layout V6 OffsetPastEnd",
    ),
    (
        JsonFaultKind::Layout(LayoutFault::NullCountDiffers),
        "J10 Layout V7 NullCountDiffers",
    ),
    (
        JsonFaultKind::Layout(LayoutFault::NotUtf8 { row: 12 }),
        "J10 Layout V8 NotUtf8 row=12",
    ),
    (
        JsonFaultKind::Layout(LayoutFault::IndexPastDictionary { row: 3 }),
        "J10 Layout V9 IndexPastDictionary row=3",
    ),
    (
        JsonFaultKind::Layout(LayoutFault::ChildDiffers),
        "J10 Layout V10 ChildDiffers",
    ),
    (
        JsonFaultKind::Layout(LayoutFault::TooLong),
        "J10 Layout V11 TooLong",
    ),
    (
        JsonFaultKind::Layout(LayoutFault::TooDeep),
        "J10 Layout V12 TooDeep",
    ),
    (
        JsonFaultKind::Layout(LayoutFault::NoMemory),
        "J10 Layout V13 NoMemory",
    ),
    (JsonFaultKind::NoMemory, "J11 NoMemory"),
];

/// Whether a kind is printed so, and the fault of this kind is reported so.
fn is_reported(alloc: Global, kind: JsonFaultKind, wanted: &str) -> Result<bool, Fail> {
    let shown = format!(in alloc; "{kind}")?;
    let reported = fault_text(alloc, &JsonFault::at(alloc, kind, &[]))?;
    Ok(shown.as_str() == wanted && reported.as_str() == wanted)
}

#[test]
fn kinds_are_reported(rt: HostRuntime) -> Result<(), Fail> {
    for (kind, wanted) in &KINDS {
        assert!(&rt; is_reported(rt.alloc(), *kind, *wanted)?, "{wanted}");
    }
    Ok(())
}

/// Steps that are put in front of a place, one after the other, the place, and where it leads then.
static PLACES: [(&[Step], &[Step], &[Step]); 2] = [
    (
        &[Step::Item(7), Step::Member(Member::Batches)],
        &[Step::Member(Member::Columns), Step::Item(3)],
        &[
            Step::Member(Member::Batches),
            Step::Item(7),
            Step::Member(Member::Columns),
            Step::Item(3),
        ],
    ),
    (&[Step::Item(0)], &[], &[Step::Item(0)]),
];

/// Whether these steps in front of a place lead there.
fn leads(alloc: Global, front: &[Step], place: &[Step], whole: &[Step]) -> Result<bool, Fail> {
    let mut path = Path::from_steps(alloc, place)?;
    for step in front {
        path = path.under(*step)?;
    }
    Ok(path.steps() == whole)
}

#[test]
fn leads_to_places(rt: HostRuntime) -> Result<(), Fail> {
    for (front, place, whole) in &PLACES {
        assert!(&rt; leads(rt.alloc(), &[], *place, *place)?);
        assert!(&rt; leads(rt.alloc(), *front, *place, *whole)?);
    }
    Ok(())
}
