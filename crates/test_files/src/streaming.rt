//! Columns read from the bytes of a text, beside what the reader of whole files makes of the same.

use crate::lawful::expect_read;
use crate::scanning::is_unread;
use arrays::{Array, Field, File, RecordBatch, Schema, View, ViewType};
use arrow_json::{read_field, read_file};
use json_file::{Miss, Placed, find_member, read_batch, read_batches, read_column, read_columns};
use json_read::{Coding, FileHead, read_head};
use serde_json::Value;
use std::alloc::Global;
use std::process::Abort;
use std::sync::Arc;
use std::test::Fail;
use test_samples::{Shown, shows};

/// How deep a column's values may be nested.
const DEPTH: usize = 8;

/// A field of the type TYPE.
static FIELD: &str = r#"{"name":"n","nullable":true,"type":{TYPE},"children":[]}"#;

/// The column of a text, which ends where the text does.
fn read(alloc: Global, field: &Field, coding: &Option<Coding>, text: &str) -> Result<Array, Miss> {
    let read = read_column(alloc, field, coding, text, 0, DEPTH)?;
    if read.end == text.len() {
        Ok(read.value)
    } else {
        Err(Miss::Unread)
    }
}

/// What slots hold: values, or lists of such.
#[derive(Clone, Copy)]
enum Held {
    Values(Shown),
    Lists(&'static [Option<Shown>]),
}

/// Whether the slots of a view hold this.
fn holds(view: &View<'_>, held: Held) -> bool {
    match held {
        Held::Values(shown) => shows(view, shown),
        Held::Lists(lists) => shows_each(view, lists),
    }
}

/// Whether the slots of a view hold these lists.
fn shows_each(view: &View<'_>, lists: &[Option<Shown>]) -> bool {
    let ViewType::List(_, _) = view.ty() else {
        return false;
    };
    if view.len() != lists.len() {
        return false;
    }
    for (i, list) in lists.iter().enumerate() {
        let is_same = match (view.list_at(i), list) {
            (Some(items), Some(shown)) => shows(&items, *shown),
            (None, None) => true,
            _ => false,
        };
        if !is_same || view.holds(i) != list.is_some() {
            return false;
        }
    }
    true
}

/// The column of a file that has one.
fn only_column(file: &File) -> Result<&Array, Fail> {
    let batch = file.batches().first().ok_or("no batch")?;
    Ok(batch.columns().first().ok_or("no column")?)
}

/// Asserts that both readers take a column of a field, and that it holds this.
fn expect(
    rt: &impl Abort,
    alloc: Global,
    field: &str,
    column: &str,
    held: Held,
) -> Result<(), Fail> {
    assert!(rt; is_read(alloc, field, column, held)?, "{column}");
    Ok(())
}

/// Whether both readers find that a column holds this.
fn is_read(alloc: Global, field: &str, column: &str, held: Held) -> Result<bool, Fail> {
    let ty = read_field(alloc, field.as_bytes())?;
    let array = read(alloc, &ty, &None, column)?;
    if !holds(&array.view(), held) {
        return Ok(false);
    }
    is_read_of_file(alloc, field, array.len(), column, held)
}

/// Whether the reader of files finds that a column of so many slots holds this.
fn is_read_of_file(
    alloc: Global,
    field: &str,
    count: usize,
    column: &str,
    held: Held,
) -> Result<bool, Fail> {
    let text = format!(in alloc;
        "{{\"schema\":{{\"fields\":[{field}]}},\"batches\":[{{\"count\":{count},\"columns\":[{column}]}}]}}"
    )?;
    let file = read_file(alloc, text.as_bytes())?;
    Ok(holds(&only_column(&file)?.view(), held))
}

/// Asserts that columns of a field aren't read.
fn expect_unread(
    rt: &impl Abort,
    alloc: Global,
    field: &str,
    columns: &[&str],
) -> Result<(), Fail> {
    let field = read_field(alloc, field.as_bytes())?;
    for column in columns {
        assert!(rt; is_unread(read(alloc, &field, &None, *column)), "{column}");
    }
    Ok(())
}

/// The orders of four members.
#[rattlefmt::skip]
static ORDERS: [[usize; 4]; 24] = [
    [0, 1, 2, 3], [0, 1, 3, 2], [0, 2, 1, 3], [0, 2, 3, 1], [0, 3, 1, 2], [0, 3, 2, 1],
    [1, 0, 2, 3], [1, 0, 3, 2], [1, 2, 0, 3], [1, 2, 3, 0], [1, 3, 0, 2], [1, 3, 2, 0],
    [2, 0, 1, 3], [2, 0, 3, 1], [2, 1, 0, 3], [2, 1, 3, 0], [2, 3, 0, 1], [2, 3, 1, 0],
    [3, 0, 1, 2], [3, 0, 2, 1], [3, 1, 0, 2], [3, 1, 2, 0], [3, 2, 0, 1], [3, 2, 1, 0],
];

/// The column of these members in an order.
fn column_of(alloc: Global, members: &[&str], order: &[usize]) -> Result<String, Fail> {
    let mut column = String::new(alloc);
    for place in order {
        column.push_str(if column.is_empty() { "{" } else { "," })?;
        column.push_str(members.get(*place).ok_or("no member")?)?;
    }
    column.push_str("}")?;
    Ok(column)
}

/// Asserts that both readers take the column of four members in each order, and that it holds this.
fn expect_in_each_order(
    rt: &impl Abort,
    alloc: Global,
    field: &str,
    members: &[&str],
    held: Held,
) -> Result<(), Fail> {
    for order in &ORDERS {
        let column = column_of(alloc, members, order)?;
        expect(rt, alloc, field, column.as_str(), held)?;
    }
    Ok(())
}

const INT8: &str = r#""name":"int","bitWidth":8,"isSigned":true"#;

const INT64: &str = r#""name":"int","bitWidth":64,"isSigned":true"#;

const UINT64: &str = r#""name":"int","bitWidth":64,"isSigned":false"#;

const BOOL: &str = r#""name":"bool""#;

const UTF8: &str = r#""name":"utf8""#;

const LARGE_UTF8: &str = r#""name":"largeutf8""#;

/// A type, the members of a column of three slots, and what it holds. Under a null anything stands.
struct Case {
    ty: &'static str,
    validity: &'static str,
    values: &'static str,
    shown: Shown,
}

#[rattlefmt::skip]
static CASES: [Case; 8] = [
    Case { ty: INT8, validity: r#""VALIDITY" : [1,1,true]"#, values: r#""DATA":[-128, 0 ,127]"#, shown: Shown::Numbers(&[Some(-128), Some(0), Some(127)]) },
    Case { ty: INT8, validity: r#""VALIDITY":null"#, values: r#""DATA":["-0","007",5]"#, shown: Shown::Numbers(&[Some(0), Some(7), Some(5)]) },
    Case { ty: INT8, validity: r#""VALIDITY":[0,1,false]"#, values: r#""DATA":[[{"a":1.5e3}],7,null]"#, shown: Shown::Numbers(&[None, Some(7), None]) },
    Case { ty: INT64, validity: r#""VALIDITY":[1,0,1]"#, values: r#""DATA":["-9223372036854775808",128,9223372036854775807]"#, shown: Shown::Numbers(&[Some(-9223372036854775808), None, Some(9223372036854775807)]) },
    Case { ty: UINT64, validity: r#""VALIDITY":[1,0,1]"#, values: r#""DATA":["18446744073709551615","x",18446744073709551615]"#, shown: Shown::Numbers(&[Some(18446744073709551615), None, Some(18446744073709551615)]) },
    Case { ty: BOOL, validity: r#""VALIDITY":[true,0,1]"#, values: r#""DATA":[true,"true",0]"#, shown: Shown::Bools(&[Some(true), None, Some(false)]) },
    Case { ty: UTF8, validity: r#""VALIDITY":[1,0,1]"#, values: r#""OFFSET":[0,5,"x"],"DATA":["a\u00e9\n",7,""]"#, shown: Shown::Texts(&[Some("aé\n"), None, Some("")]) },
    Case { ty: LARGE_UTF8, validity: r#""other":{"DATA":[1]}"#, values: r#""DATA":["","b]}\"","😀"]"#, shown: Shown::Texts(&[Some(""), Some("b]}\""), Some("😀")]) },
];

#[test]
fn members_come_in_any_order(rt: HostRuntime) -> Result<(), Fail> {
    for case in &CASES {
        let field = FIELD.replace(rt.alloc(), "TYPE", case.ty)?;
        let members = [r#""name":"n""#, r#" "count":3"#, case.validity, case.values];
        let held = Held::Values(case.shown);
        expect_in_each_order(&rt, rt.alloc(), field.as_str(), &members, held)?;
    }
    Ok(())
}

/// Columns of integers with members of one name, of which the last decides.
static DOUBLES: [(&str, Shown); 4] = [
    (
        r#"{"count":9,"DATA":["x"],"VALIDITY":[0,0,0],"count":1,"VALIDITY":[1],"DATA":[7]}"#,
        Shown::Numbers(&[Some(7)]),
    ),
    (
        r#"{"VALIDITY":[1,1],"DATA":[1,2],"VALIDITY":[0,1],"count":2}"#,
        Shown::Numbers(&[None, Some(2)]),
    ),
    (
        r#"{"VALIDITY":[0],"DATA":[1],"VALIDITY":null,"count":1}"#,
        Shown::Numbers(&[Some(1)]),
    ),
    (
        r#"{"DATA":[1,2],"DATA":[],"count":0,"VALIDITY":[]}"#,
        Shown::Numbers(&[]),
    ),
];

#[test]
fn the_last_of_doubled_members_decides(rt: HostRuntime) -> Result<(), Fail> {
    let field = FIELD.replace(rt.alloc(), "TYPE", INT64)?;
    for (column, shown) in &DOUBLES {
        let held = Held::Values(*shown);
        expect(&rt, rt.alloc(), field.as_str(), *column, held)?;
    }
    Ok(())
}

/// Columns of integers of 8 bits that are at fault.
static UNREAD: &[&str] = &[
    "",
    "[]",
    "{}",
    r#"{"count":1}"#,
    r#"{"DATA":[1]}"#,
    r#"{"count":1,"DATA":[1]"#,
    r#"{"count":1,"DATA":[1,2]}"#,
    r#"{"count":-1,"DATA":[]}"#,
    r#"{"count":2147483648,"DATA":[]}"#,
    r#"{"count":1,"DATA":[128]}"#,
    r#"{"count":1,"DATA":["+5"]}"#,
    r#"{"count":1,"DATA":["256"]}"#,
    r#"{"count":1,"DATA":[1.0]}"#,
    r#"{"count":1,"DATA":1}"#,
    r#"{"count":1,"VALIDITY":[1,1],"DATA":[1]}"#,
    r#"{"count":1,"VALIDITY":[],"DATA":[1]}"#,
    r#"{"count":1,"VALIDITY":[2],"DATA":[1]}"#,
    r#"{"count":1,"VALIDITY":true,"DATA":[1]}"#,
    r#"{"count":1,"VALIDITY":[0],"DATA":[01]}"#,
    r#"{"count":1,"DATA":[1],"other":01}"#,
];

#[test]
fn what_is_at_fault_is_unread(rt: HostRuntime) -> Result<(), Fail> {
    let field = FIELD.replace(rt.alloc(), "TYPE", INT8)?;
    expect_unread(&rt, rt.alloc(), field.as_str(), UNREAD)
}

/// A batch of a column of integers and one of texts, both of two slots, with its members as they come in the files that are printed.
static BATCH: &str =
    r#"{"columns":[{"count":2,"DATA":[1,2],"VALIDITY":[1,0]}, {"DATA":["a","b"],"count":2}],"count":2}"#;

/// Batches of such columns that are at fault.
static UNREAD_BATCHES: &[&str] = &[
    "[]",
    r#"{"count":0}"#,
    r#"{"count":0,"columns":[]}"#,
    r#"{"count":1,"columns":[{"count":1,"DATA":[1]}]}"#,
    r#"{"count":1,"columns":[{"count":1,"DATA":[1]},{"count":2,"DATA":["a","b"]}]}"#,
    r#"{"count":2,"columns":[{"count":1,"DATA":[1]},{"count":1,"DATA":["a"]}]}"#,
    r#"{"count":0,"columns":[{"count":0,"DATA":[]},{"count":0,"DATA":[]},{"count":0,"DATA":[]}]}"#,
    r#"{"columns":[{"count":1,"DATA":[1]},{"count":1,"DATA":["a"]}]}"#,
];

/// A file of no such batch.
static NO_BATCHES: &str =
    r#"{"schema":{"fields":[{"name":"n","nullable":true,"type":{"name":"int","bitWidth":8,"isSigned":true},"children":[]},{"name":"n","nullable":true,"type":{"name":"utf8"},"children":[]}]},"batches":[]}"#;

/// The fields of such a batch.
fn schema(alloc: Global) -> Result<Arc<Schema>, Fail> {
    let (schema, _batches) = read_file(alloc, NO_BATCHES.as_bytes())?.into_parts();
    Ok(schema)
}

/// What is read of such a batch.
fn read_one(alloc: Global, schema: &Arc<Schema>, text: &str) -> Result<Placed<RecordBatch>, Miss> {
    read_batch(alloc, schema, &[None, None], text, 0, DEPTH)
}

/// Whether it is the batch of the text above.
fn is_batch(batch: &RecordBatch) -> bool {
    match batch.columns() {
        [numbers, texts] => {
            batch.rows() == 2
                && shows(&numbers.view(), Shown::Numbers(&[Some(1), None]))
                && shows(&texts.view(), Shown::Texts(&[Some("a"), Some("b")]))
        }
        _ => false,
    }
}

#[test]
fn batches_are_read(rt: HostRuntime) -> Result<(), Fail> {
    let schema = schema(rt.alloc())?;
    let read = read_one(rt.alloc(), &schema, BATCH)?;
    assert!(rt; read.end == BATCH.len() && is_batch(&read.value));
    Ok(())
}

#[test]
fn no_columns_are_read(rt: HostRuntime) -> Result<(), Fail> {
    let schema = schema(rt.alloc())?;
    let read = read_columns(rt.alloc(), schema.fields(), &[None, None], " []", 0, DEPTH)?;
    assert!(rt; read.value.is_empty() && read.end == 3);
    Ok(())
}

#[test]
fn batches_at_fault_are_unread(rt: HostRuntime) -> Result<(), Fail> {
    let schema = schema(rt.alloc())?;
    for text in UNREAD_BATCHES {
        assert!(&rt; is_unread(read_one(rt.alloc(), &schema, *text)), "{text}");
    }
    Ok(())
}

/// Two such batches, and one before what is none.
static TWO_BATCHES: &str =
    r#"[{"columns":[{"count":2,"DATA":[1,2],"VALIDITY":[1,0]}, {"DATA":["a","b"],"count":2}],"count":2} , {"columns":[{"count":2,"DATA":[1,2],"VALIDITY":[1,0]}, {"DATA":["a","b"],"count":2}],"count":2}]"#;

static ONE_OF_TWO: &str =
    r#"[{"columns":[{"count":2,"DATA":[1,2],"VALIDITY":[1,0]}, {"DATA":["a","b"],"count":2}],"count":2},{}]"#;

/// Batches, where they stand.
type Batches = Placed<Vec<Arc<RecordBatch>>>;

/// What is read of such batches.
fn read_all(alloc: Global, schema: &Arc<Schema>, text: &str) -> Result<Batches, Miss> {
    read_batches(alloc, schema, &[None, None], text, 0, DEPTH)
}

/// Whether they are two of the text above.
fn are_two(batches: &[Arc<RecordBatch>]) -> bool {
    match batches {
        [first, second] => is_batch(first) && is_batch(second),
        _ => false,
    }
}

#[test]
fn batches_share_their_schema(rt: HostRuntime) -> Result<(), Fail> {
    let schema = schema(rt.alloc())?;
    let read = read_all(rt.alloc(), &schema, TWO_BATCHES)?;
    assert!(&rt; read.end == TWO_BATCHES.len() && are_two(&read.value));
    assert!(&rt; is_unread(read_all(rt.alloc(), &schema, ONE_OF_TWO)));
    Ok(())
}

/// A file of a field with a dictionary of three entries, of indices of the type INDEX, and of one batch with this column.
static CODED: &str =
    r#"{"schema":{"fields":[{"name":"s","nullable":true,"type":{"name":"utf8"},"children":[],"dictionary":{"id":7,"indexType":{INDEX}}}]},"dictionaries":[{"id":7,"data":{"count":3,"columns":[{"count":3,"VALIDITY":[1,0,1],"DATA":["a","","c"]}]}}],"batches":[{"count":COUNT,"columns":[COLUMN]}]}"#;

/// A file of a column of indices of this type.
fn coded_text(alloc: Global, index: &str, count: &str, column: &str) -> Result<String, Fail> {
    let text = CODED.replace(alloc, "INDEX", index)?;
    let text = text.as_str().replace(alloc, "COUNT", count)?;
    Ok(text.as_str().replace(alloc, "COLUMN", column)?)
}

/// What a file says before its batches.
fn head_of(alloc: Global, text: &str) -> Result<FileHead, Fail> {
    let document = Value::from_str(alloc, text)?;
    Ok(read_head(alloc, &document)?)
}

/// What is read of the column of the first field of a file.
fn read_coded(alloc: Global, text: &str, column: &str) -> Result<Result<Array, Miss>, Fail> {
    let head = head_of(alloc, text)?;
    let field = head.schema.fields().first().ok_or("no field")?;
    let coding = head.catalog.first().ok_or("no coding")?;
    Ok(read(alloc, field, coding, column))
}

const UINT8: &str = r#""name":"int","bitWidth":8,"isSigned":false"#;

const INT16: &str = r#""name":"int","bitWidth":16,"isSigned":true"#;

const UINT32: &str = r#""name":"int","bitWidth":32,"isSigned":false"#;

/// A type of indices, a column of three of them, and the codes and texts that it holds.
struct CodedCase {
    index: &'static str,
    column: &'static str,
    codes: &'static [Option<i128>],
    texts: &'static [Option<&'static str>],
}

#[rattlefmt::skip]
static CODED_CASES: [CodedCase; 7] = [
    CodedCase { index: INT8, column: r#"{"count":3,"VALIDITY":[1,1,1],"DATA":[2,0,1]}"#, codes: &[Some(2), Some(0), Some(1)], texts: &[Some("c"), Some("a"), None] },
    CodedCase { index: UINT8, column: r#"{"count":3,"VALIDITY":[0,true,0],"DATA":[-1,2,"x"]}"#, codes: &[None, Some(2), None], texts: &[None, Some("c"), None] },
    CodedCase { index: INT16, column: r#"{"DATA":[0,3,2],"VALIDITY":[1,0,1],"count":3}"#, codes: &[Some(0), None, Some(2)], texts: &[Some("a"), None, Some("c")] },
    CodedCase { index: UINT32, column: r#"{"DATA":["2","02",2],"count":3}"#, codes: &[Some(2), Some(2), Some(2)], texts: &[Some("c"), Some("c"), Some("c")] },
    CodedCase { index: INT64, column: r#"{"VALIDITY":[0,0,0],"DATA":["-0",[{}],null],"VALIDITY":[1,0,0],"count":3}"#, codes: &[Some(0), None, None], texts: &[Some("a"), None, None] },
    CodedCase { index: UINT64, column: r#"{"VALIDITY":[1,0,1],"DATA":["0",18446744073709551616,"2"],"count":3}"#, codes: &[Some(0), None, Some(2)], texts: &[Some("a"), None, Some("c")] },
    CodedCase { index: UINT64, column: r#"{"count":3,"VALIDITY":null,"DATA":[0,0,0]}"#, codes: &[Some(0), Some(0), Some(0)], texts: &[Some("a"), Some("a"), Some("a")] },
];

/// Whether both readers find that a column of indices holds its texts.
fn is_coded(alloc: Global, case: &CodedCase) -> Result<bool, Fail> {
    let text = coded_text(alloc, case.index, "3", case.column)?;
    let array = read_coded(alloc, text.as_str(), case.column)??;
    let file = read_file(alloc, text.as_bytes())?;
    let shown = Shown::Encoded(case.codes, &[Some("a"), None, Some("c")], case.texts);
    Ok(shows(&array.view(), shown) && shows(&only_column(&file)?.view(), shown))
}

#[test]
fn indices_lead_into_their_dictionary(rt: HostRuntime) -> Result<(), Fail> {
    for case in &CODED_CASES {
        assert!(&rt; is_coded(rt.alloc(), case)?, "{}", case.column);
    }
    Ok(())
}

/// A type of indices, and a column of one that isn't one, or is past the dictionary.
static UNREAD_CODES: [(&str, &str); 9] = [
    (INT8, r#"{"count":1,"DATA":[3]}"#),
    (INT8, r#"{"count":1,"DATA":[-1]}"#),
    (INT8, r#"{"DATA":["-1"],"VALIDITY":[1],"count":1}"#),
    (INT64, r#"{"count":1,"DATA":[4294967296]}"#),
    (UINT64, r#"{"count":1,"DATA":["18446744073709551615"]}"#),
    (UINT8, r#"{"count":1,"DATA":[256]}"#),
    (UINT32, r#"{"count":1,"DATA":["a"]}"#),
    (INT16, r#"{"count":1,"DATA":[1.0]}"#),
    (INT16, r#"{"count":1,"VALIDITY":[],"DATA":[1]}"#),
];

/// Whether neither reader takes a column of indices.
fn is_read_by_none(alloc: Global, index: &str, column: &str) -> Result<bool, Fail> {
    let text = coded_text(alloc, index, "1", column)?;
    let read = read_coded(alloc, text.as_str(), column)?;
    Ok(is_unread(read) && read_file(alloc, text.as_bytes()).is_err())
}

#[test]
fn an_index_past_its_dictionary_is_unread(rt: HostRuntime) -> Result<(), Fail> {
    for (index, column) in &UNREAD_CODES {
        assert!(&rt; is_read_by_none(rt.alloc(), *index, *column)?, "{column}");
    }
    Ok(())
}

/// A file of two fields that share a dictionary, and of two batches.
static SHARED: &str =
    r#"{"schema":{"fields":[{"name":"a","nullable":true,"type":{"name":"utf8"},"children":[],"dictionary":{"id":7,"indexType":{"name":"int","bitWidth":8,"isSigned":true}}},{"name":"n","nullable":true,"type":{"name":"bool"},"children":[]},{"name":"b","nullable":true,"type":{"name":"utf8"},"children":[],"dictionary":{"id":7,"indexType":{"name":"int","bitWidth":64,"isSigned":false}}}]},"dictionaries":[{"id":7,"data":{"count":2,"columns":[{"count":2,"DATA":["x","y"]}]}}],"batches":[{"count":2,"columns":[{"count":2,"DATA":[1,0]},{"count":2,"DATA":[1,0]},{"count":2,"VALIDITY":[0,1],"DATA":[9,"1"]}]},{"count":0,"columns":[{"count":0,"DATA":[]},{"count":0,"DATA":[]},{"count":0,"DATA":[]}]}]}"#;

/// Whether no batch of that file is read under a catalog.
fn is_unread_under(
    alloc: Global,
    schema: &Arc<Schema>,
    catalog: &[Option<Coding>],
) -> Result<bool, Fail> {
    let found = find_member(alloc, SHARED, 0, DEPTH, "batches")?;
    let at = found.value.ok_or("no batches")?.min(SHARED.len());
    Ok(is_unread(read_batches(alloc, schema, catalog, SHARED, at, DEPTH)))
}

#[test]
fn fields_share_a_dictionary(rt: HostRuntime) -> Result<(), Fail> {
    let head = head_of(rt.alloc(), SHARED)?;
    assert!(&rt; is_unread_under(rt.alloc(), &head.schema, &[])?);
    assert!(&rt; is_unread_under(rt.alloc(), &head.schema, &[None, None, None])?);
    expect_read(&rt, rt.alloc(), SHARED)
}

/// What is read of one slot of a field.
fn read_slot(alloc: Global, field: &Field, coding: &Option<Coding>) -> Result<Array, Miss> {
    read(alloc, field, coding, r#"{"count":1,"DATA":[1]}"#)
}

#[test]
fn only_a_dictionary_is_encoded(rt: HostRuntime) -> Result<(), Fail> {
    let head = head_of(rt.alloc(), SHARED)?;
    let encoded = head.schema.fields().first().ok_or("no field")?;
    let plain = head.schema.fields().get(1).ok_or("one field")?;
    let coding = head.catalog.first().ok_or("no coding")?;
    assert!(&rt; read_slot(rt.alloc(), encoded, coding).is_ok());
    assert!(&rt; is_unread(read_slot(rt.alloc(), encoded, &None)));
    assert!(&rt; is_unread(read_slot(rt.alloc(), plain, coding)));
    assert!(&rt; read_slot(rt.alloc(), plain, &None).is_ok());
    Ok(())
}

/// A type of lists, the item's type and the item's own children, the members of a column but for its count, and what the lists hold.
struct ListCase {
    ty: &'static str,
    item: &'static str,
    below: &'static str,
    validity: &'static str,
    offsets: &'static str,
    child: &'static str,
    lists: &'static [Option<Shown>],
}

const LIST: &str = r#""name":"list""#;

const LARGE_LIST: &str = r#""name":"largelist""#;

/// A field of lists of ITEM.
static LISTS: &str =
    r#"{"name":"n","nullable":true,"type":{TYPE},"children":[{"name":"i","nullable":true,"type":{ITEM},"children":[BELOW]}]}"#;

/// A field of integers of 8 bits, and one of lists of them.
const BYTES: &str =
    r#"{"name":"b","nullable":true,"type":{"name":"int","bitWidth":8,"isSigned":true},"children":[]}"#;

const LISTS_OF_BYTES: &str =
    r#"{"name":"l","nullable":true,"type":{"name":"largelist"},"children":[{"name":"b","nullable":true,"type":{"name":"int","bitWidth":8,"isSigned":true},"children":[]}]}"#;

#[rattlefmt::skip]
static LIST_CASES: [ListCase; 9] = [
    ListCase {
        ty: LIST, item: INT8, below: "",
        validity: r#""VALIDITY":[1,0,true,1]"#, offsets: r#""OFFSET":[0,2,3,3,4]"#, child: r#"{"count":4,"VALIDITY":[1,0,1,1],"DATA":[1,"x",9,-3]}"#,
        lists: &[Some(Shown::Numbers(&[Some(1), None])), None, Some(Shown::Numbers(&[])), Some(Shown::Numbers(&[Some(-3)]))],
    },
    ListCase {
        ty: LIST, item: LARGE_LIST, below: BYTES,
        validity: r#""VALIDITY":[1,1,0]"#, offsets: r#""OFFSET":[0,2,3,3]"#,
        child: r#"{"children":[{"DATA":[5,6],"count":2}],"OFFSET":["0","1",1,2],"VALIDITY":[1,0,1],"count":3}"#,
        lists: &[Some(Shown::Lists(&[Some(&[Some(5)]), None])), Some(Shown::Lists(&[Some(&[Some(6)])])), None],
    },
    ListCase {
        ty: LARGE_LIST, item: INT8, below: "",
        validity: r#""VALIDITY":null"#, offsets: r#""OFFSET":["1", "3" ,"03"]"#, child: r#" {"count":4,"DATA":[1,2,3,4]} "#,
        lists: &[Some(Shown::Numbers(&[Some(2), Some(3)])), Some(Shown::Numbers(&[]))],
    },
    ListCase {
        ty: LIST, item: UTF8, below: "",
        validity: r#""VALIDITY":[1,1]"#, offsets: r#""OFFSET":[0,1,3]"#, child: r#"{"count":3,"VALIDITY":[1,0,1],"OFFSET":[0],"DATA":["a]\n","",""]}"#,
        lists: &[Some(Shown::Texts(&[Some("a]\n")])), Some(Shown::Texts(&[None, Some("")]))],
    },
    ListCase {
        ty: LARGE_LIST, item: BOOL, below: "",
        validity: r#""VALIDITY":[false,1]"#, offsets: r#""OFFSET":[0,0,"2"]"#, child: r#"{"count":2,"DATA":[true,0]}"#,
        lists: &[None, Some(Shown::Bools(&[Some(true), Some(false)]))],
    },
    ListCase {
        ty: LIST, item: INT8, below: "",
        validity: r#""VALIDITY":[]"#, offsets: r#""OFFSET":[]"#, child: r#"{"count":0,"DATA":[]}"#,
        lists: &[],
    },
    ListCase {
        ty: LARGE_LIST, item: LIST, below: BYTES,
        validity: r#""other":[[{}]]"#, offsets: r#""OFFSET":[0]"#, child: r#"{"count":1,"OFFSET":[0,0],"children":[{"count":0,"DATA":[]}]}"#,
        lists: &[],
    },
    ListCase {
        ty: LARGE_LIST, item: LIST, below: LISTS_OF_BYTES,
        validity: r#""VALIDITY":[1]"#, offsets: r#""OFFSET":[0,1]"#,
        child: r#"{"count":1,"OFFSET":[0,2],"children":[{"count":2,"OFFSET":[0,1,1],"VALIDITY":[1,0],"children":[{"count":1,"DATA":[8]}]}]}"#,
        lists: &[Some(Shown::ListsOfLists(&[Some(&[Some(&[Some(8)]), None])]))],
    },
    ListCase {
        ty: LIST, item: INT8, below: "",
        validity: r#""VALIDITY":[0],"OFFSET":[0,2],"count":5,"children":[{"count":2,"DATA":[9,9]}],"VALIDITY":null"#, offsets: r#""OFFSET":[0,1]"#,
        child: r#"{"count":1,"DATA":[4]}"#, lists: &[Some(Shown::Numbers(&[Some(4)]))],
    },
];

/// The field of a column of lists.
fn lists_field(alloc: Global, case: &ListCase) -> Result<String, Fail> {
    let text = LISTS.replace(alloc, "TYPE", case.ty)?;
    let text = text.as_str().replace(alloc, "ITEM", case.item)?;
    Ok(text.as_str().replace(alloc, "BELOW", case.below)?)
}

/// Asserts that both readers take the column of lists of these members in an order, and that it holds its lists.
fn expect_lists(rt: &impl Abort, alloc: Global, case: &ListCase) -> Result<(), Fail> {
    let field = lists_field(alloc, case)?;
    let (validity, offsets, child) = (case.validity, case.offsets, case.child);
    let count = case.lists.len();
    let column = format!(in alloc;
        "{{\"name\":\"n\",{validity},\"count\":{count},{offsets},\"children\":[{child}]}}"
    )?;
    expect(
        rt,
        alloc,
        field.as_str(),
        column.as_str(),
        Held::Lists(case.lists),
    )
}

#[test]
fn lists_are_read(rt: HostRuntime) -> Result<(), Fail> {
    for case in &LIST_CASES {
        expect_lists(&rt, rt.alloc(), case)?;
    }
    Ok(())
}

/// Asserts the same of the members in each order.
fn expect_lists_in_each_order(rt: &impl Abort, alloc: Global, case: &ListCase) -> Result<(), Fail> {
    let field = lists_field(alloc, case)?;
    let count = format!(in alloc; "\"count\":{}", case.lists.len())?;
    let children = format!(in alloc; "\"children\":[{}]", case.child)?;
    let members = [
        count.as_str(),
        case.validity,
        case.offsets,
        children.as_str(),
    ];
    expect_in_each_order(rt, alloc, field.as_str(), &members, Held::Lists(case.lists))
}

#[test]
fn members_of_lists_come_in_any_order(rt: HostRuntime) -> Result<(), Fail> {
    for case in LIST_CASES.iter().take(2) {
        expect_lists_in_each_order(&rt, rt.alloc(), case)?;
    }
    Ok(())
}

/// Columns of lists of integers of 8 bits, with narrow offsets, that are at fault.
static UNREAD_LISTS: &[&str] = &[
    "[]",
    "{}",
    r#"{"OFFSET":[0,1],"children":[{"count":1,"DATA":[1]}]}"#,
    r#"{"count":1,"children":[{"count":1,"DATA":[1]}]}"#,
    r#"{"count":1,"OFFSET":[0,1]}"#,
    r#"{"count":1,"OFFSET":[0,1],"children":[]}"#,
    r#"{"count":1,"OFFSET":[0,1],"children":{"count":1,"DATA":[1]}}"#,
    r#"{"count":1,"OFFSET":[0,1],"children":[{"count":1,"DATA":[1]},{"count":1,"DATA":[1]}]}"#,
    r#"{"count":1,"OFFSET":[0,2],"children":[{"count":1,"DATA":[1]}]}"#,
    r#"{"count":2,"OFFSET":[0,2,1],"children":[{"count":2,"DATA":[1,2]}]}"#,
    r#"{"count":1,"OFFSET":[-1,0],"children":[{"count":1,"DATA":[1]}]}"#,
    r#"{"count":1,"OFFSET":[0,4294967296],"children":[{"count":1,"DATA":[1]}]}"#,
    r#"{"count":1,"OFFSET":[0,0.5],"children":[{"count":1,"DATA":[1]}]}"#,
    r#"{"count":1,"OFFSET":[0],"children":[{"count":1,"DATA":[1]}]}"#,
    r#"{"count":1,"OFFSET":[0,1,1],"children":[{"count":1,"DATA":[1]}]}"#,
    r#"{"count":0,"OFFSET":[0,1],"children":[{"count":1,"DATA":[1]}]}"#,
    r#"{"count":1,"OFFSET":[],"children":[{"count":0,"DATA":[]}]}"#,
    r#"{"count":1,"OFFSET":null,"children":[{"count":1,"DATA":[1]}]}"#,
    r#"{"count":1,"OFFSET":[0,1],"children":[{"count":2,"DATA":[1]}]}"#,
    r#"{"count":1,"OFFSET":[0,1],"children":[{"count":1,"DATA":[128]}]}"#,
    r#"{"count":1,"OFFSET":[0,1],"VALIDITY":[1,1],"children":[{"count":1,"DATA":[1]}]}"#,
    r#"{"count":1,"OFFSET":[0,1],"VALIDITY":[2],"children":[{"count":1,"DATA":[1]}]}"#,
    r#"{"count":1,"OFFSET":[0,1],"children":[{"count":1,"DATA":[1]}]"#,
];

#[test]
fn lists_at_fault_are_unread(rt: HostRuntime) -> Result<(), Fail> {
    let field = lists_field(rt.alloc(), LIST_CASES.first().ok_or("no case")?)?;
    expect_unread(&rt, rt.alloc(), field.as_str(), UNREAD_LISTS)
}

/// Columns of lists of such lists that are at fault below, where the lists would be found.
static UNREAD_BELOW: &[&str] = &[
    r#"{"count":0,"OFFSET":[0],"children":[[]]}"#,
    r#"{"count":0,"OFFSET":[0],"children":[{"count":0,"OFFSET":[0]}]}"#,
    r#"{"count":0,"OFFSET":[0],"children":[{"count":1,"OFFSET":[0,4294967297],"children":[{"count":1,"DATA":[1]}]}]}"#,
    r#"{"count":0,"OFFSET":[0],"children":[{"count":0,"OFFSET":[0],"children":[{"count":1,"DATA":[]}]}]}"#,
    r#"{"count":0,"OFFSET":[0],"children":[{"count":0,"OFFSET":[0],"children":[{"count":0,"DATA":[]}]},1]}"#,
    r#"{"count":0,"OFFSET":[0],"children":[{"count":0,"OFFSET":[0],"children":[{"count":0,"DATA":[]}]}:1]}"#,
];

#[test]
fn lists_at_fault_below_are_unread(rt: HostRuntime) -> Result<(), Fail> {
    let field = lists_field(rt.alloc(), LIST_CASES.get(1).ok_or("no case")?)?;
    expect_unread(&rt, rt.alloc(), field.as_str(), UNREAD_BELOW)
}

/// A column of no lists of lists, which takes a depth of 6.
static DEEP: &str =
    r#"{"count":0,"OFFSET":[],"children":[{"count":0,"OFFSET":[],"children":[{"count":0,"DATA":[]}]}]}"#;

#[test]
fn lists_are_read_to_their_depth(rt: HostRuntime) -> Result<(), Fail> {
    let field = lists_field(rt.alloc(), LIST_CASES.get(1).ok_or("no case")?)?;
    let field = read_field(rt.alloc(), field.as_bytes())?;
    assert!(&rt; read_column(rt.alloc(), &field, &None, DEEP, 0, 6).is_ok());
    assert!(&rt; is_unread(read_column(rt.alloc(), &field, &None, DEEP, 0, 5)));
    Ok(())
}
