//! Files and their texts, which are written out by hand.

ghost use Rattle.std.specs.Prelude.{◌≡◌, IfOk};
ghost use Rattle.std.specs.Arc.{arc_value};

use arrays::{Array, DataType, File, RecordBatch, Schema, validate};
use arrow_json::{print_file, read_file};
use json_laws::whole::tell_file;
use std::alloc::Global;
use std::process::Abort;
use std::sync::Arc;
use std::test::Fail;
use test_samples::{coded, field, raw};

/// Files as they come, and as they are printed: 64-bit numbers as strings, 0 and no text under nulls, offsets from 0
/// on, the items of lists that are there alone, and no member that isn't needed.
static FILES: [(&str, &str); 12] = [
    (
        r#"{"schema":{"fields":[{"name":"n","nullable":true,"type":{"name":"int","bitWidth":64,"isSigned":true},"children":[]}]},"batches":[{"count":3,"columns":[{"name":"n","count":3,"VALIDITY":[1,0,1],"DATA":["9223372036854775807","x",-1]}]}]}"#,
        r#"{"batches":[{"columns":[{"DATA":["9223372036854775807","0","-1"],"VALIDITY":[1,0,1],"count":3,"name":"n"}],"count":3}],"schema":{"fields":[{"children":[],"name":"n","nullable":true,"type":{"bitWidth":64,"isSigned":true,"name":"int"}}]}}"#,
    ),
    (
        r#"{"schema":{"fields":[{"name":"l","nullable":true,"type":{"name":"list"},"children":[{"name":"item","nullable":true,"type":{"name":"int","bitWidth":8,"isSigned":true},"children":[]}]}]},"batches":[{"count":0,"columns":[{"name":"l","count":0,"VALIDITY":[],"OFFSET":[],"children":[{"name":"item","count":0,"VALIDITY":[],"DATA":[]}]}]}]}"#,
        r#"{"batches":[{"columns":[{"OFFSET":[0],"VALIDITY":[],"children":[{"DATA":[],"VALIDITY":[],"count":0,"name":"item"}],"count":0,"name":"l"}],"count":0}],"schema":{"fields":[{"children":[{"children":[],"name":"item","nullable":true,"type":{"bitWidth":8,"isSigned":true,"name":"int"}}],"name":"l","nullable":true,"type":{"name":"list"}}]}}"#,
    ),
    (
        r#"{"schema":{"fields":[{"name":"k","nullable":true,"type":{"name":"utf8"},"children":[]},{"name":"v","nullable":true,"type":{"name":"int","bitWidth":32,"isSigned":true},"children":[]}]},"batches":[{"count":4,"columns":[{"name":"k","count":4,"VALIDITY":[0,1,0,1],"OFFSET":[0,0,1,1,2],"DATA":["","b","","a"]},{"name":"v","count":4,"VALIDITY":[1,1,1,0],"DATA":[1,2,3,7]}]}]}"#,
        r#"{"batches":[{"columns":[{"DATA":["","b","","a"],"OFFSET":[0,0,1,1,2],"VALIDITY":[0,1,0,1],"count":4,"name":"k"},{"DATA":[1,2,3,0],"VALIDITY":[1,1,1,0],"count":4,"name":"v"}],"count":4}],"schema":{"fields":[{"children":[],"name":"k","nullable":true,"type":{"name":"utf8"}},{"children":[],"name":"v","nullable":true,"type":{"bitWidth":32,"isSigned":true,"name":"int"}}]}}"#,
    ),
    // A dictionary with a text that comes twice and a null; a null by its code, and one by its entry. Its batch may stand in an array.
    (
        r#"{"schema":{"fields":[{"name":"s","nullable":true,"type":{"name":"utf8"},"children":[],"dictionary":{"id":7,"indexType":{"name":"int","bitWidth":8,"isSigned":true},"isOrdered":false}}]},"dictionaries":[{"id":7,"data":[{"count":4,"columns":[{"name":"x","count":4,"VALIDITY":[1,1,1,0],"OFFSET":[0,1,2,3,3],"DATA":["a","b","a",""]}]}]}],"batches":[{"count":5,"columns":[{"name":"s","count":5,"VALIDITY":[1,1,1,0,1],"DATA":[2,0,3,9,1]}]}]}"#,
        r#"{"batches":[{"columns":[{"DATA":[0,0,0,0,1],"VALIDITY":[1,1,0,0,1],"count":5,"name":"s"}],"count":5}],"dictionaries":[{"data":{"columns":[{"DATA":["a","b"],"OFFSET":[0,1,2],"VALIDITY":[1,1],"count":2,"name":"s"}],"count":2},"id":0}],"schema":{"fields":[{"children":[],"dictionary":{"id":0,"indexType":{"bitWidth":32,"isSigned":true,"name":"int"},"isOrdered":false},"name":"s","nullable":true,"type":{"name":"utf8"}}]}}"#,
    ),
    (
        r#"{"schema":{"fields":[{"name":"s","nullable":true,"type":{"name":"utf8"},"children":[],"dictionary":{"id":7,"indexType":{"name":"int","bitWidth":8,"isSigned":true},"isOrdered":false}}]},"dictionaries":[{"id":7,"data":{"count":4,"columns":[{"name":"x","count":4,"VALIDITY":[1,1,1,0],"OFFSET":[0,1,2,3,3],"DATA":["a","b","a",""]}]}}],"batches":[{"count":5,"columns":[{"name":"s","count":5,"VALIDITY":[1,1,1,0,1],"DATA":[2,0,3,9,1]}]}]}"#,
        r#"{"batches":[{"columns":[{"DATA":[0,0,0,0,1],"VALIDITY":[1,1,0,0,1],"count":5,"name":"s"}],"count":5}],"dictionaries":[{"data":{"columns":[{"DATA":["a","b"],"OFFSET":[0,1,2],"VALIDITY":[1,1],"count":2,"name":"s"}],"count":2},"id":0}],"schema":{"fields":[{"children":[],"dictionary":{"id":0,"indexType":{"bitWidth":32,"isSigned":true,"name":"int"},"isOrdered":false},"name":"s","nullable":true,"type":{"name":"utf8"}}]}}"#,
    ),
    (
        r#"{"schema":{"fields":[{"name":"l","nullable":true,"type":{"name":"list"},"children":[{"name":"item","nullable":true,"type":{"name":"int","bitWidth":8,"isSigned":true},"children":[]}]}]},"batches":[{"count":0,"columns":[{"name":"l","count":0,"VALIDITY":[],"OFFSET":[0],"children":[{"name":"item","count":0,"VALIDITY":[],"DATA":[]}]}]}]}"#,
        r#"{"batches":[{"columns":[{"OFFSET":[0],"VALIDITY":[],"children":[{"DATA":[],"VALIDITY":[],"count":0,"name":"item"}],"count":0,"name":"l"}],"count":0}],"schema":{"fields":[{"children":[{"children":[],"name":"item","nullable":true,"type":{"bitWidth":8,"isSigned":true,"name":"int"}}],"name":"l","nullable":true,"type":{"name":"list"}}]}}"#,
    ),
    // Offsets above 0 at the start, and items under a null.
    (
        r#"{"schema":{"fields":[{"name":"l","nullable":true,"type":{"name":"list"},"children":[{"name":"x","nullable":true,"type":{"name":"bool"},"children":[]}]}]},"batches":[{"count":3,"columns":[{"name":"l","count":3,"VALIDITY":[1,0,1],"OFFSET":[1,2,4,6],"children":[{"name":"x","count":7,"VALIDITY":[1,1,1,1,0,1,1],"DATA":[0,1,1,1,1,0,1]}]}]}]}"#,
        r#"{"batches":[{"columns":[{"OFFSET":[0,1,1,3],"VALIDITY":[1,0,1],"children":[{"DATA":[1,0,0],"VALIDITY":[1,0,1],"count":3,"name":"x"}],"count":3,"name":"l"}],"count":3}],"schema":{"fields":[{"children":[{"children":[],"name":"x","nullable":true,"type":{"name":"bool"}}],"name":"l","nullable":true,"type":{"name":"list"}}]}}"#,
    ),
    // Offsets of 64 bits come in either spelling, and are strings in print.
    (
        r#"{"schema":{"fields":[{"name":"l","nullable":true,"type":{"name":"largelist"},"children":[{"name":"item","nullable":true,"type":{"name":"int","bitWidth":8,"isSigned":true},"children":[]}]}]},"batches":[{"count":2,"columns":[{"name":"l","count":2,"VALIDITY":[1,0],"OFFSET":[0,"2",2],"children":[{"name":"item","count":2,"VALIDITY":[1,1],"DATA":[1,2]}]}]}]}"#,
        r#"{"batches":[{"columns":[{"OFFSET":["0","2","2"],"VALIDITY":[1,0],"children":[{"DATA":[1,2],"VALIDITY":[1,1],"count":2,"name":"item"}],"count":2,"name":"l"}],"count":2}],"schema":{"fields":[{"children":[{"children":[],"name":"item","nullable":true,"type":{"bitWidth":8,"isSigned":true,"name":"int"}}],"name":"l","nullable":true,"type":{"name":"largelist"}}]}}"#,
    ),
    (
        r#"{"schema":{"fields":[{"name":"k","nullable":true,"type":{"name":"largeutf8"},"children":[]}]},"batches":[{"count":3,"columns":[{"name":"k","count":3,"VALIDITY":[1,0,1],"OFFSET":["0","1","1","3"],"DATA":["b","","aa"]}]}]}"#,
        r#"{"batches":[{"columns":[{"DATA":["b","","aa"],"OFFSET":["0","1","1","3"],"VALIDITY":[1,0,1],"count":3,"name":"k"}],"count":3}],"schema":{"fields":[{"children":[],"name":"k","nullable":true,"type":{"name":"largeutf8"}}]}}"#,
    ),
    // A text of two bytes, and one that JSON escapes; a field's name too.
    (
        r#"{"schema":{"fields":[{"name":"\"\n","nullable":false,"type":{"name":"utf8"}}],"metadata":null},"batches":[{"count":2,"columns":[{"count":2,"DATA":["\u00e9","\\\t"]}]}]}"#,
        r#"{"batches":[{"columns":[{"DATA":["é","\\\t"],"OFFSET":[0,2,4],"VALIDITY":[1,1],"count":2,"name":"\"\n"}],"count":2}],"schema":{"fields":[{"children":[],"name":"\"\n","nullable":false,"type":{"name":"utf8"}}]}}"#,
    ),
    // Columns of no batch, and rows of no column.
    (
        r#"{"schema":{"fields":[{"name":"u","nullable":true,"type":{"name":"int","bitWidth":64,"isSigned":false}}]},"batches":[]}"#,
        r#"{"batches":[],"schema":{"fields":[{"children":[],"name":"u","nullable":true,"type":{"bitWidth":64,"isSigned":false,"name":"int"}}]}}"#,
    ),
    (
        r#"{"schema":{"fields":[]},"batches":[{"count":2,"columns":[]},{"count":0,"columns":[]}]}"#,
        r#"{"batches":[{"columns":[],"count":2},{"columns":[],"count":0}],"schema":{"fields":[]}}"#,
    ),
];

/// Asserts how the file of a text is printed.
fn expect_printed(rt: &impl Abort, alloc: Global, text: &str, wanted: &str) -> Result<(), Fail> {
    let read = read_file(alloc, text.as_bytes())?;
    // What this says is what the law of reading back asks of a file.
    tell_file(&read);
    let printed = print_file(alloc, &read)?;
    assert!(rt; printed.as_str() == wanted, "{printed} of {text}");
    Ok(())
}

#[test]
fn files_are_printed_and_read_back(rt: HostRuntime) -> Result<(), Fail> {
    for (file, wanted) in &FILES {
        expect_printed(&rt, rt.alloc(), *file, *wanted)?;
        expect_printed(&rt, rt.alloc(), *wanted, *wanted)?;
    }
    Ok(())
}

/// The codes of the texts c and b.
fn two_codes(alloc: Global) -> Result<Array, Fail> {
    let codes = [None, Some(b"\0\0\0\0\x01\0\0\0".as_slice())];
    let entries = [
        None,
        Some(b"\0\0\0\0\x01\0\0\0\x02\0\0\0".as_slice()),
        Some(b"cb".as_slice()),
    ];
    let mut column = raw(alloc, DataType::Dict, 2, &codes)?;
    let dictionary = raw(alloc, DataType::Utf8, 2, &entries)?;
    column.dictionary = Some(Box::new(alloc, dictionary)?);
    Ok(validate(alloc, column)?)
}

/// A batch of one column under a copy of the schema.
fn batch_of(
    alloc: Global,
    schema: &Schema,
    rows: u32,
    column: Array,
) -> Result<Arc<RecordBatch>, Fail>
    ensures { IfOk result (λ b. (arc_value b).fields ≡ schema.now) }
{
    let columns = vec![in alloc; column]?;
    let batch = RecordBatch::new(schema.copy(alloc)?, rows, columns)?;
    Ok(Arc::new(alloc, batch)?)
}

/// The texts a, a, two nulls and b, and in another batch c and b, which have the dictionary a, b, c whatever those of the batches
/// are.
static CODED: &str =
    r#"{"batches":[{"columns":[{"DATA":[0,0,0,0,1],"VALIDITY":[1,1,0,0,1],"count":5,"name":"k"}],"count":5},{"columns":[{"DATA":[2,1],"VALIDITY":[1,1],"count":2,"name":"k"}],"count":2}],"dictionaries":[{"data":{"columns":[{"DATA":["a","b","c"],"OFFSET":[0,1,2,3],"VALIDITY":[1,1,1],"count":3,"name":"k"}],"count":3},"id":0}],"schema":{"fields":[{"children":[],"dictionary":{"id":0,"indexType":{"bitWidth":32,"isSigned":true,"name":"int"},"isOrdered":false},"name":"k","nullable":true,"type":{"name":"utf8"}}]}}"#;

/// A file of the batches of these codes, and of those of the samples.
fn coded_file(alloc: Global) -> Result<File, Fail> {
    let fields = vec![in alloc; field(alloc, "k", true, DataType::Dict)?]?;
    let schema = Schema::new(fields)?;
    let first = batch_of(alloc, &schema, 5, coded(alloc)?)?;
    let second = batch_of(alloc, &schema, 2, two_codes(alloc)?)?;
    let batches = vec![in alloc; first, second]?;
    Ok(File::new(Arc::new(alloc, schema)?, batches))
}

#[test]
fn dictionaries_are_made_anew(rt: HostRuntime) -> Result<(), Fail> {
    let file = coded_file(rt.alloc())?;
    let printed = print_file(rt.alloc(), &file)?;
    assert!(rt; printed.as_str() == CODED, "{printed}");
    Ok(())
}
