//! Files, queries and a table that calls are tried on.

use arrays::{File, RecordBatch};
use selqumar_core::{TableState, read_file};
use std::alloc::Global;
use std::sync::Arc;
use std::test::Fail;

/// Two batches: texts, numbers, truth values, lists of numbers, lists of such lists, numbers of 64 bits, large texts, large
/// lists of numbers, and codes.
static TWO_BATCHES: &str = r#"{"schema":{"fields":[
{"name":"s","nullable":true,"type":{"name":"utf8"},"children":[]},{"name":"n","nullable":true,"type":{"name":"int","bitWidth":32,"isSigned":true},"children":[]},{"name":"b","nullable":true,"type":{"name":"bool"},"children":[]},
{"name":"l","nullable":true,"type":{"name":"list"},"children":[{"name":"item","nullable":true,"type":{"name":"int","bitWidth":8,"isSigned":true},"children":[]}]},
{"name":"m","nullable":true,"type":{"name":"list"},"children":[{"name":"item","nullable":true,"type":{"name":"list"},"children":[{"name":"item","nullable":true,"type":{"name":"int","bitWidth":8,"isSigned":true},"children":[]}]}]},
{"name":"w","nullable":true,"type":{"name":"int","bitWidth":64,"isSigned":false},"children":[]},{"name":"t","nullable":true,"type":{"name":"largeutf8"},"children":[]},
{"name":"k","nullable":true,"type":{"name":"largelist"},"children":[{"name":"item","nullable":true,"type":{"name":"int","bitWidth":8,"isSigned":true},"children":[]}]},
{"name":"d","nullable":true,"type":{"name":"utf8"},"children":[],"dictionary":{"id":0,"indexType":{"name":"int","isSigned":true,"bitWidth":32},"isOrdered":false}}]},
"dictionaries":[{"id":0,"data":{"count":2,"columns":[{"name":"d","count":2,"VALIDITY":[1,1],"OFFSET":[0,1,2],"DATA":["x","y"]}]}}],
"batches":[{"count":3,"columns":[
{"name":"s","count":3,"VALIDITY":[1,0,1],"OFFSET":[0,1,1,2],"DATA":["a","","b"]},{"name":"n","count":3,"VALIDITY":[1,1,0],"DATA":[5,-6,0]},{"name":"b","count":3,"VALIDITY":[1,1,1],"DATA":[1,0,1]},
{"name":"l","count":3,"VALIDITY":[1,0,1],"OFFSET":[0,2,2,3],"children":[{"name":"item","count":3,"VALIDITY":[1,0,1],"DATA":[1,0,3]}]},
{"name":"m","count":3,"VALIDITY":[1,0,1],"OFFSET":[0,2,2,2],"children":[{"name":"item","count":2,"VALIDITY":[1,1],"OFFSET":[0,1,3],"children":[{"name":"item","count":3,"VALIDITY":[1,1,1],"DATA":[1,2,3]}]}]},
{"name":"w","count":3,"VALIDITY":[1,1,0],"DATA":["5","18446744073709551615","0"]},{"name":"t","count":3,"VALIDITY":[1,0,1],"OFFSET":["0","1","1","2"],"DATA":["a","","b"]},
{"name":"k","count":3,"VALIDITY":[1,0,1],"OFFSET":["0","2","2","3"],"children":[{"name":"item","count":3,"VALIDITY":[1,0,1],"DATA":[1,0,3]}]},
{"name":"d","count":3,"VALIDITY":[1,1,0],"DATA":[1,0,0]}]},
{"count":2,"columns":[
{"name":"s","count":2,"VALIDITY":[1,1],"OFFSET":[0,1,2],"DATA":["b","c"]},{"name":"n","count":2,"VALIDITY":[1,1],"DATA":[7,5]},{"name":"b","count":2,"VALIDITY":[0,1],"DATA":[0,1]},
{"name":"l","count":2,"VALIDITY":[1,1],"OFFSET":[0,0,1],"children":[{"name":"item","count":1,"VALIDITY":[1],"DATA":[4]}]},
{"name":"m","count":2,"VALIDITY":[1,1],"OFFSET":[0,0,1],"children":[{"name":"item","count":1,"VALIDITY":[0],"OFFSET":[0,0],"children":[{"name":"item","count":0,"VALIDITY":[],"DATA":[]}]}]},
{"name":"w","count":2,"VALIDITY":[1,0],"DATA":["7","0"]},{"name":"t","count":2,"VALIDITY":[1,1],"OFFSET":["0","1","2"],"DATA":["b","c"]},
{"name":"k","count":2,"VALIDITY":[1,1],"OFFSET":["0","0","1"],"children":[{"name":"item","count":1,"VALIDITY":[1],"DATA":[4]}]},
{"name":"d","count":2,"VALIDITY":[1,1],"DATA":[0,0]}]}]}"#;

/// One more batch, with texts that the two don't have.
static ONE_MORE: &str = r#"{"schema":{"fields":[
{"name":"s","nullable":true,"type":{"name":"utf8"},"children":[]},{"name":"n","nullable":true,"type":{"name":"int","bitWidth":32,"isSigned":true},"children":[]},{"name":"b","nullable":true,"type":{"name":"bool"},"children":[]},
{"name":"l","nullable":true,"type":{"name":"list"},"children":[{"name":"item","nullable":true,"type":{"name":"int","bitWidth":8,"isSigned":true},"children":[]}]},
{"name":"m","nullable":true,"type":{"name":"list"},"children":[{"name":"item","nullable":true,"type":{"name":"list"},"children":[{"name":"item","nullable":true,"type":{"name":"int","bitWidth":8,"isSigned":true},"children":[]}]}]},
{"name":"w","nullable":true,"type":{"name":"int","bitWidth":64,"isSigned":false},"children":[]},{"name":"t","nullable":true,"type":{"name":"largeutf8"},"children":[]},
{"name":"k","nullable":true,"type":{"name":"largelist"},"children":[{"name":"item","nullable":true,"type":{"name":"int","bitWidth":8,"isSigned":true},"children":[]}]},
{"name":"d","nullable":true,"type":{"name":"utf8"},"children":[]}]},
"batches":[{"count":2,"columns":[
{"name":"s","count":2,"VALIDITY":[1,1],"OFFSET":[0,6,7],"DATA":["Lisbon","a"]},{"name":"n","count":2,"VALIDITY":[1,1],"DATA":[70000,5]},{"name":"b","count":2,"VALIDITY":[1,1],"DATA":[0,1]},
{"name":"l","count":2,"VALIDITY":[1,0],"OFFSET":[0,1,1],"children":[{"name":"item","count":1,"VALIDITY":[0],"DATA":[0]}]},
{"name":"m","count":2,"VALIDITY":[1,0],"OFFSET":[0,1,1],"children":[{"name":"item","count":1,"VALIDITY":[1],"OFFSET":[0,2],"children":[{"name":"item","count":2,"VALIDITY":[1,1],"DATA":[4,5]}]}]},
{"name":"w","count":2,"VALIDITY":[1,1],"DATA":["9","1"]},{"name":"t","count":2,"VALIDITY":[1,1],"OFFSET":["0","6","7"],"DATA":["Lisbon","a"]},
{"name":"k","count":2,"VALIDITY":[1,0],"OFFSET":["0","1","1"],"children":[{"name":"item","count":1,"VALIDITY":[0],"DATA":[0]}]},
{"name":"d","count":2,"VALIDITY":[1,1],"OFFSET":[0,5,6],"DATA":["Braga","y"]}]}]}"#;

/// A batch of texts alone.
static ONE_COLUMN: &str =
    r#"{"schema":{"fields":[{"name":"s","nullable":true,"type":{"name":"utf8"},"children":[]}]},"batches":[{"count":1,"columns":[{"name":"s","count":1,"VALIDITY":[1],"OFFSET":[0,1],"DATA":["a"]}]}]}"#;

/// A query with a filter, grouped by texts.
static BY_TEXT: &str =
    r#"{"filter":{"op":"lt","args":[{"op":"add","args":[{"column":"n"},{"int":1}]},{"int":200}]},"by":["s"],"aggs":[{"agg":"rows"},{"agg":"sum","column":"n"},{"agg":"least","column":"d"}]}"#;

/// A query over all rows, grouped by texts and truth values.
static BY_TWO: &str =
    r#"{"by":["s","b"],"aggs":[{"agg":"count","column":"n"},{"agg":"greatest","column":"n"}]}"#;

/// A query with a filter over large texts, grouped by them.
static BY_LARGE_TEXT: &str =
    r#"{"filter":{"op":"ne","args":[{"column":"t"},{"text":"c"}]},"by":["t"],"aggs":[{"agg":"rows"},{"agg":"least","column":"t"},{"agg":"greatest","column":"s"}]}"#;

/// A field whose `nullable` is a number.
static WRONG_KIND: &str =
    r#"{"schema":{"fields":[{"name":"s","nullable":1,"type":{"name":"utf8"},"children":[]}]},"batches":[]}"#;

/// A column of lists whose second offset is past their items.
static PAST_END: &str =
    r#"{"schema":{"fields":[{"name":"l","nullable":true,"type":{"name":"list"},"children":[{"name":"item","nullable":true,"type":{"name":"bool"},"children":[]}]}]},"batches":[{"count":1,"columns":[{"name":"l","count":1,"VALIDITY":[1],"OFFSET":[0,2],"children":[{"name":"item","count":1,"VALIDITY":[1],"DATA":[true]}]}]}]}"#;

/// A query for an aggregate that isn't one.
static NO_AGGREGATE: &str = r#"{"by":["s"],"aggs":[{"agg":"mean","column":"n"}]}"#;

/// A query whose second column isn't there.
static NO_COLUMN: &str = r#"{"by":["s","x"],"aggs":[{"agg":"rows"}]}"#;

/// A query whose filter adds past the type of a column.
static PAST_TYPE: &str =
    r#"{"filter":{"op":"lt","args":[{"op":"add","args":[{"column":"n"},{"int":2147483647}]},{"int":0}]},"by":["s"],"aggs":[{"agg":"rows"}]}"#;

/// One of the files above.
#[derive(Clone, Copy)]
pub(crate) enum SampleFile {
    TwoBatches,
    OneMore,
    OneColumn,
    WrongKind,
    PastEnd,
}

impl SampleFile {
    pub(crate) fn text(self) -> &'static str {
        match self {
            SampleFile::TwoBatches => TWO_BATCHES,
            SampleFile::OneMore => ONE_MORE,
            SampleFile::OneColumn => ONE_COLUMN,
            SampleFile::WrongKind => WRONG_KIND,
            SampleFile::PastEnd => PAST_END,
        }
    }

    pub(crate) fn bytes(self) -> &'static [u8] {
        self.text().as_bytes()
    }

    /// What is read of it.
    pub(crate) fn read(self, alloc: Global) -> Result<File, Fail> {
        Ok(read_file(alloc, self.bytes())?)
    }

    /// Its first batch.
    pub(crate) fn first_batch(self, alloc: Global) -> Result<Arc<RecordBatch>, Fail> {
        let file = self.read(alloc)?;
        let batch = file.batches().first().ok_or("a batch")?;
        Ok(batch.clone()?)
    }
}

/// One of the queries above.
#[derive(Clone, Copy)]
pub(crate) enum SampleQuery {
    ByText,
    ByTwo,
    ByLargeText,
    NoAggregate,
    NoColumn,
    PastType,
}

impl SampleQuery {
    pub(crate) fn text(self) -> &'static str {
        match self {
            SampleQuery::ByText => BY_TEXT,
            SampleQuery::ByTwo => BY_TWO,
            SampleQuery::ByLargeText => BY_LARGE_TEXT,
            SampleQuery::NoAggregate => NO_AGGREGATE,
            SampleQuery::NoColumn => NO_COLUMN,
            SampleQuery::PastType => PAST_TYPE,
        }
    }
}

/// Adds the batches of a file, each of another worker.
fn admit_all(table: &mut TableState, file: &File) -> Result<(), Fail> {
    for batch in file.batches() {
        let worker = table.version()?.book_len();
        table.admit(worker, batch)?;
    }
    Ok(())
}

/// A table of two batches, each of another worker.
pub(crate) fn table(alloc: Global) -> Result<TableState, Fail> {
    let file = SampleFile::TwoBatches.read(alloc)?;
    let mut table = TableState::new(alloc, file.schema().copy(alloc)?)?;
    admit_all(&mut table, &file)?;
    Ok(table)
}
