//! Calls that look at nothing that stays: makers of buffers and columns, and what is read from texts, bytes, words and nodes.

ghost use Rattle.std.specs.Prelude.{◌≡◌, IfOk};
ghost use Rattle.arrays.specs.Kind as kind;

use crate::nodes::nodes;
use crate::refusals::Refused;
use crate::run::{Due, Ran, Scene, Stop, answered, given, given_table, run, told};
use crate::samples::{SampleFile, SampleQuery};
use crate::sweep::Trial;
use crate::tell::Tell;
use arrays::{
    Array, BitmapBuf, BitmapBuilder, Bits, Buffer, BuildFault, DataType, Field, IntBuilder,
    ListBuilder, NoMemory, OffsetWidth, Schema, TextBuilder, Words,
};
use ends::memory::MemorySource;
use ends::read_whole;
use intake::{batch_of, schema_of, table_of};
use job::job;
use json_file::{
    Cursor, find_member, read_batch, read_batch_members, read_batches, read_column, read_columns,
    read_integers, read_key, read_string, read_text as read_file_text, read_value,
};
use json_read::{Coding, read_head, read_schema};
use kernels::{Both, Valid};
use selqumar_core::{read_field, read_file, read_file_from_vec, read_query};
use std::alloc::{AllocError, Global};
use std::sync::Arc;
use std::test::Fail;
use test_samples::{INT8, INT32};

/// A maker of a buffer: of a bitmap but for the first.
#[derive(Clone, Copy)]
pub(crate) enum Buffers {
    Bytes,
    Bools,
    Places,
    And,
    Or,
    AndNot,
    Not,
    Builder,
}

/// A maker of a column, and how wide its offsets are.
#[derive(Clone, Copy)]
pub(crate) enum Column {
    Texts(OffsetWidth),
    MoreTexts,
    OfInts,
    OfBools,
    OfTexts,
    Lists(OffsetWidth),
    LongerDictionary,
}

/// What is read from bytes or words.
#[derive(Clone, Copy)]
pub(crate) enum Document {
    File(SampleFile),
    FileOfVec,
    Query(SampleQuery),
    Field,
    Whole,
    Job,
    Text,
    Key,
    Member,
    Integers,
    Tree,
    Schema,
    Column,
    Codes,
    FileTree,
    FileText,
    Head,
    Part(Part),
}

/// What is read of batches.
#[derive(Clone, Copy)]
pub(crate) enum Part {
    Columns,
    Members,
    Batch,
    Batches,
}

/// What is made of nodes.
#[derive(Clone, Copy)]
pub(crate) enum Lent {
    Batch,
    /// A batch of which a buffer is too short.
    ShortBatch,
    Schema,
    Table,
}

#[derive(Clone, Copy)]
pub(crate) enum Maker {
    Buffer(Buffers),
    Column(Column),
    Document(Document),
    Lent(Lent),
}

#[rattlefmt::skip]
pub(crate) static MAKERS: [(&str, Maker); 17] = [
    ("Buffer::from_bytes", Maker::Buffer(Buffers::Bytes)),
    ("BitmapBuf::from_bools", Maker::Buffer(Buffers::Bools)),
    ("BitmapBuf::from_places", Maker::Buffer(Buffers::Places)),
    ("BitmapBuf::and", Maker::Buffer(Buffers::And)),
    ("BitmapBuf::or", Maker::Buffer(Buffers::Or)),
    ("BitmapBuf::and_not", Maker::Buffer(Buffers::AndNot)),
    ("BitmapBuf::not", Maker::Buffer(Buffers::Not)),
    ("BitmapBuilder", Maker::Buffer(Buffers::Builder)),
    ("TextBuilder", Maker::Column(Column::Texts(OffsetWidth::Narrow))),
    ("TextBuilder, large texts", Maker::Column(Column::Texts(OffsetWidth::Wide))),
    ("TextBuilder::extended", Maker::Column(Column::MoreTexts)),
    ("Array::of_ints", Maker::Column(Column::OfInts)),
    ("Array::of_bools", Maker::Column(Column::OfBools)),
    ("Array::of_texts", Maker::Column(Column::OfTexts)),
    ("Array::with_dictionary", Maker::Column(Column::LongerDictionary)),
    ("ListBuilder", Maker::Column(Column::Lists(OffsetWidth::Narrow))),
    ("ListBuilder, large lists", Maker::Column(Column::Lists(OffsetWidth::Wide))),
];

#[rattlefmt::skip]
pub(crate) static DOCUMENTS: [(&str, Maker); 24] = [
    ("read_file", Maker::Document(Document::File(SampleFile::TwoBatches))),
    ("read_file, a wrong kind", Maker::Document(Document::File(SampleFile::WrongKind))),
    ("read_file, an offset past the items", Maker::Document(Document::File(SampleFile::PastEnd))),
    ("read_file_from_vec", Maker::Document(Document::FileOfVec)),
    ("read_query", Maker::Document(Document::Query(SampleQuery::ByText))),
    ("read_query, an aggregate that isn't one", Maker::Document(Document::Query(SampleQuery::NoAggregate))),
    ("read_field", Maker::Document(Document::Field)),
    ("read_whole", Maker::Document(Document::Whole)),
    ("job", Maker::Document(Document::Job)),
    ("json_scan::read_text", Maker::Document(Document::Text)),
    ("json_scan::read_key", Maker::Document(Document::Key)),
    ("json_scan::find_member", Maker::Document(Document::Member)),
    ("json_scan::read_integers", Maker::Document(Document::Integers)),
    ("json_scan::read_value", Maker::Document(Document::Tree)),
    ("json_stream::read_column", Maker::Document(Document::Column)),
    ("json_stream::read_column, encoded", Maker::Document(Document::Codes)),
    ("json_stream::read_columns", Maker::Document(Document::Part(Part::Columns))),
    ("json_stream::read_batch_members", Maker::Document(Document::Part(Part::Members))),
    ("json_stream::read_batch", Maker::Document(Document::Part(Part::Batch))),
    ("json_file::read_batches", Maker::Document(Document::Part(Part::Batches))),
    ("json_file::read_text", Maker::Document(Document::FileText)),
    ("json_read::read_schema", Maker::Document(Document::Schema)),
    ("json_read::read_head", Maker::Document(Document::Head)),
    ("json_read::read_file", Maker::Document(Document::FileTree)),
];

#[rattlefmt::skip]
pub(crate) static LENT: [(&str, Maker); 4] = [
    ("intake::batch_of", Maker::Lent(Lent::Batch)),
    ("intake::batch_of, a short buffer", Maker::Lent(Lent::ShortBatch)),
    ("intake::schema_of", Maker::Lent(Lent::Schema)),
    ("intake::table_of", Maker::Lent(Lent::Table)),
];

/// More bytes than there is room for at first.
static LONG: &str =
    "a text of more bytes than the padding of a buffer has, so that its builder has to grow";

/// A field of lists in lists.
static FIELD: &str =
    r#"{"name":"l","nullable":true,"type":{"name":"list"},"children":[{"name":"item","nullable":true,"type":{"name":"largelist"},"children":[{"name":"item","nullable":false,"type":{"name":"utf8"}}]}]}"#;

/// A column of texts with a null, in one of which much is escaped.
static COLUMN: &str =
    r#"{"count":3,"VALIDITY":[1,0,1],"DATA":["plain",7,"\u0061\u0062\u0063\u0064\u0065\u0066\u0067\u0068\u0069\u006a\u006b\u006c\u006d\u006e"]}"#;

/// Batches of such a column, one.
static BATCHES: &str =
    r#"[{"count":3,"columns":[{"count":3,"VALIDITY":[1,0,1],"DATA":["plain",7,"\u0061\u0062\u0063\u0064\u0065\u0066\u0067\u0068\u0069\u006a\u006b\u006c\u006d\u006e"]}]}]"#;

/// Where its columns stand.
const COLUMNS_AT: usize = 22;

/// A column of indices with a null.
static CODES: &str = r#"{"count":3,"DATA":[1,null,0],"VALIDITY":[1,0,1]}"#;

/// A string in which much is escaped.
static ESCAPED: &str =
    r#"  "a text\n\u00e9\ud83d\ude00 that is longer than a buffer is at first, \"twice\"", "#;

/// An object, in the keys of which much is escaped.
static KEYS: &str =
    r#"{"\u0061\u0062\u0063\u0064\u0065\u0066\u0067\u0068\u0069\u006a\u006b\u006c\u006d" : 1, "b": 2}"#;

/// A schema of two fields, one of which is encoded.
static SCHEMA: &str =
    r#"{"fields":[{"name":"a","nullable":true,"type":{"name":"utf8"},"dictionary":{"id":7,"indexType":{"name":"int","bitWidth":8,"isSigned":true}}},{"name":"b","nullable":true,"type":{"name":"bool"}}]}"#;

static INTEGERS: &str = "[1, -2, 3, 18446744073709551615, 5, 6, 7, 8, 9, 10]";

/// Values of each kind in one another, with more items than there is room for at first.
static TREE: &str =
    r#"{"a":[true,null,-1,1.5,"plain","\u0061\u0062\u0063",{"b":[],"c":{}},8,9,10],"d":{},"a2":2}"#;

#[rattlefmt::skip]
static WORDS: [&str; 9] =
    ["arrowtab", "query", "--workers", "2", "--query", "{}", "--add-column", "[]", "towns.json"];

/// What a maker is to come to.
fn due(maker: Maker) -> Due {
    match maker {
        Maker::Document(Document::File(SampleFile::WrongKind | SampleFile::PastEnd)) =>
            Due::Refusal,
        Maker::Document(Document::Query(SampleQuery::NoAggregate)) => Due::Refusal,
        Maker::Lent(Lent::ShortBatch) => Due::Refusal,
        _ => Due::Answer,
    }
}

impl<R> Trial<R> for Maker {
    fn run(&self, rt: &R, alloc: Global, refused: Option<Refused>) -> Result<Ran, Fail> {
        let mut maker = *self;
        run(rt, alloc, &mut maker, due(*self), refused)
    }
}

impl<R> Scene<R> for Maker {
    fn call(&mut self, _rt: &R, alloc: Global, report: &mut String) -> Result<(), Stop> {
        match *self {
            Maker::Buffer(maker) => given(report, buffer(alloc, maker)),
            Maker::Column(maker) => given(report, built(alloc, maker)),
            Maker::Document(document) => read(alloc, report, document),
            Maker::Lent(lent) => made_of_nodes(alloc, report, lent),
        }
    }

    /// Nothing is left of what was begun.
    fn tell(&mut self, _rt: &R, _report: &mut String) -> Result<(), Fail> {
        Ok(())
    }
}

fn buffer(alloc: Global, maker: Buffers) -> Result<Buffer, Stop> {
    let a = Bits::new(&[0x2b, 0x05], 1, 12);
    let b = Bits::new(&[0x4d, 0x0e], 0, 12);
    if a.len() != b.len() {
        return Err(Stop::Refused);
    }
    let bitmap = match maker {
        Buffers::Bytes => return Ok(Buffer::from_bytes(alloc, b"twelve bytes")?),
        Buffers::Bools => BitmapBuf::from_bools(alloc, &[true, false, true]),
        Buffers::Places => places(alloc),
        Buffers::And => BitmapBuf::and(alloc, &a, &b),
        Buffers::Or => BitmapBuf::or(alloc, &a, &b),
        Buffers::AndNot => BitmapBuf::and_not(alloc, &a, &b),
        Buffers::Not => BitmapBuf::not(alloc, &a),
        Buffers::Builder => behind_ones(alloc, &a),
    };
    Ok(bitmap?.into_buffer())
}

/// Bits behind many that are all set.
fn behind_ones(alloc: Global, bits: &Bits<'_>) -> Result<BitmapBuf, NoMemory> {
    let mut builder = BitmapBuilder::new(alloc);
    builder.push_ones(700)?;
    if bits.len() < 100 {
        builder.push_bits(bits)?;
    }
    builder.finish()
}

/// The places of the slots that are valid in a column.
fn places(alloc: Global) -> Result<BitmapBuf, NoMemory> {
    let column = Array::nulls(alloc, &DataType::Bool, 12)?;
    let (view, again) = (column.view(), column.view());
    let (a, b) = (Valid::of(&view), Valid::of(&again));
    BitmapBuf::from_places(alloc, &Both { a: &a, b: &b })
}

fn built(alloc: Global, maker: Column) -> Result<Array, BuildFault> {
    match maker {
        Column::Texts(width) => texts(alloc, width),
        Column::MoreTexts => more_texts(alloc),
        Column::OfInts => Array::of_ints(alloc, &[Some(1_i32), None]),
        Column::OfBools => Array::of_bools(alloc, &[Some(true), None]),
        Column::OfTexts => Array::of_texts(alloc, &[Some(LONG), None]),
        Column::LongerDictionary => over_longer(alloc),
        Column::Lists(width) => lists(alloc, width),
    }
}

/// A text, null and an empty text.
fn texts(alloc: Global, width: OffsetWidth) -> Result<Array, BuildFault> {
    let mut builder = TextBuilder::with_capacity(alloc, width, 0, 0)?;
    builder.push(Some(LONG))?;
    builder.push(None)?;
    builder.push(Some(""))?;
    Ok(builder.finish()?)
}

/// Some texts and one more, those without a null at once.
fn more_texts(alloc: Global) -> Result<Array, BuildFault> {
    let width = OffsetWidth::Narrow;
    let some = Array::of_texts(alloc, &[Some(LONG), None, Some("")])?;
    let last = Array::of_texts(alloc, &[Some(LONG)])?;
    let builder = TextBuilder::with_capacity(alloc, width, 0, 0)?;
    let builder = builder.extended(&some.view().texts(width))?;
    Ok(builder.extended(&last.view().texts(width))?.finish()?)
}

/// The code 0 over a dictionary, and then over the same once more.
fn over_longer(alloc: Global) -> Result<Array, BuildFault> {
    let words = Words::of(Array::of_texts(alloc, &[Some(LONG)])?);
    let short = Arc::new(alloc, words)?;
    let long = short.clone()?;
    let mut codes = IntBuilder::with_capacity(alloc, INT32, 1)?;
    codes.push(Some(0))?;
    Ok(Array::dict(codes.finish()?, short).with_dictionary(long)?)
}

/// The lists of 1, null, and of 2 and 3.
fn lists(alloc: Global, width: OffsetWidth) -> Result<Array, BuildFault> {
    let mut builder = ListBuilder::with_capacity(alloc, width, 0)?;
    builder.push(Some(1))?;
    builder.push(None)?;
    builder.push(Some(2))?;
    let numbers = Buffer::from_bytes(alloc, &[1, 2, 3])?;
    let child = Array::from_numbers(alloc, INT8, 3, None, numbers)?;
    let item = Field {
        name: String::from_str(alloc, "item")?,
        nullable: true,
        ty: DataType::Int(INT8),
    };
    Ok(builder.finish(item, child)?)
}

/// Tells what is read.
fn read(alloc: Global, report: &mut String, document: Document) -> Result<(), Stop> {
    match document {
        Document::File(file) => given(report, read_file(alloc, file.bytes())),
        Document::FileOfVec => given(report, read_file_from_vec(alloc, two_batches(alloc)?)),
        Document::FileText => given(report, read_file_text(alloc, SampleFile::TwoBatches.text())),
        Document::FileTree => {
            given(
                report,
                json_read::read_file(alloc, SampleFile::TwoBatches.bytes()),
            )
        }
        Document::Head => read_head_of(alloc, report),
        Document::Schema => read_schema_of(alloc, report),
        Document::Whole => read_source(alloc, report),
        Document::Column => read_plain(alloc, report),
        Document::Codes => read_coded(alloc, report),
        Document::Part(part) => read_part(alloc, report, part),
        _ => read_value_of(alloc, report, document),
    }
}

/// The same of what isn't a file or a part of it.
fn read_value_of(alloc: Global, report: &mut String, document: Document) -> Result<(), Stop> {
    match document {
        Document::Query(query) => told(report, read_query(alloc, query.text().as_bytes())),
        Document::Field => told(report, read_field(alloc, FIELD.as_bytes())),
        Document::Job => told(report, job(alloc, &WORDS)),
        Document::Text => told(report, read_string(ESCAPED, 0, &mut Vec::new(alloc))),
        Document::Key => told(report, read_key(KEYS, 1, &mut Vec::new(alloc))),
        Document::Member => told(report, find_member(alloc, KEYS, 0, 1, "b")),
        Document::Integers => told(report, read_integers(alloc, INTEGERS, 0, 1)),
        Document::Tree => told(report, read_value(alloc, TREE, 0, 4)),
        _ => Err(Stop::Refused),
    }
}

/// The bytes of a file.
fn two_batches(alloc: Global) -> Result<Vec<u8>, AllocError> {
    Vec::from_slice(alloc, SampleFile::TwoBatches.bytes())
}

/// Tells what is read of a source.
fn read_source(alloc: Global, report: &mut String) -> Result<(), Stop> {
    let mut source = MemorySource::new(two_batches(alloc)?);
    told(report, read_whole(alloc, &mut source))
}

/// Tells what a file says before its batches.
fn read_head_of(alloc: Global, report: &mut String) -> Result<(), Stop> {
    let document = read_value(alloc, SampleFile::TwoBatches.text(), 0, 20);
    let document = answered(report, document)?;
    let head = answered(report, read_head(alloc, &document.value))?;
    Ok(head.schema.tell(report)?)
}

/// Tells the schema of a document.
fn read_schema_of(alloc: Global, report: &mut String) -> Result<(), Stop> {
    let document = answered(report, read_value(alloc, SCHEMA, 0, 20))?;
    let read = answered(report, read_schema(alloc, &document.value))?;
    Ok(read.schema.tell(report)?)
}

/// A coding by two texts.
fn coding(alloc: Global) -> Result<Coding, BuildFault> {
    let words = Words::of(Array::of_texts(alloc, &[Some(LONG), Some("")])?);
    Ok(Coding {
        index: INT8,
        words: Arc::new(alloc, words)?,
    })
}

/// Tells a column of texts.
fn read_plain(alloc: Global, report: &mut String) -> Result<(), Stop> {
    let field = Field::nullable(alloc, "s", DataType::Utf8)?;
    given(report, read_column(alloc, &field, &None, COLUMN, 0, 2))
}

/// Tells a column of codes.
fn read_coded(alloc: Global, report: &mut String) -> Result<(), Stop> {
    let coding = Some(answered(report, coding(alloc))?);
    let field = Field::nullable(alloc, "s", DataType::Dict)?;
    given(report, read_column(alloc, &field, &coding, CODES, 0, 2))
}

/// The schema of one column of texts.
fn schema_of_texts(alloc: Global) -> Result<Arc<Schema>, NoMemory> {
    let field = Field::nullable(alloc, "s", DataType::Utf8)?;
    let Ok(schema) = Schema::new(vec![in alloc; field]?) else {
        return Err(NoMemory);
    };
    Ok(Arc::new(alloc, schema)?)
}

/// Tells what is read of batches of texts.
fn read_part(alloc: Global, report: &mut String, part: Part) -> Result<(), Stop> {
    let schema = answered(report, schema_of_texts(alloc))?;
    let catalog = [None];
    match part {
        Part::Columns => {
            let fields = schema.fields();
            given(
                report,
                read_columns(alloc, fields, &catalog, BATCHES, COLUMNS_AT, 4),
            )
        }
        Part::Members => {
            let cursor = Cursor {
                text: BATCHES,
                at: 1,
                depth: 5,
            };
            given(
                report,
                read_batch_members(alloc, schema.fields(), &catalog, cursor),
            )
        }
        Part::Batch => given(report, read_batch(alloc, &schema, &catalog, BATCHES, 1, 5)),
        Part::Batches => given(
            report,
            read_batches(alloc, &schema, &catalog, BATCHES, 0, 6),
        ),
    }
}

/// Tells what is made of nodes.
fn made_of_nodes(alloc: Global, report: &mut String, lent: Lent) -> Result<(), Stop> {
    match lent {
        Lent::Batch => given(report, batch_of(alloc, 3, &nodes(b"\x05"))),
        Lent::ShortBatch => given(report, batch_of(alloc, 3, &nodes(b""))),
        Lent::Schema => given(report, schema_of(alloc, &nodes(b"\x05"))),
        Lent::Table => given_table(report, table_of(alloc, &nodes(b"\x05"))),
    }
}
