//! Files that are made by chance: of each that is lawful the reader of bytes makes what the reader of trees does, in whatever order its
//! members come, and of each that is changed both tell the same.

use arrays::File;
use arrow_json::{JsonFault, fault_text, print_file};
use json_file::read_text;
use std::alloc::Global;
use std::process::Abort;
use std::test::Fail;

/// Numbers by chance, which follow from the first. (Knuth, The Art of Computer Programming, volume 2, 3.3.4, table 1: MMIX)
#[derive(Drop)]
struct Chance {
    state: u64,
}

impl Chance {
    /// The next number, below a bound that isn't 0.
    fn below(&mut self, bound: usize) -> usize {
        self.state = self
            .state
            .wrapping_mul(6364136223846793005)
            .wrapping_add(1442695040888963407);
        (self.state >> 33) as usize % bound.max(1)
    }
}

/// The place of one of so many that isn't taken yet, by chance, and it is taken now.
fn take_one(chance: &mut Chance, taken: &mut [bool; 8], len: usize) -> usize {
    let start = chance.below(len);
    for step in 0..8_usize {
        let place = start.wrapping_add(step) % len.max(1);
        if taken.get(place) == Some(&false) {
            if let Some(now) = taken.get_mut(place) {
                *now = true;
            }
            return place;
        }
    }
    len
}

/// Adds a part behind those before it, after blanks by chance.
fn write_part(
    text: &mut String,
    chance: &mut Chance,
    place: usize,
    part: &str,
) -> Result<(), Fail> {
    let blanks = if chance.below(4) == 0 { " \n" } else { "" };
    text.push_str(if place > 0 { "," } else { "" })?;
    text.push_str(blanks)?;
    text.push_str(part)?;
    Ok(())
}

/// Adds an object of the members in an order by chance.
fn write_object(text: &mut String, chance: &mut Chance, members: &[&str]) -> Result<(), Fail> {
    let mut taken = [false; 8];
    text.push_str("{")?;
    for place in 0..members.len() {
        let next = take_one(chance, &mut taken, members.len());
        write_part(text, chance, place, members.get(next).ok_or("no member")?)?;
    }
    text.push_str("}")?;
    Ok(())
}

/// The type of a column, and its members of three slots.
struct Column {
    field: [&'static str; 4],
    members: &'static [&'static str],
}

const NAME: &str = r#""name":"n""#;

const NULLABLE: &str = r#""nullable":true"#;

const CHILDLESS: &str = r#""children":[]"#;

const COUNT: &str = r#""count":3"#;

const TWO_OF_THREE: &str = r#""VALIDITY":[1,0,1]"#;

const ALL: &str = r#""VALIDITY":[1,true,1]"#;

#[rattlefmt::skip]
static COLUMNS: [Column; 9] = [
    Column { field: [NAME, NULLABLE, CHILDLESS, r#""type":{"name":"int","bitWidth":8,"isSigned":true}"#], members: &[NAME, COUNT, TWO_OF_THREE, r#""DATA":[-128,"x",127]"#] },
    Column { field: [NAME, NULLABLE, CHILDLESS, r#""type":{"isSigned":false,"bitWidth":64,"name":"int"}"#], members: &[COUNT, ALL, r#""DATA":["18446744073709551615",0, "7"]"#] },
    Column { field: [NAME, NULLABLE, CHILDLESS, r#""type":{"name":"bool"}"#], members: &[NAME, COUNT, TWO_OF_THREE, r#""DATA":[true,null,0]"#] },
    Column { field: [NAME, NULLABLE, CHILDLESS, r#""type":{"name":"utf8"}"#], members: &[NAME, COUNT, TWO_OF_THREE, r#""OFFSET":[0,2,2,5]"#, r#""DATA":["a\u00e9","","\ud83d\ude00\\"]"#] },
    Column { field: [NAME, NULLABLE, CHILDLESS, r#""type":{"name":"largeutf8"}"#], members: &[NAME, COUNT, r#""DATA":["","b]}\"","é"]"#, r#""VALIDITY":null"#] },
    Column { field: [NAME, NULLABLE, r#""children":[{"name":"m","nullable":true,"children":[],"type":{"name":"bool"}}]"#, r#""type":{"name":"list"}"#], members: &[COUNT, TWO_OF_THREE, r#""OFFSET":[0,1,"1",2]"#, r#""children":[{"count":2,"DATA":[1,0],"VALIDITY":[0,1]}]"#] },
    Column { field: [NAME, NULLABLE, r#""children":[{"type":{"name":"list"},"name":"m","nullable":true,"children":[{"name":"m","nullable":true,"children":null,"type":{"name":"utf8"}}]}]"#, r#""type":{"name":"largelist"}"#], members: &[COUNT, ALL, r#""OFFSET":["0",1,2,2]"#, r#""children":[{"children":[{"DATA":["a"],"count":1}],"OFFSET":[0,0,1],"count":2,"VALIDITY":[1,1]}]"#] },
    Column { field: [NAME, NULLABLE, r#""dictionary":{"id":1,"indexType":{"name":"int","bitWidth":16,"isSigned":true},"isOrdered":false}"#, r#""type":{"name":"utf8"}"#], members: &[NAME, COUNT, TWO_OF_THREE, r#""DATA":[1,2,"0"]"#] },
    Column { field: [r#""nullable":false"#, NAME, r#""dictionary":{"indexType":{"name":"int","bitWidth":32,"isSigned":false},"isOrdered":true,"id":2}"#, r#""type":{"name":"utf8"}"#], members: &[NAME, COUNT, ALL, r#""DATA":[0,0,0]"#] },
];

/// The dictionaries that fields name.
static DICTIONARIES: &str =
    r#""dictionaries":[{"data":{"count":1,"columns":[{"name":"n","count":1,"VALIDITY":[1],"OFFSET":[0,1],"DATA":["a"]}]},"id":2},{"id":1,"data":{"columns":[{"DATA":["\n","b"],"count":2}],"count":2}}]"#;

/// What is written of columns.
#[derive(Clone, Copy)]
enum Written {
    Fields,
    Slots,
}

/// Adds what is to be written of these among the columns above.
fn write_columns(
    text: &mut String,
    chance: &mut Chance,
    places: &[usize],
    written: Written,
) -> Result<(), Fail> {
    for (index, place) in places.iter().enumerate() {
        write_part(text, chance, index, "")?;
        let column = COLUMNS.get(*place).ok_or("no column")?;
        match written {
            Written::Fields => write_object(text, chance, &column.field)?,
            Written::Slots => write_object(text, chance, column.members)?,
        }
    }
    Ok(())
}

/// Adds batches of them.
fn write_batches(text: &mut String, chance: &mut Chance, places: &[usize]) -> Result<(), Fail> {
    text.push_str("\"batches\":[")?;
    for index in 0..chance.below(3) {
        let (start, end) = if chance.below(2) == 0 {
            ("{\"count\":3,\"columns\":[", "]}")
        } else {
            ("{\"columns\":[", "],\"count\":3}")
        };
        write_part(text, chance, index, start)?;
        write_columns(text, chance, places, Written::Slots)?;
        text.push_str(end)?;
    }
    text.push_str("]")?;
    Ok(())
}

/// Adds the fields of the columns.
fn write_schema(text: &mut String, chance: &mut Chance, places: &[usize]) -> Result<(), Fail> {
    text.push_str("\"schema\":{\"fields\":[")?;
    write_columns(text, chance, places, Written::Fields)?;
    text.push_str("]}")?;
    Ok(())
}

/// The text of a lawful file.
fn file(alloc: Global, chance: &mut Chance) -> Result<String, Fail> {
    let places = [0; 4].map(|_| chance.below(COLUMNS.len()));
    let count = chance.below(4).saturating_add(1);
    let places = places.get(..count).ok_or("no columns")?;
    let (mut schema, mut batches) = (String::new(alloc), String::new(alloc));
    write_schema(&mut schema, chance, places)?;
    write_batches(&mut batches, chance, places)?;
    let other = r#""other":[{"key":1.5e3}]"#;
    let members = [schema.as_str(), DICTIONARIES, batches.as_str(), other];
    let mut text = String::new(alloc);
    write_object(&mut text, chance, &members)?;
    Ok(text)
}

/// What both readers make of the bytes: the file as it is printed, or the fault.
fn told(alloc: Global, read: Result<File, JsonFault>) -> Result<String, Fail> {
    match read {
        Ok(file) => Ok(print_file(alloc, &file)?),
        Err(fault) => Ok(fault_text(alloc, &fault)?),
    }
}

/// Whether a text is printed of the file that the reader of trees makes of a text.
fn is_print_of(alloc: Global, printed: &str, text: &str) -> Result<bool, Fail> {
    let tree = json_read::read_file(alloc, text.as_bytes())?;
    Ok(print_file(alloc, &tree)?.as_str() == printed)
}

/// Asserts that the reader of bytes takes a text, and makes of it what the reader of trees does.
pub(crate) fn expect_read(rt: &impl Abort, alloc: Global, text: &str) -> Result<(), Fail> {
    let read = read_text(alloc, text)?;
    let printed = print_file(alloc, &read)?;
    assert!(rt; is_print_of(alloc, printed.as_str(), text)?, "{text}");
    Ok(())
}

#[test]
fn a_lawful_file_is_read_without_a_tree(rt: HostRuntime) -> Result<(), Fail> {
    let mut chance = Chance { state: 1 };
    for _ in 0..1000 {
        let text = file(rt.alloc(), &mut chance)?;
        expect_read(&rt, rt.alloc(), text.as_str())?;
    }
    Ok(())
}

/// Files with batches before the schema, which are read by the last `schema` and `dictionaries` of the text first: those of another object.
#[rattlefmt::skip]
static OTHERS: [&str; 6] = [
    r#"{"batches":[{"count":1,"columns":[{"count":1,"DATA":[1]}]}],"schema":{"fields":[{"name":"n","nullable":true,"children":[],"type":{"name":"int","bitWidth":8,"isSigned":true}}]},"other":{"schema":{"fields":[{"name":"n","nullable":true,"children":[],"type":{"name":"int","bitWidth":16,"isSigned":true}}]}}}"#,
    r#"{"batches":[{"count":1,"columns":[{"count":1,"DATA":[1]}]}],"schema":{"fields":[{"name":"n","nullable":true,"children":[],"type":{"name":"int","bitWidth":8,"isSigned":true}}]},"other":{"schema":{"fields":[{"name":"n","nullable":true,"children":[],"type":{"name":"utf8"}}]}}}"#,
    r#"{"batches":[{"count":1,"columns":[{"count":1,"DATA":[1]}]}],"schema":{"fields":[{"name":"n","nullable":true,"children":[],"type":{"name":"int","bitWidth":8,"isSigned":true}}]},"other":["schema",{"schema":1}]}"#,
    r#"{"batches":[{"count":1,"columns":[{"count":1,"DATA":[1]}]}],"dictionaries":[],"schema":{"fields":[{"name":"n","nullable":true,"children":[],"type":{"name":"int","bitWidth":8,"isSigned":true}}]},"schema":{"fields":[{"name":"n","nullable":true,"children":[],"type":{"name":"int","bitWidth":64,"isSigned":false}}]}}"#,
    r#"{"batches":[{"count":1,"columns":[{"count":1,"DATA":[0]}]}],"schema":{"fields":[{"name":"n","nullable":true,"type":{"name":"utf8"},"dictionary":{"id":0,"indexType":{"name":"int","bitWidth":8,"isSigned":true}}}]},"dictionaries":[{"id":0,"data":{"count":1,"columns":[{"count":1,"DATA":["a"]}]}}],"other":{"dictionaries":[{"id":0,"data":{"count":1,"columns":[{"count":1,"DATA":["b"]}]}}]}}"#,
    r#"{"schema":{"fields":[{"name":"n","nullable":true,"type":{"name":"utf8"},"dictionary":{"id":0,"indexType":{"name":"int","bitWidth":8,"isSigned":true}}}]},"batches":[{"count":1,"columns":[{"count":1,"DATA":[0]}]}],"dictionaries":[{"id":0,"data":{"count":1,"columns":[{"count":1,"DATA":["a"]}]}}]}"#,
];

#[test]
fn a_schema_of_another_object_decides_nothing(rt: HostRuntime) -> Result<(), Fail> {
    for text in &OTHERS {
        expect_read(&rt, rt.alloc(), *text)?;
        let longer = format!(in rt.alloc(); "{text} 1")?;
        assert!(&rt; read_text(rt.alloc(), longer.as_str()).is_err(), "{longer}");
    }
    Ok(())
}

/// Files whose batches are read last: the document's schema or dictionaries can't be guessed, as of names with an escape, or of a second schema behind
/// the batches; or batches come again.
#[rattlefmt::skip]
static UNGUESSED: [&str; 6] = [
    r#"{"sch\u0065ma":{"fi\u0065lds":[{"n\u0061me":"n","nullabl\u0065":true,"childr\u0065n":[],"typ\u0065":{"name":"int","bit\u0057idth":8,"isSigned":true}}]},"b\u0061tches":[{"c\u006funt":1,"column\u0073":[{"c\u006funt":1,"V\u0041LIDITY":[1],"D\u0041TA":[1]}]}]}"#,
    r#"{"batches":[{"count":1,"columns":[{"count":1,"DATA":[1]}]}],"\u0073chema":{"fields":[{"name":"n","nullable":true,"children":[],"type":{"name":"int","bitWidth":8,"isSigned":true}}]}}"#,
    r#"{"schema":{"fields":[{"name":"n","nullable":true,"type":{"name":"utf8"},"dictionary":{"id":0,"indexType":{"name":"int","bitWidth":8,"isSigned":true}}}]},"batches":[{"count":1,"columns":[{"count":1,"DATA":[0]}]}],"dictionari\u0065s":[{"i\u0064":0,"d\u0061ta":{"count":1,"columns":[{"count":1,"DATA":["a"]}]}}]}"#,
    r#"{"schema":{"fields":[{"name":"n","nullable":true,"children":[],"type":{"name":"utf8"}}]},"batches":[{"count":1,"columns":[{"count":1,"DATA":[1]}]}],"schema":{"fields":[{"name":"n","nullable":true,"children":[],"type":{"name":"int","bitWidth":8,"isSigned":true}}]}}"#,
    r#"{"schema":{"fields":[{"name":"n","nullable":true,"children":[],"type":{"name":"int","bitWidth":8,"isSigned":true}}]},"batches":[{"count":1,"columns":[{"count":1,"DATA":[1]}]}],"batches":[{"count":1,"columns":[{"count":1,"DATA":[2]}]}]}"#,
    r#"{"batches":[{"count":1,"columns":[{"count":1,"DATA":[300]}]}],"batches":7,"schema":{"fields":[{"name":"n","nullable":true,"children":[],"type":{"name":"int","bitWidth":8,"isSigned":true}}]},"batches":[{"count":2,"columns":[{"count":2,"DATA":[2,3]}]}]}"#,
];

#[test]
fn what_cannot_be_guessed_is_read(rt: HostRuntime) -> Result<(), Fail> {
    for text in UNGUESSED {
        expect_read(&rt, rt.alloc(), text)?;
    }
    Ok(())
}

/// The text with bytes cut out or twice, or one put for others.
fn changed(alloc: Global, chance: &mut Chance, text: &[u8]) -> Result<Vec<u8>, Fail> {
    let start = chance.below(text.len());
    let end = start.saturating_add(chance.below(9)).min(text.len());
    let (front, back, put) = match chance.below(3) {
        0 => (start, end, None),
        1 => (end, start, None),
        _ => (start, end, BYTES.get(chance.below(BYTES.len()))),
    };
    let mut bytes = Vec::new(alloc);
    bytes.extend_from_slice(text.get(..front).ok_or("a place past the end")?)?;
    if let Some(byte) = put {
        bytes.push(*byte)?;
    }
    bytes.extend_from_slice(text.get(back..).ok_or("a place past the end")?)?;
    Ok(bytes)
}

/// What is put for others.
static BYTES: &[u8] = b"0123456789[]{},:\"\\-.e \xff";

/// Whether both readers tell the same of bytes.
fn are_told_alike(alloc: Global, bytes: &[u8]) -> Result<bool, Fail> {
    let read = told(alloc, json_file::read_file(alloc, bytes))?;
    let tree = told(alloc, json_read::read_file(alloc, bytes))?;
    Ok(read.as_str() == tree.as_str())
}

#[test]
fn both_readers_tell_the_same_of_changed_files(rt: HostRuntime) -> Result<(), Fail> {
    let mut chance = Chance { state: 2 };
    for _ in 0..20000 {
        let text = file(rt.alloc(), &mut chance)?;
        let bytes = changed(rt.alloc(), &mut chance, text.as_bytes())?;
        assert!(&rt; are_told_alike(rt.alloc(), &bytes)?, "{text}");
    }
    Ok(())
}
