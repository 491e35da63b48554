//! Files exported: the table as one file, and that it reads back as it is.

use super::{Case, expect, expect_all};

const ONE: &[&str] = &["arrowtab", "export", "A"];

const TWO: &[&str] = &["arrowtab", "export", "A", "B"];

/// A file of the three numbers 9223372036854775807, null and -1.
const NUMBERS: &str =
    r#"{"schema":{"fields":[{"name":"n","nullable":true,"type":{"name":"int","bitWidth":64,"isSigned":true},"children":[]}]},"batches":[{"count":3,"columns":[{"name":"n","count":3,"VALIDITY":[1,0,1],"DATA":["9223372036854775807","x",-1]}]}]}"#;

const NUMBERS_OUT: &str =
    r#"{"batches":[{"columns":[{"DATA":["9223372036854775807","0","-1"],"VALIDITY":[1,0,1],"count":3,"name":"n"}],"count":3}],"schema":{"fields":[{"children":[],"name":"n","nullable":true,"type":{"bitWidth":64,"isSigned":true,"name":"int"}}]}}
"#;

/// Texts, of which a table makes a dictionary, and numbers.
const TEXTS: &str =
    r#"{"schema":{"fields":[{"name":"k","nullable":true,"type":{"name":"utf8"},"children":[]},{"name":"v","nullable":true,"type":{"name":"int","bitWidth":32,"isSigned":true},"children":[]}]},"batches":[{"count":4,"columns":[{"name":"k","count":4,"VALIDITY":[0,1,0,1],"OFFSET":[0,0,1,1,2],"DATA":["","b","","a"]},{"name":"v","count":4,"VALIDITY":[1,1,1,0],"DATA":[1,2,3,0]}]}]}"#;

const TEXTS_OUT: &str =
    r#"{"batches":[{"columns":[{"DATA":[0,0,0,1],"VALIDITY":[0,1,0,1],"count":4,"name":"k"},{"DATA":[1,2,3,0],"VALIDITY":[1,1,1,0],"count":4,"name":"v"}],"count":4}],"dictionaries":[{"data":{"columns":[{"DATA":["b","a"],"OFFSET":[0,1,2],"VALIDITY":[1,1],"count":2,"name":"k"}],"count":2},"id":0}],"schema":{"fields":[{"children":[],"dictionary":{"id":0,"indexType":{"bitWidth":32,"isSigned":true,"name":"int"},"isOrdered":false},"name":"k","nullable":true,"type":{"name":"utf8"}},{"children":[],"name":"v","nullable":true,"type":{"bitWidth":32,"isSigned":true,"name":"int"}}]}}
"#;

/// Truth values in both spellings, and lists that are null, empty, and not the first ones of their child.
const LISTS: &str =
    r#"{"schema":{"fields":[{"name":"b","nullable":false,"type":{"name":"bool"}},{"name":"l","nullable":true,"type":{"name":"list"},"children":[{"name":"item","nullable":true,"type":{"name":"utf8"}}]}]},"batches":[{"count":4,"columns":[{"count":4,"DATA":[1,true,0,false]},{"count":4,"VALIDITY":[1,0,1,1],"OFFSET":[1,2,3,3,5],"children":[{"count":6,"VALIDITY":[1,1,1,1,0,1],"DATA":["a","b","c","\"d\"","e","f"]}]}]}]}"#;

const LISTS_OUT: &str =
    r#"{"batches":[{"columns":[{"DATA":[1,1,0,0],"VALIDITY":[1,1,1,1],"count":4,"name":"b"},{"OFFSET":[0,1,1,1,3],"VALIDITY":[1,0,1,1],"children":[{"DATA":["b","\"d\"",""],"OFFSET":[0,1,4,4],"VALIDITY":[1,1,0],"count":3,"name":"item"}],"count":4,"name":"l"}],"count":4}],"schema":{"fields":[{"children":[],"name":"b","nullable":false,"type":{"name":"bool"}},{"children":[{"children":[],"name":"item","nullable":true,"type":{"name":"utf8"}}],"name":"l","nullable":true,"type":{"name":"list"}}]}}
"#;

/// Lists with offsets of 64 bits in both spellings, and texts with such.
const LARGE: &str =
    r#"{"schema":{"fields":[{"name":"l","nullable":true,"type":{"name":"largelist"},"children":[{"name":"item","nullable":true,"type":{"name":"int","bitWidth":8,"isSigned":true},"children":[]}]},{"name":"s","nullable":true,"type":{"name":"largeutf8"},"children":[]}]},"batches":[{"count":2,"columns":[{"name":"l","count":2,"VALIDITY":[1,0],"OFFSET":[0,"2",2],"children":[{"name":"item","count":2,"VALIDITY":[1,1],"DATA":[1,2]}]},{"name":"s","count":2,"VALIDITY":[0,1],"DATA":["x","fig"]}]}]}"#;

const LARGE_OUT: &str =
    r#"{"batches":[{"columns":[{"OFFSET":["0","2","2"],"VALIDITY":[1,0],"children":[{"DATA":[1,2],"VALIDITY":[1,1],"count":2,"name":"item"}],"count":2,"name":"l"},{"DATA":["","fig"],"OFFSET":["0","0","3"],"VALIDITY":[0,1],"count":2,"name":"s"}],"count":2}],"schema":{"fields":[{"children":[{"children":[],"name":"item","nullable":true,"type":{"bitWidth":8,"isSigned":true,"name":"int"}}],"name":"l","nullable":true,"type":{"name":"largelist"}},{"children":[],"name":"s","nullable":true,"type":{"name":"largeutf8"}}]}}
"#;

/// A dictionary with a text that comes twice and a null; a null by its code, and one by its entry.
const LETTERS: &str =
    r#"{"schema":{"fields":[{"name":"s","nullable":true,"type":{"name":"utf8"},"children":[],"dictionary":{"id":7,"indexType":{"name":"int","bitWidth":8,"isSigned":true},"isOrdered":false}}]},"dictionaries":[{"id":7,"data":[{"count":4,"columns":[{"name":"x","count":4,"VALIDITY":[1,1,1,0],"OFFSET":[0,1,2,3,3],"DATA":["a","b","a",""]}]}]}],"batches":[{"count":5,"columns":[{"name":"s","count":5,"VALIDITY":[1,1,1,0,1],"DATA":[2,0,3,9,1]}]}]}"#;

/// The same, whose dictionary's batch stands in no array.
const BARE_LETTERS: &str =
    r#"{"schema":{"fields":[{"name":"s","nullable":true,"type":{"name":"utf8"},"children":[],"dictionary":{"id":7,"indexType":{"name":"int","bitWidth":8,"isSigned":true},"isOrdered":false}}]},"dictionaries":[{"id":7,"data":{"count":4,"columns":[{"name":"x","count":4,"VALIDITY":[1,1,1,0],"OFFSET":[0,1,2,3,3],"DATA":["a","b","a",""]}]}}],"batches":[{"count":5,"columns":[{"name":"s","count":5,"VALIDITY":[1,1,1,0,1],"DATA":[2,0,3,9,1]}]}]}"#;

const LETTERS_OUT: &str =
    r#"{"batches":[{"columns":[{"DATA":[0,0,0,0,1],"VALIDITY":[1,1,0,0,1],"count":5,"name":"s"}],"count":5}],"dictionaries":[{"data":{"columns":[{"DATA":["a","b"],"OFFSET":[0,1,2],"VALIDITY":[1,1],"count":2,"name":"s"}],"count":2},"id":0}],"schema":{"fields":[{"children":[],"dictionary":{"id":0,"indexType":{"bitWidth":32,"isSigned":true,"name":"int"},"isOrdered":false},"name":"s","nullable":true,"type":{"name":"utf8"}}]}}
"#;

/// A file without rows, and one without columns.
const EMPTY: &str =
    r#"{"schema":{"fields":[{"name":"l","nullable":true,"type":{"name":"list"},"children":[{"name":"item","nullable":true,"type":{"name":"int","bitWidth":8,"isSigned":true},"children":[]}]}]},"batches":[{"count":0,"columns":[{"name":"l","count":0,"VALIDITY":[],"OFFSET":[],"children":[{"name":"item","count":0,"VALIDITY":[],"DATA":[]}]}]}]}"#;

const EMPTY_OUT: &str =
    r#"{"batches":[{"columns":[{"OFFSET":[0],"VALIDITY":[],"children":[{"DATA":[],"VALIDITY":[],"count":0,"name":"item"}],"count":0,"name":"l"}],"count":0}],"schema":{"fields":[{"children":[{"children":[],"name":"item","nullable":true,"type":{"bitWidth":8,"isSigned":true,"name":"int"}}],"name":"l","nullable":true,"type":{"name":"list"}}]}}
"#;

const BARE: &str =
    r#"{"schema":{"fields":[]},"batches":[{"count":2147483647,"columns":[]},{"count":0,"columns":[]}]}"#;

const BARE_OUT: &str =
    r#"{"batches":[{"columns":[],"count":2147483647},{"columns":[],"count":0}],"schema":{"fields":[]}}
"#;

/// One more text under the fields of the table of texts.
const MORE: &str =
    r#"{"schema":{"fields":[{"name":"k","nullable":true,"type":{"name":"utf8"},"children":[],"dictionary":{"id":1,"indexType":{"name":"int","bitWidth":8,"isSigned":false}}},{"name":"v","nullable":true,"type":{"name":"int","bitWidth":32,"isSigned":true},"children":[]}]},"dictionaries":[{"id":1,"data":{"count":2,"columns":[{"count":2,"DATA":["c","a"]}]}}],"batches":[{"count":2,"columns":[{"count":2,"DATA":[1,0]},{"count":2,"DATA":[7,8]}]}]}"#;

const BOTH_OUT: &str =
    r#"{"batches":[{"columns":[{"DATA":[0,0,0,1],"VALIDITY":[0,1,0,1],"count":4,"name":"k"},{"DATA":[1,2,3,0],"VALIDITY":[1,1,1,0],"count":4,"name":"v"}],"count":4},{"columns":[{"DATA":[1,2],"VALIDITY":[1,1],"count":2,"name":"k"},{"DATA":[7,8],"VALIDITY":[1,1],"count":2,"name":"v"}],"count":2}],"dictionaries":[{"data":{"columns":[{"DATA":["b","a","c"],"OFFSET":[0,1,2,3],"VALIDITY":[1,1,1],"count":3,"name":"k"}],"count":3},"id":0}],"schema":{"fields":[{"children":[],"dictionary":{"id":0,"indexType":{"bitWidth":32,"isSigned":true,"name":"int"},"isOrdered":false},"name":"k","nullable":true,"type":{"name":"utf8"}},{"children":[],"name":"v","nullable":true,"type":{"bitWidth":32,"isSigned":true,"name":"int"}}]}}
"#;

/// One file or two, and what is exported.
static EXPORTED: [Case; 9] = [
    (ONE, NUMBERS, None, NUMBERS_OUT),
    (ONE, TEXTS, None, TEXTS_OUT),
    (ONE, LISTS, None, LISTS_OUT),
    (ONE, LARGE, None, LARGE_OUT),
    (ONE, LETTERS, None, LETTERS_OUT),
    (ONE, BARE_LETTERS, None, LETTERS_OUT),
    (ONE, EMPTY, None, EMPTY_OUT),
    (ONE, BARE, None, BARE_OUT),
    (TWO, TEXTS, Some(MORE), BOTH_OUT),
];

#[test]
fn exports_files_as_one(rt: HostRuntime) {
    expect_all(&rt, rt.alloc(), &EXPORTED);
    // What is exported is exported as it is.
    for (_, _, _, wanted) in &EXPORTED {
        expect(&rt, rt.alloc(), ONE, (*wanted, None), *wanted);
    }
}
