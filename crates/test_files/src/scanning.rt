//! JSON at places of its text: what stands there and where it ends, or nothing where it is at fault.

ghost use Rattle.std.specs.Prelude.{◌≤◌, length};

use json_scan::{
    Literal, Miss, find_member, pass_number, pass_value, read_integer, read_integers, read_literal,
    read_text, read_value,
};
use serde_json::Value;
use std::alloc::Global;
use std::test::Fail;

/// Values, and where they end: numbers at the limits of a double, escapes, surrogates alone and in pairs, marks too many and too few.
static VALUES: &[(&str, Option<usize>)] = &[
    ("", None),
    ("null", Some(4)),
    (" true ,", Some(5)),
    ("falsey", None),
    ("-0", Some(2)),
    ("01", None),
    ("1.", None),
    ("-1.5e+3]", Some(7)),
    ("1e308", Some(5)),
    ("1e309", None),
    ("1234567890123456789012345678901234567890", Some(40)),
    (r#""""#, Some(2)),
    (r#""a\n\u00e9\ud83d\ude00" "#, Some(23)),
    (r#""\ud83d""#, None),
    (r#""\ude00""#, None),
    (r#""\x""#, None),
    ("\"a\nb\"", None),
    (r#""a"#, None),
    ("[ ]", Some(3)),
    ("[1 , [true]]", Some(12)),
    ("[1,]", None),
    ("[1 2]", None),
    ("{ }", Some(3)),
    (r#"{"a":1,"\u0061":[2]}x"#, Some(20)),
    (r#"{"a" 1}"#, None),
    (r#"{"a":1,}"#, None),
    ("{a:1}", None),
];

#[test]
fn values_end_where_they_do(rt: HostRuntime) -> Result<(), Fail> {
    for (text, end) in VALUES {
        assert!(rt; pass_value(text.as_bytes(), 0, 2) == *end, "{text}");
    }
    Ok(())
}

#[test]
fn values_nest_to_their_depth(rt: HostRuntime) -> Result<(), Fail> {
    let mut text = "[".repeat(rt.alloc(), 127)?;
    text.push_str("]".repeat(rt.alloc(), 127)?.as_str())?;
    assert!(rt; pass_value(text.as_bytes(), 0, 127) == Some(254));
    assert!(rt; pass_value(text.as_bytes(), 0, 126) == None);
    Ok(())
}

/// Whole numbers, and what is none of them.
static INTEGERS: &[(&str, Option<i128>)] = &[
    ("0", Some(0)),
    (" 12,", Some(12)),
    ("-7]", Some(-7)),
    ("18446744073709551615", Some(18446744073709551615)),
    ("18446744073709551616", None),
    ("-9223372036854775808", Some(-9223372036854775808)),
    ("-9223372036854775809", None),
    ("-0", None),
    ("00", None),
    ("1.0", None),
    ("1e2", None),
    ("1a", None),
    ("true", None),
];

#[test]
fn integers_are_read(rt: HostRuntime) -> Result<(), Fail> {
    for (text, wanted) in INTEGERS {
        let read = read_integer(text.as_bytes(), 0).map(|integer| integer.value);
        assert!(rt; read == *wanted, "{text}");
    }
    assert!(rt; pass_number(b"1.5,", 0) == Some(3));
    assert!(rt; pass_number(b"true", 0) == None);
    Ok(())
}

#[test]
fn literals_are_read(rt: HostRuntime) -> Result<(), Fail> {
    let cases = [
        ("null]", Some(Literal::Null)),
        (" true", Some(Literal::Bool(true))),
        ("false ", Some(Literal::Bool(false))),
        ("nul", None),
        ("1", None),
    ];
    for (text, wanted) in &cases {
        let read = read_literal(text.as_bytes(), 0).map(|literal| literal.value);
        assert!(rt; read == *wanted, "{text}");
    }
    Ok(())
}

/// Strings, and what they stand for.
static TEXTS: &[(&str, &str)] = &[
    (r#""plain""#, "plain"),
    (r#" "" "#, ""),
    (r#""\"\\\/\b\f\n\r\t""#, "\"\\/\u{8}\u{c}\n\r\t"),
    (r#""a\u00e9\ud83d\ude00b""#, "aé😀b"),
];

#[test]
fn texts_are_read(rt: HostRuntime) -> Result<(), Fail> {
    let mut buffer = Vec::new(rt.alloc());
    for (text, wanted) in TEXTS {
        let read = read_text(*text, 0, &mut buffer)?;
        assert!(rt; read.value == *wanted, "{text}");
    }
    Ok(())
}

#[test]
fn no_text_is_read_of_what_is_none(rt: HostRuntime) -> Result<(), Fail> {
    let mut buffer = Vec::new(rt.alloc());
    for text in [r#""\ud83dx""#, "1"] {
        assert!(rt; read_text(text, 0, &mut buffer).is_err(), "{text}");
    }
    Ok(())
}

#[test]
fn arrays_of_integers_are_read(rt: HostRuntime) -> Result<(), Fail> {
    let read = read_integers(rt.alloc(), "x [1,-2 , 3] ", 1, 1)?;
    assert!(rt; read.value.as_slice() == [1, -2, 3].as_slice() && read.end == 12);
    Ok(())
}

#[test]
fn an_empty_array_of_integers_is_read(rt: HostRuntime) -> Result<(), Fail> {
    let read = read_integers(rt.alloc(), "[]", 0, 1)?;
    assert!(rt; read.value.is_empty());
    Ok(())
}

/// Whether something isn't read, and not for want of memory.
pub(crate) fn is_unread<T: Drop>(read: Result<T, Miss>) -> bool {
    matches!(read, Err(Miss::Unread))
}

#[test]
fn no_integers_are_read_of_what_is_no_array(rt: HostRuntime) -> Result<(), Fail> {
    for text in ["[1,true]", "[1,]", "[1", "1", "[1.5]"] {
        assert!(rt; is_unread(read_integers(rt.alloc(), text, 0, 1)), "{text}");
    }
    Ok(())
}

static MEMBERS: &str = r#"{"a":1, "\u0062":[2],"a":3,"\u0061":4}"#;

#[test]
fn the_last_member_of_a_name_is_found(rt: HostRuntime) -> Result<(), Fail> {
    let cases = [("a", Some(36)), ("b", Some(17)), ("c", None)];
    for (name, wanted) in &cases {
        let read = find_member(rt.alloc(), MEMBERS, 0, 2, *name)?;
        assert!(rt;
            read.value == *wanted && read.end == MEMBERS.len(),
            "{name}"
        );
    }
    Ok(())
}

#[test]
fn no_member_is_found_in_an_array_or_too_deep(rt: HostRuntime) -> Result<(), Fail> {
    assert!(rt; find_member(rt.alloc(), "[]", 0, 2, "a").is_err());
    assert!(rt; find_member(rt.alloc(), MEMBERS, 0, 1, "a").is_err());
    Ok(())
}

/// Values of each kind: numbers at the limits of 64 bits and of a double, escapes, arrays and objects in one another, members of one name.
static TREES: &[&str] = &[
    "null",
    " true",
    "\nfalse",
    "0",
    "-0",
    "18446744073709551615",
    "18446744073709551616",
    "-9223372036854775808",
    "-9223372036854775809",
    "-1.5e+3",
    "1e308",
    r#""""#,
    r#""plain""#,
    r#""a\n\u00e9\ud83d\ude00""#,
    "[ ]",
    "[1 , [true, []],\t\"b\"]",
    "{ }",
    r#"{"b" : [{"c":"\t"}], "a":{"b":null}, "":-7}"#,
    r#"{"a":1,"b":2,"a":[3]}"#,
    r#"{"a":1,"\u0061\n":2,"\u0061":[3]}"#,
];

/// Where the tree at a place of a text ends, none where it isn't what `serde_json` makes of another text.
fn end_of(
    alloc: Global,
    text: &str,
    at: usize,
    depth: usize,
    other: &str,
) -> Result<Option<usize>, Fail>
    requires { at ≤ length text.now }
{
    let read = read_value(alloc, text, at, depth)?;
    let wanted = Value::from_str(alloc, other)?;
    Ok(if read.value == wanted {
        Some(read.end)
    } else {
        None
    })
}

#[test]
fn trees_are_read_as_serde_json_reads_them(rt: HostRuntime) -> Result<(), Fail> {
    for text in TREES {
        let end = end_of(rt.alloc(), *text, 0, 3, *text)?;
        assert!(rt; end == Some(text.len()), "{text}");
    }
    Ok(())
}

#[test]
fn a_tree_is_read_at_its_place(rt: HostRuntime) -> Result<(), Fail> {
    let end = end_of(rt.alloc(), r#"[1, {"a" : [2]} ]"#, 3, 2, r#"{"a":[2]}"#)?;
    assert!(rt; end == Some(15));
    Ok(())
}

/// What isn't read, at the depth of its row: too deep, or at fault.
static NO_TREES: &[(&str, usize)] = &[
    ("[]", 0),
    ("{}", 0),
    ("[[1]]", 1),
    (r#"{"a":{}}"#, 1),
    (r#"[{"a":[]}]"#, 2),
    ("", 9),
    ("nul", 9),
    ("01", 9),
    ("1e309", 9),
    (r#""a"#, 9),
    (r#""\ud83d""#, 9),
    ("[1,]", 9),
    ("[1 2]", 9),
    ("[1", 9),
    (r#"{"a" 1}"#, 9),
    (r#"{"a":1,}"#, 9),
    ("{a:1}", 9),
    (r#"{"\u006":1}"#, 9),
];

#[test]
fn no_tree_is_read_of_what_is_none(rt: HostRuntime) -> Result<(), Fail> {
    for (text, depth) in NO_TREES {
        assert!(rt;
            is_unread(read_value(rt.alloc(), *text, 0, *depth)),
            "{text}"
        );
    }
    Ok(())
}
