//! Tests of tables that are filled with what is lent, and asked.

use crate::testing::{ALONE, UNKNOWN, assert_case, is_line};
use crate::{empty, node};
use arrays::LayoutFault::BufferTooShort;
use embed::{Loaded, RunFault};
use intake::{
    AddFault, FlatFault, IntakeFault, Node, Refusal, TableState, add_column, append, table_of,
};
use std::alloc::Global;
use std::process::Abort;
use std::test::Fail;

/// A batch of one row.
const FILE: &[u8] =
    b"{\"schema\":{\"fields\":[{\"name\":\"people\",\"nullable\":true,\"type\":{\"name\":\"int\",\"isSigned\":true,\"bitWidth\":64},\"children\":[]}]},\"batches\":[{\"count\":1,\"columns\":[{\"name\":\"people\",\"count\":1,\"VALIDITY\":[1],\"DATA\":[\"5\"]}]}]}";

/// 7, and null.
const PEOPLE: Node<'static> = Node {
    name: b"people",
    ..node!(
        b"l",
        ALONE,
        2,
        UNKNOWN,
        [b"\x01", b"\x07\0\0\0\0\0\0\0\0\0\0\0\0\0\0\0", b""]
    )
};

const CITY: Node<'static> = Node {
    name: b"city",
    ..node!(
        b"u",
        ALONE,
        2,
        UNKNOWN,
        [b"", b"\0\0\0\0\x01\0\0\0\x02\0\0\0", b"ab"]
    )
};

const HOURS: Node<'static> = Node {
    name: b"hours",
    ..empty!(b"s", ALONE)
};

static NUMBERS: [Node<'static>; 1] = [PEOPLE];

static BOTH: [Node<'static>; 2] = [PEOPLE, CITY];

static ADDED: [Node<'static>; 1] = [HOURS];

/// Whether this is the text that was given.
fn is_text(given: Result<String, RunFault>, text: &str) -> bool {
    match given {
        Ok(given) => given.as_str() == text,
        Err(_) => false,
    }
}

#[test]
fn a_table_of_a_file_takes_what_is_lent(rt: HostRuntime) -> Result<(), Fail> {
    let mut table = Loaded::open(rt.alloc(), &[FILE])?;
    assert!(rt; append(rt.alloc(), &mut table.state, 1, 2, &NUMBERS) == Ok(1));
    let stats =
        "rows 3\nworker 0 calls 1 rows 1\nworker 1 calls 1 rows 2\n\"people\" int64 rows=3 nulls=1 sum=12 least=5 greatest=7\n";
    assert!(rt; is_text(table.stats(rt.alloc(), 2), stats));
    Ok(())
}

/// Fills a table with the rows of both columns, twice, and adds a column.
fn fill(alloc: Global, state: &mut TableState) -> Result<(), Fail> {
    append(alloc, state, 0, 2, &BOTH)?;
    append(alloc, state, 0, 2, &BOTH)?;
    add_column(alloc, state, &ADDED)?;
    state.compact(4)?;
    Ok(())
}

const SCHEMA: &str =
    "\"people\" int64 nullable=true\n\"city\" dictionary nullable=true\n\"hours\" int16 nullable=true\n";

const QUERY: &[u8] =
    b"{\"by\":[\"city\",\"hours\"],\"aggs\":[{\"agg\":\"rows\"},{\"agg\":\"sum\",\"column\":\"people\"}]}";

#[test]
fn a_table_answers_what_was_lent(rt: HostRuntime) -> Result<(), Fail> {
    let mut table = Loaded::of(table_of(rt.alloc(), &BOTH)?);
    fill(rt.alloc(), &mut table.state)?;
    assert!(rt; is_text(table.schema(rt.alloc()), SCHEMA));
    let groups = "\"a\" null 2 14\n\"b\" null 2 null\n";
    assert!(rt; is_text(table.query(rt.alloc(), QUERY), groups));
    assert!(rt; is_exported(rt.alloc(), &table));
    Ok(())
}

/// Whether the file that a table exports has its statistics.
fn is_exported(alloc: Global, table: &Loaded) -> bool {
    match table.export(alloc) {
        Ok(file) => opens_as(alloc, file.as_str(), table),
        Err(_) => false,
    }
}

fn opens_as(alloc: Global, file: &str, table: &Loaded) -> bool {
    match Loaded::open(alloc, &[file.as_bytes()]) {
        Ok(opened) => has_stats_of(alloc, &opened, table),
        Err(_) => false,
    }
}

fn has_stats_of(alloc: Global, table: &Loaded, other: &Loaded) -> bool {
    match other.stats(alloc, 1) {
        Ok(stats) => is_text(table.stats(alloc, 1), stats.as_str()),
        Err(_) => false,
    }
}

static SHORT: [Node<'static>; 1] = [Node {
    name: b"people",
    ..node!(b"l", ALONE, 2, UNKNOWN, [b"", b"\x07", b""])
}];

static OTHER: [Node<'static>; 1] = [Node {
    name: b"hours",
    ..PEOPLE
}];

/// A column that may hold no null.
static FULL: [Node<'static>; 1] = [Node {
    nullable: 0,
    ..HOURS
}];

/// Asserts what is told of columns that a table doesn't take, one after the other.
fn expect_refusals(rt: &impl Abort, alloc: Global, state: &mut TableState) {
    let fault = FlatFault::Layout {
        column: 0,
        fault: BufferTooShort,
    };
    let short = IntakeFault::Flat { fault };
    assert!(rt; append(alloc, state, 0, 2, &SHORT) == Err(short));
    let refusal = Refusal::SchemaDiffers { column: 0 };
    let other = IntakeFault::Refused { refusal };
    assert!(rt; append(alloc, state, 0, 2, &OTHER) == Err(other));
    let both = IntakeFault::NotOneColumn { columns: 2 };
    assert!(rt; add_column(alloc, state, &BOTH) == Err(both));
    let fault = AddFault::NotNullable;
    let full = IntakeFault::Column { fault };
    assert!(rt; add_column(alloc, state, &FULL) == Err(full));
}

/// Whether a query was refused.
fn is_refused(given: Result<String, RunFault>) -> bool {
    matches!(given, Err(RunFault::QueryRefused(_)))
}

#[test]
fn a_refusal_leaves_what_a_table_answers(rt: HostRuntime) -> Result<(), Fail> {
    let mut table = Loaded::open(rt.alloc(), &[FILE])?;
    let before = table.export(rt.alloc())?;
    expect_refusals(&rt, rt.alloc(), &mut table.state);
    assert!(rt; is_text(table.export(rt.alloc()), before.as_str()));
    assert!(rt; is_refused(table.query(rt.alloc(), b"{\"by\":[\"hours\"]}")));
    Ok(())
}

/// Faults as they are printed.
static LINES: [(IntakeFault, &str); 2] = [
    (
        IntakeFault::NotOneColumn { columns: 2 },
        "column: I1 NotOneColumn columns=2",
    ),
    (
        IntakeFault::Column {
            fault: AddFault::NotNullable,
        },
        "column: N1 NotNullable",
    ),
];

#[test]
fn a_fault_of_a_column_is_a_line(rt: HostRuntime) {
    for (place, (fault, line)) in LINES.iter().enumerate() {
        assert_case(&rt, is_line(rt.alloc(), fault, *line), place);
    }
}
