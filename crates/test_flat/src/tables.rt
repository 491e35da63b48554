//! Tests of tables that are filled with what is lent.

use crate::node;
use crate::testing::{ALONE, CODES, UNKNOWN};
use arrays::LayoutFault::BufferTooShort;
use intake::{FlatFault, IntakeFault, Node, Refusal, TableState, append, table_of};
use std::test::Fail;

const PEOPLE: Node<'static> = node!(b"l", ALONE, 1, 0, [b"", b"\x05\0\0\0\0\0\0\0", b""]);

const CITY: Node<'static> = node!(b"u", ALONE, 1, UNKNOWN, [b"", b"\0\0\0\0\x02\0\0\0", b"ab"]);

static PLAIN: [Node<'static>; 2] = [PEOPLE, CITY];

/// The same, of which the texts have a dictionary.
static CODED: [Node<'static>; 3] = [PEOPLE, node!(b"C", CODES, 1, 0, [b"", b"\0", b""]), CITY];

/// Whether a table has so many rows.
fn has_rows(table: &TableState, count: u64) -> bool {
    match table.version() {
        Ok(version) => version.rows() == count,
        Err(_) => false,
    }
}

#[test]
fn a_table_has_the_batches_that_it_was_lent(rt: HostRuntime) -> Result<(), Fail> {
    let mut table = table_of(rt.alloc(), &PLAIN)?;
    assert!(rt; append(rt.alloc(), &mut table, 3, 1, &PLAIN) == Ok(0));
    assert!(rt; append(rt.alloc(), &mut table, 3, 1, &CODED) == Ok(1));
    assert!(rt; has_rows(&table, 2));
    Ok(())
}

static NUMBERS: [Node<'static>; 1] = [PEOPLE];

static SHORT: [Node<'static>; 1] = [node!(b"l", ALONE, 1, 0, [b"", b"\x05", b""])];

static TEXTS: [Node<'static>; 1] = [CITY];

#[test]
fn a_refusal_leaves_the_table_as_it_was(rt: HostRuntime) -> Result<(), Fail> {
    let mut table = table_of(rt.alloc(), &NUMBERS)?;
    let fault = FlatFault::Layout {
        column: 0,
        fault: BufferTooShort,
    };
    let short = append(rt.alloc(), &mut table, 0, 1, &SHORT);
    assert!(rt; short == Err(IntakeFault::Flat { fault }));
    let refusal = Refusal::SchemaDiffers { column: 0 };
    let other = append(rt.alloc(), &mut table, 0, 1, &TEXTS);
    assert!(rt; other == Err(IntakeFault::Refused { refusal }));
    assert!(rt; has_rows(&table, 0));
    Ok(())
}
