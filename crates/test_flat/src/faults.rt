//! Tests of nodes that are no batch.

use crate::node;
use crate::testing::{ALONE, CODES, LIST, UNKNOWN, assert_case, is_line};
use arrays::BatchFault::{self, LengthsDiffer};
use arrays::LayoutFault::{
    self, BufferTooShort, ChildDiffers, IndexPastDictionary, NotUtf8, NullCountDiffers,
    OffsetDecreases, OffsetNegative, OffsetPastEnd, TooLong,
};
use intake::{FlatFault, Node, batch_of, schema_of};
use std::alloc::Global;
use std::process::Abort;

/// The rows, the nodes of columns, and the fault that stands.
type Case<T> = (u32, &'static [Node<'static>], T);

const NUMBERS: Node<'static> = node!(b"c", ALONE, 2, 0, [b"", b"\x01\x02", b""]);

const OFFSETS: &[u8] = b"\0\0\0\0\x01\0\0\0\x02\0\0\0";

const WORDS: Node<'static> = node!(b"u", ALONE, 2, 0, [b"", OFFSETS, b"ab"]);

const LISTS: Node<'static> = node!(b"+l", LIST, 2, 0, [b"", OFFSETS, b""]);

static NODES: [Case<FlatFault>; 14] = [
    (
        2,
        &[NUMBERS, node!(b"", ALONE, 2, 0, [b"", b"", b""])],
        FlatFault::UnknownFormat { column: 1 },
    ),
    (
        2,
        &[NUMBERS, node!(b"g", ALONE, 2, 0, [b"", b"", b""])],
        FlatFault::UnknownFormat { column: 1 },
    ),
    (
        2,
        &[NUMBERS, node!(b"+w", LIST, 2, 0, [b"", b"", b""])],
        FlatFault::UnknownFormat { column: 1 },
    ),
    (
        2,
        &[NUMBERS, node!(b"tdD", ALONE, 2, 0, [b"", b"", b""])],
        FlatFault::UnknownFormat { column: 1 },
    ),
    (
        2,
        &[NUMBERS, node!(b"+l", ALONE, 2, 0, [b"", OFFSETS, b""])],
        FlatFault::ChildrenDiffer { column: 1 },
    ),
    (
        2,
        &[
            NUMBERS,
            node!(b"+l", (2, 0), 2, 0, [b"", OFFSETS, b""]),
            NUMBERS,
            NUMBERS,
        ],
        FlatFault::ChildrenDiffer { column: 1 },
    ),
    (
        2,
        &[
            NUMBERS,
            node!(b"c", LIST, 2, 0, [b"", b"\x01\x02", b""]),
            NUMBERS,
        ],
        FlatFault::ChildrenDiffer { column: 1 },
    ),
    (
        2,
        &[
            NUMBERS,
            node!(b"u", CODES, 2, 0, [b"", OFFSETS, b"ab"]),
            WORDS,
        ],
        FlatFault::ChildrenDiffer { column: 1 },
    ),
    (
        2,
        &[
            NUMBERS,
            node!(b"c", CODES, 2, 0, [b"", b"\0\x01", b""]),
            NUMBERS,
        ],
        FlatFault::ChildrenDiffer { column: 1 },
    ),
    (
        2,
        &[
            NUMBERS,
            node!(b"c", CODES, 2, 0, [b"", b"\0\x01", b""]),
            node!(b"U", ALONE, 0, 0, [b"", b"", b""]),
        ],
        FlatFault::ChildrenDiffer { column: 1 },
    ),
    (2, &[NUMBERS, LISTS], FlatFault::MissingNode { column: 1 }),
    (
        2,
        &[NUMBERS, node!(b"c", CODES, 2, 0, [b"", b"\0\x01", b""])],
        FlatFault::MissingNode { column: 1 },
    ),
    (
        2,
        &[
            LISTS, LISTS, LISTS, LISTS, LISTS, LISTS, LISTS, LISTS, LISTS, NUMBERS,
        ],
        FlatFault::TooDeep { column: 0 },
    ),
    // The first column at fault, whatever comes behind it.
    (
        2,
        &[
            NUMBERS,
            node!(b"c", ALONE, 3, 0, [b"", b"\x01", b""]),
            node!(b"g", ALONE, 2, 0, [b"", b"", b""]),
        ],
        FlatFault::Layout {
            column: 1,
            fault: BufferTooShort,
        },
    ),
];

/// The fault is that of the buffers of column 1.
static BUFFERS: [Case<LayoutFault>; 19] = [
    (
        2,
        &[NUMBERS, node!(b"c", ALONE, 2, 0, [b"", b"\x01", b""])],
        BufferTooShort,
    ),
    (
        2,
        &[
            NUMBERS,
            node!(b"i", ALONE, 9, 0, [b"\xff", b"\x01\0\0\0", b""]),
        ],
        BufferTooShort,
    ),
    (
        2,
        &[NUMBERS, node!(b"c", ALONE, u64::MAX, 0, [b"", b"", b""])],
        TooLong,
    ),
    (
        2,
        &[
            NUMBERS,
            node!(b"c", ALONE, 2, 2, [b"\x01", b"\x01\x02", b""]),
        ],
        NullCountDiffers,
    ),
    (
        2,
        &[NUMBERS, node!(b"c", ALONE, 2, 1, [b"", b"\x01\x02", b""])],
        NullCountDiffers,
    ),
    (
        2,
        &[
            NUMBERS,
            node!(b"+l", LIST, 2, 1, [b"\x03", OFFSETS, b""]),
            NUMBERS,
        ],
        NullCountDiffers,
    ),
    (
        2,
        &[
            NUMBERS,
            node!(
                b"u",
                ALONE,
                2,
                0,
                [b"", b"\0\0\0\0\xff\xff\xff\xff\x02\0\0\0", b"ab"]
            ),
        ],
        OffsetNegative,
    ),
    (
        2,
        &[
            NUMBERS,
            node!(
                b"u",
                ALONE,
                2,
                0,
                [b"", b"\0\0\0\0\x02\0\0\0\x01\0\0\0", b"ab"]
            ),
        ],
        OffsetDecreases { row: 1 },
    ),
    (
        2,
        &[NUMBERS, node!(b"u", ALONE, 2, 0, [b"", OFFSETS, b"a"])],
        OffsetPastEnd,
    ),
    (
        2,
        &[
            NUMBERS,
            node!(b"u", ALONE, 2, UNKNOWN, [b"", OFFSETS, b"a\xff"]),
        ],
        NotUtf8 { row: 1 },
    ),
    (
        2,
        &[
            NUMBERS,
            LISTS,
            node!(b"c", ALONE, 1, 0, [b"", b"\x01", b""]),
        ],
        OffsetPastEnd,
    ),
    (
        2,
        &[
            NUMBERS,
            LISTS,
            node!(b"c", ALONE, 2, 1, [b"", b"\x01\x02", b""]),
        ],
        NullCountDiffers,
    ),
    (
        2,
        &[
            NUMBERS,
            LISTS,
            node!(b"c", CODES, 2, 0, [b"", b"\0\x01", b""]),
            WORDS,
        ],
        ChildDiffers,
    ),
    (
        2,
        &[
            NUMBERS,
            node!(b"c", CODES, 2, 0, [b"", b"\x01\xff", b""]),
            WORDS,
        ],
        IndexPastDictionary { row: 1 },
    ),
    (
        2,
        &[
            NUMBERS,
            node!(b"C", CODES, 2, 0, [b"", b"\x02\x01", b""]),
            WORDS,
        ],
        IndexPastDictionary { row: 0 },
    ),
    (
        1,
        &[
            NUMBERS,
            node!(b"I", CODES, 1, 0, [b"", b"\0\0\0\x80", b""]),
            WORDS,
        ],
        IndexPastDictionary { row: 0 },
    ),
    (
        1,
        &[
            NUMBERS,
            node!(b"L", CODES, 1, 0, [b"", b"\0\0\0\0\x01\0\0\0", b""]),
            WORDS,
        ],
        IndexPastDictionary { row: 0 },
    ),
    (
        2,
        &[
            NUMBERS,
            node!(b"s", CODES, 2, 0, [b"", b"\0\0\x01", b""]),
            WORDS,
        ],
        BufferTooShort,
    ),
    (
        2,
        &[
            NUMBERS,
            node!(b"c", CODES, 2, 0, [b"", b"\0\x01", b""]),
            node!(b"u", ALONE, 2, 0, [b"", OFFSETS, b"a"]),
        ],
        OffsetPastEnd,
    ),
];

static BATCHES: [Case<BatchFault>; 3] = [
    (3, &[NUMBERS], LengthsDiffer { column: 0 }),
    (
        2,
        &[NUMBERS, node!(b"c", ALONE, 1, 0, [b"", b"\x01", b""])],
        LengthsDiffer { column: 1 },
    ),
    (2147483648, &[], LengthsDiffer { column: 0 }),
];

/// Asserts that nodes are no batch of so many rows, for this fault.
fn expect_fault(rt: &impl Abort, alloc: Global, rows: u32, nodes: &[Node<'_>], fault: FlatFault) {
    let refused = batch_of(alloc, rows, nodes).err();
    assert!(rt; refused == Some(fault), "{refused:?} for {fault:?}");
}

#[test]
fn the_first_column_at_fault_is_told(rt: HostRuntime) {
    for (rows, nodes, fault) in &NODES {
        expect_fault(&rt, rt.alloc(), *rows, *nodes, *fault);
    }
}

#[test]
fn a_fault_of_buffers_is_told_at_its_column(rt: HostRuntime) {
    for (rows, nodes, fault) in &BUFFERS {
        let fault = FlatFault::Layout {
            column: 1,
            fault: *fault,
        };
        expect_fault(&rt, rt.alloc(), *rows, *nodes, fault);
    }
}

#[test]
fn columns_of_another_length_are_no_batch(rt: HostRuntime) {
    for (rows, nodes, fault) in &BATCHES {
        let fault = FlatFault::Batch { fault: *fault };
        expect_fault(&rt, rt.alloc(), *rows, *nodes, fault);
    }
}

const SHORT: Node<'static> = node!(b"c", ALONE, 1, 0, [b"", b"\x01", b""]);

const INDICES: Node<'static> = node!(b"c", CODES, 2, 0, [b"", b"\0\x01", b""]);

/// A list of indices, behind a column of one row and before one, and the place of the list.
static LISTS_OF_INDICES: [Case<usize>; 2] = [
    (2, &[SHORT, LISTS, INDICES, WORDS], 1),
    (2, &[LISTS, INDICES, WORDS, SHORT], 0),
];

#[test]
fn a_list_of_indices_is_told_before_a_length(rt: HostRuntime) {
    for (rows, nodes, column) in &LISTS_OF_INDICES {
        let fault = FlatFault::Layout {
            column: *column,
            fault: ChildDiffers,
        };
        expect_fault(&rt, rt.alloc(), *rows, *nodes, fault);
    }
}

/// The second column's name is no text.
static NAMED: [Node<'static>; 2] = [
    NUMBERS,
    Node {
        name: b"\xff",
        ..NUMBERS
    },
];

#[test]
fn a_name_is_utf8(rt: HostRuntime) {
    let fault = FlatFault::NameNotUtf8 { column: 1 };
    expect_fault(&rt, rt.alloc(), 2, &NAMED, fault);
    assert!(rt; schema_of(rt.alloc(), &NAMED).err() == Some(fault));
}

/// Faults as they are printed.
static LINES: [(FlatFault, &str); 8] = [
    (
        FlatFault::NameNotUtf8 { column: 3 },
        "X1 NameNotUtf8 column=3",
    ),
    (
        FlatFault::UnknownFormat { column: 3 },
        "X2 UnknownFormat column=3",
    ),
    (
        FlatFault::ChildrenDiffer { column: 3 },
        "X3 ChildrenDiffer column=3",
    ),
    (
        FlatFault::MissingNode { column: 3 },
        "X4 MissingNode column=3",
    ),
    (FlatFault::TooDeep { column: 3 }, "X5 TooDeep column=3"),
    (
        FlatFault::Layout {
            column: 1,
            fault: NotUtf8 { row: 7 },
        },
        "X6 Layout column=1: V8 NotUtf8 row=7",
    ),
    (
        FlatFault::Batch {
            fault: BatchFault::ColumnCount,
        },
        "B3 ColumnCount",
    ),
    (FlatFault::NoMemory, "X7 NoMemory"),
];

#[test]
fn a_fault_is_a_line(rt: HostRuntime) {
    for (place, (fault, line)) in LINES.iter().enumerate() {
        assert_case(&rt, is_line(rt.alloc(), fault, *line), place);
    }
}
