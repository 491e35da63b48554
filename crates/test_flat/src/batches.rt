//! Tests of what batches of nodes show.

use crate::testing::{ALONE, CODES, LIST, UNKNOWN, assert_case};
use crate::{empty, node};
use arrays::RecordBatch;
use intake::{Node, batch_of, nodes_of};
use std::alloc::Global;
use std::test::Fail;
use test_samples::{Shown, shows};

/// The rows, the nodes of one column, and what it shows.
type Column = (u32, &'static [Node<'static>], Shown);

const NARROW: &[u8] = b"\0\0\0\0\x01\0\0\0\x01\0\0\0\x03\0\0\0";

const WIDE: &[u8] = b"\0\0\0\0\0\0\0\0\x01\0\0\0\0\0\0\0\x01\0\0\0\0\0\0\0\x03\0\0\0\0\0\0\0";

const TEXTS: Shown = Shown::Texts(&[Some("a"), Some(""), Some("bc")]);

const ITEMS: Node<'static> = node!(b"c", ALONE, 3, 0, [b"", b"\x01\x02\x03", b""]);

const LISTS: Shown = Shown::Lists(&[Some(&[Some(1)]), None, Some(&[Some(2), Some(3)])]);

const WORDS: Node<'static> = node!(b"u", ALONE, 3, 0, [b"", NARROW, b"abc"]);

const NAMED: Shown = Shown::Encoded(
    &[Some(2), None, Some(0)],
    &[Some("a"), Some(""), Some("bc")],
    &[Some("bc"), None, Some("a")],
);

static COLUMNS: [Column; 28] = [
    // Values.
    (
        2,
        &[node!(b"c", ALONE, 2, 0, [b"", b"\x01\xfe", b""])],
        Shown::Numbers(&[Some(1), Some(-2)]),
    ),
    (
        2,
        &[node!(b"C", ALONE, 2, UNKNOWN, [b"", b"\x01\xfe", b""])],
        Shown::Numbers(&[Some(1), Some(254)]),
    ),
    (
        2,
        &[node!(b"s", ALONE, 2, 1, [b"\x02", b"\x01\0\xfe\xff", b""])],
        Shown::Numbers(&[None, Some(-2)]),
    ),
    (
        1,
        &[node!(b"S", ALONE, 1, 0, [b"", b"\xfe\xff", b""])],
        Shown::Numbers(&[Some(65534)]),
    ),
    (
        1,
        &[node!(b"i", ALONE, 1, 0, [b"", b"\xfe\xff\xff\xff", b""])],
        Shown::Numbers(&[Some(-2)]),
    ),
    (
        1,
        &[node!(b"I", ALONE, 1, 0, [b"", b"\xfe\xff\xff\xff", b""])],
        Shown::Numbers(&[Some(4294967294)]),
    ),
    (
        1,
        &[node!(
            b"l",
            ALONE,
            1,
            0,
            [b"", b"\xfe\xff\xff\xff\xff\xff\xff\xff", b""]
        )],
        Shown::Numbers(&[Some(-2)]),
    ),
    (
        1,
        &[node!(
            b"L",
            ALONE,
            1,
            0,
            [b"", b"\xfe\xff\xff\xff\xff\xff\xff\xff", b""]
        )],
        Shown::Numbers(&[Some(18446744073709551614)]),
    ),
    (
        3,
        &[node!(b"b", ALONE, 3, UNKNOWN, [b"\x05", b"\x04", b""])],
        Shown::Bools(&[Some(false), None, Some(true)]),
    ),
    (3, &[node!(b"u", ALONE, 3, 0, [b"", NARROW, b"abc"])], TEXTS),
    (3, &[node!(b"U", ALONE, 3, 0, [b"", WIDE, b"abc"])], TEXTS),
    // No offsets stand for the one of no slots.
    (
        0,
        &[node!(b"u", ALONE, 0, 0, [b"", b"", b""])],
        Shown::Texts(&[]),
    ),
    // Lists.
    (
        3,
        &[node!(b"+l", LIST, 3, 1, [b"\x05", NARROW, b""]), ITEMS],
        LISTS,
    ),
    (
        3,
        &[node!(b"+L", LIST, 3, 1, [b"\x05", WIDE, b""]), ITEMS],
        LISTS,
    ),
    (
        1,
        &[
            node!(b"+l", LIST, 1, 0, [b"", b"\0\0\0\0\x03\0\0\0", b""]),
            node!(b"+L", LIST, 3, UNKNOWN, [b"\x05", WIDE, b""]),
            ITEMS,
        ],
        Shown::ListsOfLists(&[Some(&[Some(&[Some(1)]), None, Some(&[Some(2), Some(3)])])]),
    ),
    // Indices: what lies under a null names no entry.
    (
        3,
        &[
            node!(b"c", CODES, 3, 1, [b"\x05", b"\x02\xff\0", b""]),
            WORDS,
        ],
        NAMED,
    ),
    (
        3,
        &[
            node!(b"C", CODES, 3, 1, [b"\x05", b"\x02\xff\0", b""]),
            WORDS,
        ],
        NAMED,
    ),
    (
        3,
        &[
            node!(b"s", CODES, 3, 1, [b"\x05", b"\x02\0\xff\xff\0\0", b""]),
            WORDS,
        ],
        NAMED,
    ),
    (
        3,
        &[
            node!(b"S", CODES, 3, 1, [b"\x05", b"\x02\0\xff\xff\0\0", b""]),
            WORDS,
        ],
        NAMED,
    ),
    (
        3,
        &[
            node!(
                b"i",
                CODES,
                3,
                1,
                [b"\x05", b"\x02\0\0\0\xff\xff\xff\xff\0\0\0\0", b""]
            ),
            WORDS,
        ],
        NAMED,
    ),
    (
        3,
        &[
            node!(
                b"I",
                CODES,
                3,
                1,
                [b"\x05", b"\x02\0\0\0\xff\xff\xff\xff\0\0\0\0", b""]
            ),
            WORDS,
        ],
        NAMED,
    ),
    (
        3,
        &[
            node!(
                b"l",
                CODES,
                3,
                1,
                [
                    b"\x05",
                    b"\x02\0\0\0\0\0\0\0\0\0\0\0\x01\0\0\0\0\0\0\0\0\0\0\0",
                    b""
                ]
            ),
            WORDS,
        ],
        NAMED,
    ),
    (
        3,
        &[
            node!(
                b"L",
                CODES,
                3,
                UNKNOWN,
                [
                    b"\x05",
                    b"\x02\0\0\0\0\0\0\0\xff\xff\xff\xff\xff\xff\xff\xff\0\0\0\0\0\0\0\0",
                    b""
                ]
            ),
            WORDS,
        ],
        NAMED,
    ),
    // No slots, with no bytes at all.
    (
        0,
        &[node!(b"l", ALONE, 0, 0, [b"", b"", b""])],
        Shown::Numbers(&[]),
    ),
    (0, &[empty!(b"b", ALONE)], Shown::Bools(&[])),
    (
        0,
        &[node!(b"U", ALONE, 0, 0, [b"", b"", b""])],
        Shown::Texts(&[]),
    ),
    (
        0,
        &[
            node!(b"+l", LIST, 0, 0, [b"", b"", b""]),
            node!(b"c", ALONE, 0, 0, [b"", b"", b""]),
        ],
        Shown::Lists(&[]),
    ),
    (
        0,
        &[
            node!(b"i", CODES, 0, 0, [b"", b"", b""]),
            node!(b"u", ALONE, 0, 0, [b"", b"", b""]),
        ],
        Shown::Encoded(&[], &[], &[]),
    ),
];

/// Whether nodes are a batch of one column, which shows this.
fn is_shown(alloc: Global, rows: u32, nodes: &[Node<'_>], shown: Shown) -> bool {
    match batch_of(alloc, rows, nodes) {
        Ok(batch) => is_column(&batch, shown),
        Err(_) => false,
    }
}

fn is_column(batch: &RecordBatch, shown: Shown) -> bool {
    match batch.columns() {
        [column] => shows(&column.view(), shown),
        _ => false,
    }
}

#[test]
fn a_column_shows_its_values(rt: HostRuntime) {
    for (place, (rows, nodes, shown)) in COLUMNS.iter().enumerate() {
        let is_right = is_shown(rt.alloc(), *rows, *nodes, *shown);
        assert_case(&rt, is_right, place);
    }
}

/// Whether what the batch of these nodes lends is as many nodes, of a batch that shows this.
fn is_lent_on(alloc: Global, rows: u32, nodes: &[Node<'_>], shown: Shown) -> bool {
    match batch_of(alloc, rows, nodes) {
        Ok(batch) => lends(alloc, &batch, nodes.len(), shown),
        Err(_) => false,
    }
}

fn lends(alloc: Global, batch: &RecordBatch, count: usize, shown: Shown) -> bool {
    match nodes_of(alloc, batch) {
        Ok(lent) => lent.len() == count && is_shown(alloc, batch.rows(), &lent, shown),
        Err(_) => false,
    }
}

#[test]
fn what_is_lent_on_shows_the_same(rt: HostRuntime) {
    for (place, (rows, nodes, shown)) in COLUMNS.iter().enumerate() {
        let is_right = is_lent_on(rt.alloc(), *rows, *nodes, *shown);
        assert_case(&rt, is_right, place);
    }
}

/// The format, the name and the buffers.
fn bytes_of<'a>(node: &Node<'a>) -> [&'a [u8]; 5] {
    [
        node.format,
        node.name,
        node.validity,
        node.first,
        node.second,
    ]
}

/// Whether a batch of one plain column lends what it was made of.
fn lends_bytes(alloc: Global, batch: &RecordBatch, made: &[Node<'_>]) -> bool {
    match nodes_of(alloc, batch) {
        Ok(lent) => match (lent.as_slice(), made) {
            ([lent], [made]) => {
                bytes_of(lent) == bytes_of(made) && (lent.length, lent.nullable) == (made.length, 1)
            }
            _ => false,
        },
        Err(_) => false,
    }
}

fn is_lent(alloc: Global, rows: u32, nodes: &[Node<'_>]) -> bool {
    match batch_of(alloc, rows, nodes) {
        Ok(batch) => lends_bytes(alloc, &batch, nodes),
        Err(_) => false,
    }
}

#[test]
fn what_is_lent_is_the_bytes_of_the_columns(rt: HostRuntime) {
    for place in [2, 8, 9, 10] {
        let is_right = match COLUMNS.get(place) {
            Some((rows, nodes, _)) => is_lent(rt.alloc(), *rows, *nodes),
            None => false,
        };
        assert_case(&rt, is_right, place);
    }
}

static BESIDE: [Node<'static>; 5] = [
    node!(b"+l", LIST, 3, 1, [b"\x05", NARROW, b""]),
    ITEMS,
    node!(b"c", CODES, 3, 1, [b"\x05", b"\x02\xff\0", b""]),
    WORDS,
    ITEMS,
];

const NUMBERS: Shown = Shown::Numbers(&[Some(1), Some(2), Some(3)]);

/// Whether a batch shows lists, what is named, and numbers.
fn shows_three(batch: &RecordBatch) -> bool {
    match batch.columns() {
        [lists, named, numbers] => {
            shows(&lists.view(), LISTS)
                && shows(&named.view(), NAMED)
                && shows(&numbers.view(), NUMBERS)
        }
        _ => false,
    }
}

#[test]
fn columns_stand_one_after_the_other(rt: HostRuntime) -> Result<(), Fail> {
    let batch = batch_of(rt.alloc(), 3, &BESIDE)?;
    assert!(rt; batch.rows() == 3);
    assert!(rt; shows_three(&batch));
    Ok(())
}

#[test]
fn a_batch_without_columns_has_rows(rt: HostRuntime) -> Result<(), Fail> {
    let batch = batch_of(rt.alloc(), 4, &[])?;
    assert!(rt; batch.rows() == 4);
    assert!(rt; batch.columns().is_empty());
    Ok(())
}
