//! Columns that are lent.

use intake::Node;

/// The nodes of four columns of three rows each: lists of numbers, codes, large texts, and truth values in these bits.
pub(crate) fn nodes(bits: &[u8]) -> [Node<'_>; 6] {
    let offsets = b"\0\0\0\0\x01\0\0\0\x01\0\0\0\x03\0\0\0";
    let wide = b"\0\0\0\0\0\0\0\0\x01\0\0\0\0\0\0\0\x01\0\0\0\0\0\0\0\x03\0\0\0\0\0\0\0";
    [
        Node {
            children: 1,
            ..node(b"+l", [b"\x05", offsets, b""])
        },
        node(b"c", [b"", b"\x01\x02\x03", b""]),
        Node {
            dictionary: 1,
            ..node(b"C", [b"\x05", b"\x02\xff\0", b""])
        },
        node(b"u", [b"", offsets, b"abc"]),
        node(b"U", [b"", wide, b"abc"]),
        node(b"b", [b"\x05", bits, b""]),
    ]
}

/// A node of three slots, of a format and with buffers: its validity first.
fn node<'a>(format: &'a [u8], buffers: [&'a [u8]; 3]) -> Node<'a> {
    let [validity, first, second] = buffers;
    Node {
        format,
        name: b"name",
        nullable: 2,
        dictionary: 0,
        children: 0,
        length: 3,
        null_count: u64::MAX,
        validity,
        first,
        second,
    }
}
