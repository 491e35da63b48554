//! Tests of buffers and bitmaps.

mod growing;
mod words;

use crate::testing::{AllBut, has_bits};
use arrays::{BitmapBuf, Buffer, NoMemory};
use std::test::Fail;

/// Bits, and the bytes that hold them.
static PACKED: &[(&[bool], &[u8])] = &[
    (&[true, true, false, true, false, true], &[0x2b]),
    (
        &[true, false, false, false, false, false, false, true, true],
        &[0x81, 0x01],
    ),
];

#[test]
fn packs_bits(rt: HostRuntime) -> Result<(), Fail> {
    for (bools, bytes) in PACKED {
        let bitmap = BitmapBuf::from_bools(rt.alloc(), *bools)?;
        assert!(rt; has_bits(&bitmap.bits(), *bools));
        let buffer = bitmap.into_buffer();
        assert!(rt; buffer.bytes() == *bytes && buffer.stored_len() == 64);
    }
    let places = AllBut { place: 2, len: 9 };
    let made = BitmapBuf::from_places(rt.alloc(), &places);
    assert!(rt; is_packed(made, &[0xfb, 0x01]));
    Ok(())
}

/// Whether bits were made, and these bytes hold them.
fn is_packed(made: Result<BitmapBuf, NoMemory>, bytes: &[u8]) -> bool {
    match made {
        Ok(bitmap) => bitmap.into_buffer().bytes() == bytes,
        Err(_) => false,
    }
}

#[test]
fn pads_buffers(rt: HostRuntime) -> Result<(), Fail> {
    for (length, stored) in [(0, 0), (64, 64), (65, 128)] {
        let buffer = Buffer::from_vec(vec![in rt.alloc(); 7; length]?)?;
        assert!(rt; buffer.stored_len() == stored, "of {length} bytes");
    }
    Ok(())
}

#[test]
fn combines_bits(rt: HostRuntime) -> Result<(), Fail> {
    let alloc = rt.alloc();
    let left = BitmapBuf::from_bools(alloc, &[true, true, false, false])?;
    let right = BitmapBuf::from_bools(alloc, &[true, false, true, false])?;
    let (a, b) = (left.bits(), right.bits());
    assert!(rt; a.len() == b.len());
    assert!(rt; is_packed(BitmapBuf::and(alloc, &a, &b), &[0x01]));
    assert!(rt; is_packed(BitmapBuf::or(alloc, &a, &b), &[0x07]));
    assert!(rt; is_packed(BitmapBuf::and_not(alloc, &a, &b), &[0x02]));
    assert!(rt; is_packed(BitmapBuf::not(alloc, &a), &[0x0c]));
    Ok(())
}
