//! Tests of bits in the making.

use crate::testing::AllBut;
use arrays::{BitmapBuf, BitmapBuilder};
use std::alloc::Global;
use std::process::Abort;
use std::test::Fail;

/// What is put behind bits.
#[derive(Clone, Copy)]
enum Push {
    Bit(bool),
    Ones(usize),
    Bits(&'static [bool]),
    /// So many places, all 1 but the third.
    Places(usize),
}

/// Puts it behind the bits.
fn put(
    rt: &impl Abort,
    alloc: Global,
    builder: &mut BitmapBuilder,
    pushed: Push,
) -> Result<(), Fail> {
    assert!(rt; builder.len() < 1000);
    match pushed {
        Push::Bit(bit) => builder.push(bit)?,
        Push::Ones(count) => {
            assert!(rt; count < 1000);
            builder.push_ones(count)?;
        }
        Push::Bits(bools) => {
            let bitmap = BitmapBuf::from_bools(alloc, bools)?;
            let bits = bitmap.bits();
            assert!(rt; bits.len() < 1000);
            builder.push_bits(&bits)?;
        }
        Push::Places(len) => {
            assert!(rt; len < 1000);
            builder.push_places(&AllBut { place: 2, len })?;
        }
    }
    Ok(())
}

/// What is pushed, how many bits there are then, where they are cut, what is pushed behind the cut, and the bytes that hold all.
type Growth = (
    &'static [Push],
    usize,
    usize,
    &'static [Push],
    &'static [u8],
);

static GROWN: [Growth; 2] = [
    // 1, 0, 1, then 130 times 1, then 0, 1, 0, then 1, 1, 0 and four times 1: over words.
    (
        &[
            Push::Bit(true),
            Push::Bit(false),
            Push::Bit(true),
            Push::Ones(130),
            Push::Bits(&[false, true, false]),
            Push::Places(9),
        ],
        145,
        143,
        &[],
        &[
            0xfd, 0xff, 0xff, 0xff, 0xff, 0xff, 0xff, 0xff, 0xff, 0xff, 0xff, 0xff, 0xff, 0xff,
            0xff, 0xff, 0x5f, 0x7b,
        ],
    ),
    // 67 times 1, then 0 and 1: cut within a word.
    (
        &[Push::Ones(200)],
        200,
        67,
        &[Push::Bit(false), Push::Bit(true)],
        &[0xff, 0xff, 0xff, 0xff, 0xff, 0xff, 0xff, 0xff, 0x17],
    ),
];

/// The bits that are pushed, cut, and pushed.
fn grown(rt: &impl Abort, alloc: Global, growth: &Growth) -> Result<BitmapBuilder, Fail> {
    let (front, len, cut, back, _) = *growth;
    let mut builder = BitmapBuilder::new(alloc);
    assert!(rt; builder.is_empty());
    for pushed in front {
        put(rt, alloc, &mut builder, *pushed)?;
    }
    assert!(rt; builder.len() == len);
    builder.truncate(cut);
    for pushed in back {
        put(rt, alloc, &mut builder, *pushed)?;
    }
    assert!(rt; builder.len() == cut.wrapping_add(back.len()));
    Ok(builder)
}

#[test]
fn bits_grow_and_are_cut(rt: HostRuntime) -> Result<(), Fail> {
    for growth in &GROWN {
        let buffer = grown(&rt, rt.alloc(), growth)?.finish()?.into_buffer();
        assert!(rt; buffer.bytes() == growth.4, "{} bits", growth.1);
    }
    Ok(())
}
