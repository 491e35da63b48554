//! Parts that stand deeper in one another than a stack has room for: they are refused, and let go.

use arrays::{DataType, LayoutFault, RawArray, validate};
use std::alloc::Global;
use std::test::Fail;
use test_samples::{NARROW, WIDE_IN_NARROW, lists_of, raw};

const LEVELS: usize = 1_000_000;

#[test]
fn a_type_of_many_lists_is_too_deep(rt: HostRuntime) -> Result<(), Fail> {
    for widths in [NARROW, WIDE_IN_NARROW] {
        let ty = lists_of(rt.alloc(), widths, LEVELS, DataType::Bool)?;
        let parts = raw(rt.alloc(), ty, 0, &[])?;
        let fault = validate(rt.alloc(), parts).err();
        assert!(rt; fault == Some(LayoutFault::TooDeep), "{widths:?}");
    }
    Ok(())
}

/// So many arrays without buffers, each the child of the next, as the child of an array with a dictionary beside it.
fn chain(alloc: Global, levels: usize) -> Result<RawArray, Fail> {
    let mut inner = raw(alloc, DataType::Bool, 0, &[])?;
    for _level in 0..levels {
        let mut outer = raw(alloc, DataType::Bool, 0, &[])?;
        outer.children.push(inner)?;
        inner = outer;
    }
    let mut outermost = raw(alloc, DataType::Bool, 0, &[None, Some(&[])])?;
    outermost.children.push(inner)?;
    let entries = raw(alloc, DataType::Utf8, 0, &[])?;
    outermost.dictionary = Some(Box::new(alloc, entries)?);
    Ok(outermost)
}

#[test]
fn a_chain_of_many_children_is_refused(rt: HostRuntime) -> Result<(), Fail> {
    let parts = chain(rt.alloc(), LEVELS)?;
    let fault = validate(rt.alloc(), parts).err();
    assert!(rt; fault == Some(LayoutFault::ChildDiffers));
    Ok(())
}
