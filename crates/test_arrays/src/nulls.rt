//! Tests of columns of nulls.

use arrays::{Array, DataType, OffsetWidth, has_dict_in_list, is_too_deep};
use std::alloc::Global;
use std::process::Abort;
use std::test::Fail;
use test_samples::{
    Flat, INT8, INT16, INT32, INT64, Layers, NAMES, Sample, Shown, UINT8, UINT16, UINT32, UINT64,
    WIDTHS, field, has_layers, is_result, list_of, lists_of, sampled_at,
};

/// Three nulls of the type of a sample, and what no slots of it are.
static NULLS: &[(Sample, Shown, Shown)] = &[
    (
        Sample::Of((Flat::Bool, 0, &[None, Some(&[])])),
        Shown::Bools(&[None, None, None]),
        Shown::Bools(&[]),
    ),
    (
        Sample::Texts(NAMES),
        Shown::Texts(&[None, None, None]),
        Shown::Texts(&[]),
    ),
    (
        Sample::Coded,
        Shown::Encoded(&[None, None, None], &[], &[None, None, None]),
        Shown::Encoded(&[], &[], &[]),
    ),
    (
        Sample::Lists,
        Shown::Lists(&[None, None, None]),
        Shown::Lists(&[]),
    ),
    (
        Sample::ListsOfLists,
        Shown::ListsOfLists(&[None, None, None]),
        Shown::ListsOfLists(&[]),
    ),
];

/// So many nulls of a type.
fn nulls(rt: &impl Abort, alloc: Global, ty: &DataType, len: u32) -> Result<Array, Fail> {
    assert!(rt; len < 1000 && !is_too_deep(ty) && !has_dict_in_list(ty));
    Ok(Array::nulls(alloc, ty, len)?)
}

#[test]
fn makes_nulls_of_each_type(rt: HostRuntime) -> Result<(), Fail> {
    for widths in WIDTHS {
        for (sample, three, none) in NULLS {
            let other = sampled_at(rt.alloc(), widths, *sample)?;
            let column = nulls(&rt, rt.alloc(), other.ty(), 3)?;
            assert!(rt; column.view().ty().is_same(other.view().ty()));
            assert!(rt; is_result(&column, *three), "three at {widths:?}");
            let column = nulls(&rt, rt.alloc(), other.ty(), 0)?;
            assert!(rt; column.view().ty().is_same(other.view().ty()));
            assert!(rt; is_result(&column, *none), "none at {widths:?}");
        }
    }
    Ok(())
}

/// Whether nulls are of this very type, the names of its items included.
fn are_of(rt: &impl Abort, alloc: Global, ty: &DataType) -> Result<bool, Fail> {
    let column = nulls(rt, alloc, ty, 3)?;
    let own = format!(in alloc; "{:?}", column.ty())?;
    let wanted = format!(in alloc; "{ty:?}")?;
    Ok(own == wanted)
}

#[test]
fn nulls_are_of_the_very_type(rt: HostRuntime) -> Result<(), Fail> {
    for ty in [INT8, INT16, INT32, INT64, UINT8, UINT16, UINT32, UINT64] {
        assert!(rt; are_of(&rt, rt.alloc(), &DataType::Int(ty))?, "{ty:?}");
    }
    for ty in [
        DataType::Bool,
        DataType::Utf8,
        DataType::LargeUtf8,
        DataType::Dict,
    ] {
        assert!(rt; are_of(&rt, rt.alloc(), &ty)?, "{ty:?}");
    }
    for width in [OffsetWidth::Narrow, OffsetWidth::Wide] {
        let item = field(rt.alloc(), "entry", false, DataType::Utf8)?;
        let lists = DataType::of_lists(width, Box::new(rt.alloc(), item)?);
        assert!(rt; are_of(&rt, rt.alloc(), &lists)?, "{lists:?}");
        let lists = list_of(rt.alloc(), width, lists)?;
        assert!(rt; are_of(&rt, rt.alloc(), &lists)?, "{lists:?}");
    }
    Ok(())
}

#[test]
fn makes_null_lists_that_have_no_items(rt: HostRuntime) -> Result<(), Fail> {
    let layers: Layers = &[(&[0, 0, 0], 0), (&[0], 0)];
    for widths in WIDTHS {
        let ty = lists_of(rt.alloc(), widths, 8, DataType::LargeUtf8)?;
        let column = nulls(&rt, rt.alloc(), &ty, 2)?;
        assert!(rt; has_layers(&column.view(), layers), "at {widths:?}");
    }
    Ok(())
}
