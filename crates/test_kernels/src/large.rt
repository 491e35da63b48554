//! Tests of columns that are large.

use arrays::{Array, DataType, OffsetWidth, RawArray, validate};
use select::{SelectFault, concat, take};
use std::alloc::Global;
use std::test::Fail;
use test_samples::{Flat, INT8, INT16, built, has_layers, has_width, list_of, offset_bytes, raw};

/// So many numbers, 0 to 99 over and over again.
fn hundreds(alloc: Global, len: u32) -> Result<RawArray, Fail> {
    let mut numbers = Vec::new(alloc);
    for i in 0..len {
        numbers.push((i % 100) as u8)?;
    }
    let numbers = [None, Some(numbers.as_slice())];
    raw(alloc, DataType::Int(INT8), u64::from(len), &numbers)
}

/// So many lists, each of a thousand numbers, with offsets of this width.
fn thousands(alloc: Global, width: OffsetWidth, lists: u32) -> Result<Array, Fail> {
    let mut offsets = Vec::new(alloc);
    for j in 0..=lists {
        offsets.push(i64::from(j.wrapping_mul(1000)))?;
    }
    let offsets = offset_bytes(alloc, width, &offsets)?;
    let ty = list_of(alloc, width, DataType::Int(INT8))?;
    let mut column = raw(
        alloc,
        ty,
        u64::from(lists),
        &[None, Some(offsets.as_slice())],
    )?;
    let child = hundreds(alloc, lists.wrapping_mul(1000))?;
    column.children.push(child)?;
    Ok(validate(alloc, column)?)
}

#[test]
fn one_list_of_a_large_column_has_its_own_items_alone(rt: HostRuntime) -> Result<(), Fail> {
    for width in [OffsetWidth::Narrow, OffsetWidth::Wide] {
        let column = thousands(rt.alloc(), width, 1000)?;
        let index = built(rt.alloc(), (Flat::Int(INT16), 1, &[None, Some(&[231, 3])]))?;
        let row = take(rt.alloc(), &column.view(), &index.view())?;
        assert!(rt;
            has_layers(&row.view(), &[(&[0, 1000], 1000)]) && has_width(&row.view(), width)
        );
    }
    Ok(())
}

/// 2^19 truth values, all false.
fn falses(alloc: Global) -> Result<RawArray, Fail> {
    let mut bits = Vec::new(alloc);
    for _ in 0..65536 {
        bits.push(0)?;
    }
    raw(
        alloc,
        DataType::Bool,
        524288,
        &[None, Some(bits.as_slice())],
    )
}

/// The same as one list, with offsets of this width.
fn list_of_falses(alloc: Global, width: OffsetWidth) -> Result<RawArray, Fail> {
    let offsets = offset_bytes(alloc, width, &[0, 524288])?;
    let ty = list_of(alloc, width, DataType::Bool)?;
    let mut list = raw(alloc, ty, 1, &[None, Some(offsets.as_slice())])?;
    list.children.push(falses(alloc)?)?;
    Ok(list)
}

/// The fault of 2^12 times an array one behind the other.
fn fault_of_many(alloc: Global, raw: RawArray) -> Result<Option<SelectFault>, Fail> {
    let array = validate(alloc, raw)?;
    let mut views = Vec::new(alloc);
    views.push(array.view())?;
    for _ in 1..4096 {
        views.push(array.view())?;
    }
    if views.is_empty() {
        return Err("there are no views".into());
    }
    Ok(concat(alloc, &views).err())
}

#[test]
fn more_slots_than_an_array_has_are_refused(rt: HostRuntime) -> Result<(), Fail> {
    let fault = fault_of_many(rt.alloc(), falses(rt.alloc())?)?;
    assert!(rt; fault == Some(SelectFault::OffsetsFull));
    Ok(())
}

#[test]
fn more_items_than_an_array_has_are_refused(rt: HostRuntime) -> Result<(), Fail> {
    for width in [OffsetWidth::Narrow, OffsetWidth::Wide] {
        let fault = fault_of_many(rt.alloc(), list_of_falses(rt.alloc(), width)?)?;
        assert!(rt; fault == Some(SelectFault::OffsetsFull), "{width:?}");
    }
    Ok(())
}
