//! Tests of schemas and record batches.

use arrays::BatchFault::{self, ColumnCount, LengthsDiffer, TypeDiffers};
use arrays::SchemaFault::{DictInList, TooDeep};
use arrays::{Array, DataType, IntType, RecordBatch, Schema, validate};
use std::alloc::Global;
use std::sync::Arc;
use std::test::Fail;
use test_samples::{
    INT16, INT32, NARROW, Positions, Shown, WIDE, WIDE_IN_NARROW, WIDTHS, Widths, checked, field,
    list_of, lists_of, raw, shows,
};

#[test]
fn tells_faults_of_schemas(rt: HostRuntime) -> Result<(), Fail> {
    let alloc = rt.alloc();
    for widths in WIDTHS {
        for (lists, ty, fault) in [
            (8, DataType::Bool, None),
            (9, DataType::Bool, Some(TooDeep { column: 0 })),
            (200_000, DataType::Dict, Some(TooDeep { column: 0 })),
            (1, DataType::Dict, Some(DictInList { column: 0 })),
            (8, DataType::Dict, Some(DictInList { column: 0 })),
        ] {
            let ty = lists_of(alloc, widths, lists, ty)?;
            let fields = vec![in alloc; field(alloc, "name", true, ty)?]?;
            assert!(rt;
                Schema::new(fields).err() == fault,
                "{lists} lists, {widths:?}"
            );
        }
    }
    Ok(())
}

/// The types of the fields, the rows, and the type and length of each column.
type Columns = (&'static [IntType], u32, &'static [(IntType, u64)]);

static BATCHES: &[(Columns, Option<BatchFault>)] = &[
    ((&[INT32, INT16], 2, &[(INT16, 1)]), Some(ColumnCount)),
    (
        (&[INT32, INT16], 2, &[(INT32, 1), (INT32, 1)]),
        Some(TypeDiffers { column: 1 }),
    ),
    (
        (&[INT32, INT16], 2, &[(INT32, 2), (INT16, 1)]),
        Some(LengthsDiffer { column: 1 }),
    ),
    ((&[INT32, INT16], 2, &[(INT32, 2), (INT16, 2)]), None),
    // A batch without columns may have rows, but not too many.
    ((&[], 3, &[]), None),
    ((&[], 2147483647, &[]), None),
    ((&[], 2147483648, &[]), Some(LengthsDiffer { column: 0 })),
    ((&[], u32::MAX, &[]), Some(LengthsDiffer { column: 0 })),
    ((&[], 2, &[(INT32, 2)]), Some(ColumnCount)),
    (
        (&[INT32], 2147483648, &[(INT32, 2)]),
        Some(LengthsDiffer { column: 0 }),
    ),
    // A type that differs comes before a length.
    (
        (&[INT32, INT32], 2, &[(INT32, 1), (INT16, 2)]),
        Some(TypeDiffers { column: 1 }),
    ),
];

const ZEROS: Positions = &[None, Some(&[0, 0, 0, 0, 0, 0, 0, 0])];

fn batch_fault(alloc: Global, parts: Columns) -> Result<Option<BatchFault>, Fail> {
    let (types, rows, columns) = parts;
    let mut fields = Vec::new(alloc);
    for ty in types {
        fields.push(field(alloc, "name", true, DataType::Int(*ty))?)?;
    }
    let mut arrays = Vec::new(alloc);
    for (ty, length) in columns {
        arrays.push(checked(alloc, DataType::Int(*ty), *length, ZEROS)?)?;
    }
    Ok(RecordBatch::new(Schema::new(fields)?, rows, arrays).err())
}

#[test]
fn tells_faults_of_batches(rt: HostRuntime) -> Result<(), Fail> {
    for (parts, fault) in BATCHES {
        assert!(rt; batch_fault(rt.alloc(), *parts)? == *fault, "{parts:?}");
    }
    Ok(())
}

#[test]
fn copies_batches_that_share_a_schema(rt: HostRuntime) -> Result<(), Fail> {
    let alloc = rt.alloc();
    let schema = Arc::new(alloc, Schema::new(Vec::new(alloc))?)?;
    let batch = RecordBatch::under(schema.clone()?, 3, Vec::new(alloc));
    let copy = batch.copy(alloc)?;
    assert!(rt; batch.rows() == 3 && copy.rows() == 3 && copy.columns().is_empty());
    assert!(rt; copy.schema().is_empty() && schema.is_empty());
    Ok(())
}
