//! How faults are printed.

use arrays::{BatchFault, BuildFault, LayoutFault, SchemaFault};
use kernels::KernelFault;
use pool::PoolFault;
use select::SelectFault;
use std::alloc::Global;
use std::fmt::Display;
use std::process::Abort;
use std::test::Fail;

/// Asserts that each of these faults is printed as the text beside it.
fn assert_printed<E: Display>(
    rt: &impl Abort,
    alloc: Global,
    faults: &[(E, &str)],
) -> Result<(), Fail> {
    for (fault, text) in faults {
        let printed = format!(in alloc; "{fault}")?;
        assert_eq!(rt; printed.as_str(), *text);
    }
    Ok(())
}

const LAYOUT_FAULTS: &[(LayoutFault, &str)] = &[
    (LayoutFault::MissingBuffer, "V1 MissingBuffer"),
    (LayoutFault::ExtraBuffer, "V2 ExtraBuffer"),
    (LayoutFault::BufferTooShort, "V3 BufferTooShort"),
    (LayoutFault::OffsetNegative, "V4 OffsetNegative"),
    (
        LayoutFault::OffsetDecreases { row: 7 },
        "V5 OffsetDecreases row=7",
    ),
    (LayoutFault::OffsetPastEnd, "V6 OffsetPastEnd"),
    (LayoutFault::NullCountDiffers, "V7 NullCountDiffers"),
    (LayoutFault::NotUtf8 { row: 0 }, "V8 NotUtf8 row=0"),
    (
        LayoutFault::IndexPastDictionary { row: 12 },
        "V9 IndexPastDictionary row=12",
    ),
    (LayoutFault::ChildDiffers, "V10 ChildDiffers"),
    (LayoutFault::TooLong, "V11 TooLong"),
    (LayoutFault::TooDeep, "V12 TooDeep"),
    (LayoutFault::NoMemory, "V13 NoMemory"),
];

const SCHEMA_FAULTS: &[(SchemaFault, &str)] = &[
    (SchemaFault::TooDeep { column: 3 }, "C1 TooDeep column=3"),
    (
        SchemaFault::DictInList { column: 0 },
        "C2 DictInList column=0",
    ),
];

const BATCH_FAULTS: &[(BatchFault, &str)] = &[
    (
        BatchFault::LengthsDiffer { column: 2 },
        "B1 LengthsDiffer column=2",
    ),
    (
        BatchFault::TypeDiffers { column: 10 },
        "B2 TypeDiffers column=10",
    ),
    (BatchFault::ColumnCount, "B3 ColumnCount"),
];

const BUILD_FAULTS: &[(BuildFault, &str)] = &[
    (BuildFault::OffsetsFull, "the offsets are full"),
    (BuildFault::NoMemory, "no memory"),
];

const KERNEL_FAULTS: &[(KernelFault, &str)] = &[
    (KernelFault::TypesDiffer, "K1 TypesDiffer"),
    (KernelFault::LengthsDiffer, "K2 LengthsDiffer"),
    (KernelFault::Overflow { row: 7 }, "K3 Overflow row=7"),
    (KernelFault::NoMemory, "K4 NoMemory"),
];

const SELECT_FAULTS: &[(SelectFault, &str)] = &[
    (
        SelectFault::IndexOutOfRange { row: 12 },
        "S1 IndexOutOfRange row=12",
    ),
    (SelectFault::LengthsDiffer, "S2 LengthsDiffer"),
    (SelectFault::TypesDiffer, "S3 TypesDiffer"),
    (SelectFault::OffsetsFull, "S4 OffsetsFull"),
    (SelectFault::WrongKind, "S5 WrongKind"),
    (SelectFault::NoMemory, "S6 NoMemory"),
];

const POOL_FAULTS: &[(PoolFault, &str)] = &[
    (PoolFault::TextsFull, "P1 TextsFull"),
    (PoolFault::NoMemory, "P2 NoMemory"),
];

#[test]
fn prints_each_fault(rt: HostRuntime) -> Result<(), Fail> {
    assert_printed(&rt, rt.alloc(), LAYOUT_FAULTS)?;
    assert_printed(&rt, rt.alloc(), SCHEMA_FAULTS)?;
    assert_printed(&rt, rt.alloc(), BATCH_FAULTS)?;
    assert_printed(&rt, rt.alloc(), BUILD_FAULTS)?;
    assert_printed(&rt, rt.alloc(), KERNEL_FAULTS)?;
    assert_printed(&rt, rt.alloc(), SELECT_FAULTS)?;
    assert_printed(&rt, rt.alloc(), POOL_FAULTS)
}
