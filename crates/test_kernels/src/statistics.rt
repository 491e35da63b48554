use group::{ColumnStats, joined, stats_of};
use std::alloc::Global;
use std::process::Abort;
use std::test::Fail;
use test_samples::Sample::{self, Coded, Lists, ListsOfLists, Of, Texts};
use test_samples::{Flat, INT8, INT16, NAMES, UINT64, WIDTHS, Widths, built, sampled_at};

/// Asserts how statistics are printed.
fn expect(rt: &impl Abort, alloc: Global, stats: &ColumnStats, wanted: &str) -> Result<(), Fail> {
    let reported = format!(in alloc; "{stats:?}")?;
    assert!(rt; reported.as_str() == wanted, "{reported} for {wanted}");
    Ok(())
}

/// The statistics of no slots: of a column of numbers, and of another.
const OF_NO_NUMBERS: &str =
    r#"ColumnStats { rows: 0, nulls: 0, sum: Some(0), least: None, greatest: None }"#;

const OF_NOTHING: &str =
    r#"ColumnStats { rows: 0, nulls: 0, sum: None, least: None, greatest: None }"#;

/// Columns, their statistics, and those of no slots of their type.
static TOLD: [(Sample, &str, &str); 8] = [
    // The sum is wider than the numbers.
    (
        Of((Flat::Int(UINT64), 2, &[None, Some(&[255; 16])])),
        r#"ColumnStats { rows: 2, nulls: 0, sum: Some(36893488147419103230), least: Some(Int(18446744073709551615)), greatest: Some(Int(18446744073709551615)) }"#,
        OF_NO_NUMBERS,
    ),
    (
        Of((Flat::Int(INT16), 0, &[None, Some(&[])])),
        r#"ColumnStats { rows: 0, nulls: 0, sum: Some(0), least: None, greatest: None }"#,
        OF_NO_NUMBERS,
    ),
    (
        Of((Flat::Int(INT8), 3, &[Some(&[0b110]), Some(&[127, 5, 251])])),
        r#"ColumnStats { rows: 3, nulls: 1, sum: Some(0), least: Some(Int(-5)), greatest: Some(Int(5)) }"#,
        OF_NO_NUMBERS,
    ),
    // True, null and false.
    (
        Of((Flat::Bool, 3, &[Some(&[0b101]), Some(&[0b011])])),
        r#"ColumnStats { rows: 3, nulls: 1, sum: None, least: Some(Bool(false)), greatest: Some(Bool(true)) }"#,
        OF_NOTHING,
    ),
    (
        Texts(NAMES),
        r#"ColumnStats { rows: 4, nulls: 2, sum: None, least: Some(Text("joe")), greatest: Some(Text("mark")) }"#,
        OF_NOTHING,
    ),
    // An entry that is null counts as a null.
    (
        Coded,
        r#"ColumnStats { rows: 5, nulls: 2, sum: None, least: Some(Text("a")), greatest: Some(Text("b")) }"#,
        OF_NOTHING,
    ),
    (
        Lists,
        r#"ColumnStats { rows: 4, nulls: 1, sum: None, least: None, greatest: None }"#,
        OF_NOTHING,
    ),
    (
        ListsOfLists,
        r#"ColumnStats { rows: 3, nulls: 1, sum: None, least: None, greatest: None }"#,
        OF_NOTHING,
    ),
];

/// Asserts the statistics of columns whose offsets are of these widths.
fn expect_at(rt: &impl Abort, alloc: Global, widths: Widths) -> Result<(), Fail> {
    for (sample, wanted, empty) in TOLD {
        let column = sampled_at(alloc, widths, sample)?;
        let stats = stats_of(alloc, &column.view())?;
        expect(rt, alloc, &stats, wanted)?;
        let copy = stats.copy(alloc)?;
        expect(rt, alloc, &copy, wanted)?;
        let stats = ColumnStats::empty(column.view().ty());
        expect(rt, alloc, &stats, empty)?;
    }
    Ok(())
}

#[test]
fn columns_have_statistics(rt: HostRuntime) -> Result<(), Fail> {
    for widths in WIDTHS {
        expect_at(&rt, rt.alloc(), widths)?;
    }
    Ok(())
}

#[test]
fn nulls_alone_have_statistics(rt: HostRuntime) -> Result<(), Fail> {
    let nulls = built(
        rt.alloc(),
        (Flat::Int(INT8), 3, &[Some(&[0]), Some(&[7, 7, 7])]),
    )?;
    let wanted = r#"ColumnStats { rows: 3, nulls: 3, sum: Some(0), least: None, greatest: None }"#;
    let stats = stats_of(rt.alloc(), &nulls.view())?;
    expect(&rt, rt.alloc(), &stats, wanted)?;
    let stats = ColumnStats::all_null(nulls.view().ty(), 3);
    expect(&rt, rt.alloc(), &stats, wanted)
}

#[test]
fn none_is_no_number(rt: HostRuntime) -> Result<(), Fail> {
    let null = built(rt.alloc(), (Flat::Int(INT8), 1, &[Some(&[0]), Some(&[7])]))?;
    let minus_5 = built(rt.alloc(), (Flat::Int(INT8), 1, &[None, Some(&[251])]))?;
    let a = stats_of(rt.alloc(), &null.view())?;
    let b = stats_of(rt.alloc(), &minus_5.view())?;
    assert!(rt; a.rows <= 10 && b.rows <= 10);
    let both = joined(rt.alloc(), &a, &b)?;
    let wanted =
        r#"ColumnStats { rows: 2, nulls: 1, sum: Some(-5), least: Some(Int(-5)), greatest: Some(Int(-5)) }"#;
    expect(&rt, rt.alloc(), &both, wanted)?;
    let both = joined(rt.alloc(), &b, &a)?;
    expect(&rt, rt.alloc(), &both, wanted)
}
