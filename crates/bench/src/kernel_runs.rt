//! `bench kernels KERNEL ROWS TIMES` makes two columns of so many rows, runs a kernel on them so many times, and prints how many
//! slots of the last result are null. KERNEL is one of `EACH`.

use crate::fault::Fault;
use crate::making::{Nulls, Rule, digits, longs, shorts, truths};
use crate::{number, word};
use arrays::{Array, DataType, INT32, OffsetWidth, View, ViewType};
use kernels::{CmpOp, add, add_number, compare, compare_number, kleene_and};
use pool::{TextPool, recode};
use select::{filter, take};
use std::alloc::Global;

/// A kernel, and the columns that it is run on.
#[derive(Clone, Copy)]
enum Kernel {
    /// `add` of numbers of 64 bits.
    Add,
    /// `compare` of the same, by `Lt`.
    Less,
    /// `compare` of texts, by `Eq`.
    Equal,
    /// `kleene_and`.
    And,
    /// `filter` of numbers of 64 bits.
    Filter,
    /// `take` of numbers of 32 bits.
    Take,
    /// `take` of texts.
    TakeTexts,
    /// `recode` of texts of which a thousand differ, into an empty pool. The second column is of no use.
    RecodeFew,
    /// `recode` of texts of which 200,000 differ.
    RecodeMany,
    /// `add_number` of numbers of 64 bits and 1. The second column is of no use.
    AddNumber,
    /// `compare_number` of the same, by `Gt` and 5.
    GreaterNumber,
}

/// All kernels, by their names.
const EACH: [(&str, Kernel); 11] = [
    ("add", Kernel::Add),
    ("less", Kernel::Less),
    ("equal", Kernel::Equal),
    ("and", Kernel::And),
    ("filter", Kernel::Filter),
    ("take", Kernel::Take),
    ("take-texts", Kernel::TakeTexts),
    ("recode-few", Kernel::RecodeFew),
    ("recode-many", Kernel::RecodeMany),
    ("add-number", Kernel::AddNumber),
    ("greater-number", Kernel::GreaterNumber),
];

/// Runs the kernel that the words ask for.
pub(crate) fn run(rt: &HostRuntime, words: &[String]) -> Result<(), Fault> {
    let name = word(words, 0)?;
    for (own, kernel) in EACH {
        if own == name {
            return tell(rt, kernel, number(words, 1)?, number(words, 2)?);
        }
    }
    Err(Fault::Arguments)
}

/// Runs each once, on few rows.
pub(crate) fn run_each(rt: &HostRuntime) -> Result<(), Fault> {
    for (_name, kernel) in EACH {
        tell(rt, kernel, 1000, 1)?;
    }
    Ok(())
}

// Runs a kernel so many times, and prints how many slots of the last result are null, 0 where there is none.
fn tell(rt: &HostRuntime, kernel: Kernel, count: u32, times: u32) -> Result<(), Fault> {
    match nulls_after(rt.alloc(), kernel, count, times) {
        Some(nulls) => println!(rt; "{nulls}").or(Err(Fault::Output)),
        None => Err(Fault::Memory),
    }
}

// How many slots of the last result are null.
fn nulls_after(alloc: Global, kernel: Kernel, count: u32, times: u32) -> Option<usize> {
    let (a, b) = (first(alloc, kernel, count)?, second(alloc, kernel, count)?);
    let mut nulls = 0;
    for _ in 0..times {
        nulls = result(alloc, kernel, &a.view(), &b.view())?
            .view()
            .null_count();
    }
    Some(nulls)
}

// The first column.
fn first(alloc: Global, kernel: Kernel, count: u32) -> Option<Array> {
    let (nulls, all) = (Nulls::Sparse(3), Rule::Spread(3, 0));
    match kernel {
        Kernel::Equal | Kernel::TakeTexts => digits(alloc, count, nulls, Rule::Pairs(1, 1_000_000)),
        Kernel::And => truths(alloc, count, nulls, all),
        Kernel::Take => shorts(alloc, DataType::Int(INT32), count, nulls, all),
        Kernel::RecodeFew => digits(alloc, count, nulls, Rule::Spread(3, 1_000)),
        Kernel::RecodeMany => digits(alloc, count, nulls, Rule::Spread(3, 200_000)),
        _ => longs(alloc, count, nulls, all),
    }
}

// The second.
fn second(alloc: Global, kernel: Kernel, count: u32) -> Option<Array> {
    let (nulls, all) = (Nulls::Sparse(8), Rule::Spread(8, 0));
    match kernel {
        Kernel::Add | Kernel::Less => longs(alloc, count, nulls, all),
        Kernel::Equal => digits(alloc, count, nulls, Rule::Pairs(0, 1_000_000)),
        Kernel::And | Kernel::Filter => truths(alloc, count, nulls, all),
        Kernel::Take | Kernel::TakeTexts => {
            let ty = DataType::Int(INT32);
            shorts(alloc, ty, count, Nulls::Never, Rule::Spread(0, count))
        }
        _ => truths(alloc, 0, nulls, all),
    }
}

// The result, none where the kernel refused.
fn result(alloc: Global, kernel: Kernel, a: &View<'_>, b: &View<'_>) -> Option<Array> {
    match kernel {
        Kernel::Add => add(alloc, a, b).ok(),
        Kernel::Less => compare(alloc, CmpOp::Lt, a, b).ok(),
        Kernel::Equal => compare(alloc, CmpOp::Eq, a, b).ok(),
        Kernel::And => kleene_and(alloc, a, b).ok(),
        Kernel::Filter => filter(alloc, a, b).ok(),
        Kernel::Take | Kernel::TakeTexts => take(alloc, a, b).ok(),
        Kernel::RecodeFew | Kernel::RecodeMany => recoded(alloc, a),
        Kernel::AddNumber => add_number(alloc, a, 1).ok(),
        Kernel::GreaterNumber => compare_number(alloc, CmpOp::Gt, a, 5).ok(),
    }
}

// The places of texts in a pool of their own, none where they aren't texts or the pool refused.
fn recoded(alloc: Global, view: &View<'_>) -> Option<Array> {
    let ViewType::Text(OffsetWidth::Narrow) = view.ty() else {
        return None;
    };
    recode(alloc, view, &mut TextPool::new(alloc)).ok()
}
