//! The statistics of columns side by side.

ghost use Rattle.std.specs.Prelude.{◌≡◌, ◌+◌, ◌^◌, ◌≤◌, IfOk, length};
ghost use Rattle.std.specs.List.{AllZip};
ghost use Rattle.group.specs.StatsOfColumns.{AreJoined, AreTheirs};

use crate::join::joined;
use crate::slots::stats_of;
use crate::stats::ColumnStats;
use arrays::{Array, NoMemory};
use std::alloc::Global;

/// The statistics of each column.
pub fn stats_of_all(alloc: Global, columns: &[Array]) -> Result<Vec<ColumnStats>, NoMemory>
    ensures { IfOk result (λ v. AreTheirs columns.now v.items) }
{
    let mut stats = Vec::with_capacity(alloc, columns.len())?;
    for column in columns {
        stats.push(stats_of(alloc, &column.view())?)?;
    }
    Ok(stats)
}

/// The statistics of columns with other columns behind them, each behind that at its place.
pub fn joined_all(
    alloc: Global,
    stats: &[ColumnStats],
    others: &[ColumnStats],
) -> Result<Vec<ColumnStats>, NoMemory>
    requires count { length others.now ≡ length stats.now }
    requires few { AllZip (λ a b. a.rows + b.rows ≤ 2 ^ 40) stats.now others.now }
    ensures { IfOk result (λ v. AreJoined stats.now others.now v.items) }
{
    let mut all = Vec::with_capacity(alloc, stats.len())?;
    for k in 0..stats.len() {
        all.push(joined(alloc, &stats[k], &others[k])?)?;
    }
    Ok(all)
}
