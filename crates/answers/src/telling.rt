//! The groups as they are answered.

ghost use Rattle.std.specs.Prelude.{◌≡◌, ◌-◌, ◌<◌, ◌≤◌, All, IfOk, length, map};
ghost use Rattle.std.specs.Thread.{IsSync};
ghost use Rattle.group.specs.Scalars.{item_of_scalar};
ghost use Rattle.answers.specs.Answers.{group_shape};
ghost use Rattle.tallies.specs.Columns.{show_column, cell_of_group};
ghost use Rattle.answers.specs.Grouping.{IsFull, groups_from};

use crate::grouping::Grouping;
use crate::groups::Group;
use crate::shares::{back_of, share_of};
use arrays::NoMemory;
use group::Scalar;
use std::alloc::Global;
use std::thread::{Threads, join};
use tallies::TallyColumn;

/// How many groups are made before others are made beside them.
const FEW_GROUPS: usize = 4096;

/// The groups from one up to another: of each its key, and its aggregates. Many are made in so many parts, side by side.
#[cycle(telling)]
pub(crate) fn tell_groups<T: Threads + Sync>(
    threads: &T,
    alloc: Global,
    grouping: &Grouping<'_>,
    from: usize,
    to: usize,
    parts: u32,
) -> Result<Vec<Group>, NoMemory>
    requires order { from ≤ to }
    requires within { to ≤ length grouping.now.keys }
    requires full { IsFull grouping.now }
    ensures { IfOk result (λ v. map group_shape v.items ≡ groups_from grouping.now from (to - from)) }
{
    let count = to - from;
    if count <= FEW_GROUPS || parts <= 1 {
        return tell_in_turn(alloc, grouping, from, to);
    }
    let fewer = back_of(parts);
    let more = parts - fewer;
    let middle = to - share_of(count, parts);
    let front = move || -> Result<Vec<Group>, NoMemory>
        requires { IsSync T.row × (from ≤ middle) × (middle ≤ length grouping.now.keys) × IsFull grouping.now }
        ensures { IfOk result (λ v. map group_shape v.items ≡ groups_from grouping.entry.now from (middle - from)) }
    { tell_groups(threads, alloc, grouping, from, middle, more) };
    let back = move || -> Result<Vec<Group>, NoMemory>
        requires { IsSync T.row × (middle ≤ to) × (to ≤ length grouping.now.keys) × IsFull grouping.now }
        ensures { IfOk result (λ v. map group_shape v.items ≡ groups_from grouping.entry.now middle (to - middle)) }
    { tell_groups(threads, alloc, grouping, middle, to, fewer) };
    let (late, early) = join(threads, back, front);
    let mut groups = early?;
    groups.append(&mut late?)?;
    Ok(groups)
}

/// The same, one after the other.
pub(crate) fn tell_in_turn(
    alloc: Global,
    grouping: &Grouping<'_>,
    from: usize,
    to: usize,
) -> Result<Vec<Group>, NoMemory>
    requires order { from ≤ to }
    requires within { to ≤ length grouping.now.keys }
    requires full { IsFull grouping.now }
    ensures { IfOk result (λ v. map group_shape v.items ≡ groups_from grouping.now from (to - from)) }
{
    let mut groups = Vec::with_capacity(alloc, to - from)?;
    for id in from..to {
        let keys = grouping.keys.key_at(alloc, id)?;
        let cells = tell_all(alloc, &grouping.columns, id)?;
        groups.push(Group { keys, cells })?;
    }
    Ok(groups)
}

/// What the columns tell of a group; none is null.
fn tell_all(
    alloc: Global,
    columns: &[TallyColumn],
    group: usize,
) -> Result<Vec<Option<Scalar>>, NoMemory>
    requires { All (λ c. group < length (show_column c).tallies) columns.now }
    ensures { IfOk result (λ v. map item_of_scalar v.items ≡ map (cell_of_group group) (map show_column columns.now)) }
{
    let mut cells = Vec::with_capacity(alloc, columns.len())?;
    for column in columns {
        cells.push(column.tell(alloc, group)?)?;
    }
    Ok(cells)
}
