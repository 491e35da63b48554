//! The output of `query`.
ghost use Rattle.std.specs.Prelude.{◌≡◌, IfErr, IfOk, Ok, string_bytes, true};
ghost use Rattle.table.specs.Prelude.{IsAnswer, fits, named, query_shape, resolved, rows};
ghost use Rattle.reports.specs.OrMemory.{OrMemory};
ghost use Rattle.reports.specs.Queried.{PrintsGroups};
ghost use Rattle.reports.specs.QueryFaults.{IsUnanswered, IsUnplaced};

use crate::forms::group_lines;
use crate::run_fault::RunFault;
use std::alloc::Global;
use table::{Answer, Query, QueryText, Version, resolve};

/// What `query` prints for a version of the table, whose rows are looked at in one piece and without a thread.
pub fn groups_text(alloc: Global, query: &QueryText, version: &Version) -> Result<String, RunFault>
    ensures output { IfOk result (λ text. PrintsGroups (named query.now) version.now.fields version.now.history (string_bytes text)) }
    ensures err { IfErr result (OrMemory (IsUnanswered (named query.now) version.now.fields version.now.history)) }
{
    let placed = placed_query(alloc, query, version)?;
    let answer = placed_groups(alloc, &placed, version)?;
    Ok(group_lines(alloc, &answer)?)
}

/// The groups of a query by positions, or its fault at a row.
pub fn placed_groups(alloc: Global, query: &Query, version: &Version) -> Result<Answer, RunFault>
    requires fits { fits version.now.fields (query_shape query.now) ≡ true }
    ensures ok { IfOk result (IsAnswer version.now.fields (query_shape query.now) (rows version.now.history)) }
    ensures err { IfErr result (OrMemory (IsUnplaced (query_shape query.now) version.now.fields version.now.history)) }
{
    Ok(version.answer_alone(alloc, query)?)
}

/// The query by positions in the fields of a version, or why there is none.
pub fn placed_query(alloc: Global, query: &QueryText, version: &Version) -> Result<Query, RunFault>
    ensures ok { IfOk result (λ placed. resolved version.now.fields (named query.now) ≡ Ok (query_shape placed)) }
    ensures fits { IfOk result (λ placed. fits version.now.fields (query_shape placed) ≡ true) }
    ensures err { IfErr result (OrMemory (IsUnanswered (named query.now) version.now.fields version.now.history)) }
{
    Ok(resolve(alloc, query, version.schema())?)
}
