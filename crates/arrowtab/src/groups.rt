//! The output of `query`, over rows that are looked at in several pieces.
ghost use Rattle.std.specs.Prelude.{◌≡◌, ◌≤◌, IfErr, IfOk, map, string_bytes};
ghost use Rattle.table.specs.Prelude.{group_shape, named};
ghost use Rattle.arrowtab.specs.Output.{shown_as};
ghost use Rattle.reports.specs.Prelude.{IsUnanswered, OrMemory, ShowsGroups};

use arrays::NoMemory;
use job::Output;
use reports::{RunFault, group_arrays, group_lines, group_records, placed_query};
use std::alloc::Global;
use std::thread::Threads;
use table::{Answer, OpenGate, QueryText, Version};

/// What `query` prints for a version of the table, whose rows are looked at in so many pieces.
pub(crate) fn groups_text<T: Threads + Sync>(
    threads: &T,
    alloc: Global,
    query: &QueryText,
    output: Output,
    pieces: u32,
    version: &Version,
) -> Result<String, RunFault>
    requires some { 1 ≤ pieces }
    requires most { pieces ≤ 64 }
    ensures output { IfOk result (λ text. ShowsGroups (shown_as output (named query.now)) (named query.now)
        version.now.fields version.now.history (string_bytes text)) }
    ensures err { IfErr result (OrMemory (IsUnanswered (named query.now) version.now.fields version.now.history)) }
{
    let placed = placed_query(alloc, query, version)?;
    let answer = version.answer(threads, alloc, &placed, pieces, &OpenGate)?;
    Ok(answer_text(alloc, query, output, &answer)?)
}

/// The text of an answer to a query, in this form.
fn answer_text(
    alloc: Global,
    query: &QueryText,
    output: Output,
    answer: &Answer,
) -> Result<String, NoMemory>
    ensures { IfOk result (λ text. string_bytes text
        ≡ shown_as output (named query.now) (map group_shape answer.now.groups.items)) }
{
    match output {
        Output::Lines => group_lines(alloc, answer),
        Output::Json => group_arrays(alloc, answer),
        Output::Csv => group_records(alloc, query, answer),
    }
}
