//! What a query answers, as a table.
ghost use Rattle.std.specs.Prelude.{◌≡◌, IfErr, IfOk, map};
ghost use Rattle.embed.specs.Answer.{IsAnswerTable, IsNamedAnswer, StopsAnswer, of_batch};
ghost use Rattle.table.specs.Prelude.{group_shape, named, query_shape};
ghost use Rattle.reports.specs.Prelude.{IsUnanswered, OrMemory, column_names};
ghost use Rattle.results.specs.Prelude.{result_batch, result_types};

use arrays::{NoMemory, RecordBatch};
use reports::{RunFault, column_names, placed_groups, placed_query, read_query_text};
use results::{result_batch, result_types};
use std::alloc::Global;
use table::{Answer, Query, QueryText, TableState, Version};

/// The table of the groups that a query of these bytes asks of a version.
pub(crate) fn answer_table(
    alloc: Global,
    query_text: &[u8],
    version: &Version,
) -> Result<TableState, RunFault>
    ensures ok { IfOk result (IsAnswerTable query_text.now version.now.fields version.now.history) }
    ensures err { IfErr result (OrMemory (StopsAnswer query_text.now version.now.fields version.now.history)) }
{
    let read = read_query_text(alloc, query_text)?;
    named_table(alloc, &read, version)
}

/// The same for a query that was read.
fn named_table(alloc: Global, query: &QueryText, version: &Version) -> Result<TableState, RunFault>
    ensures ok { IfOk result (IsNamedAnswer (named query.now) version.now.fields version.now.history) }
    ensures err { IfErr result (OrMemory (IsUnanswered (named query.now) version.now.fields version.now.history)) }
{
    let placed = placed_query(alloc, query, version)?;
    let answer = placed_groups(alloc, &placed, version)?;
    let batch = answer_batch(alloc, query, version, &placed, &answer)?;
    Ok(table_of(alloc, &batch)?)
}

/// A row for each group of the answer over a version, under what the query names its columns.
fn answer_batch(
    alloc: Global,
    query: &QueryText,
    version: &Version,
    placed: &Query,
    answer: &Answer,
) -> Result<RecordBatch, NoMemory>
    ensures { IfOk result (λ b. b ≡ result_batch (column_names (named query.now)) (result_types version.now.fields (query_shape placed.now)) (map group_shape answer.now.groups.items)) }
{
    let names = column_names(alloc, query)?;
    let types = result_types(alloc, version.schema(), placed)?;
    result_batch(alloc, &names, &types, answer)
}

/// A table of one batch, of worker 0. Nothing stands against the batch of an answer but want of memory.
fn table_of(alloc: Global, batch: &RecordBatch) -> Result<TableState, NoMemory>
    ensures { IfOk result (λ t. t ≡ of_batch batch.now) }
{
    let schema = batch.schema().copy(alloc)?;
    let mut table = TableState::new(alloc, schema)?;
    match table.admit(0, batch) {
        Ok(_) => Ok(table),
        Err(_) => Err(NoMemory),
    }
}
