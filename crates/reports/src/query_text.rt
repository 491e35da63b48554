//! Queries that are read from their texts.
ghost use Rattle.std.specs.Prelude.{IfErr, IfOk};
ghost use Rattle.arrow_json.specs.Prelude.{ReadsQueryText};
ghost use Rattle.table.specs.Prelude.{named};
ghost use Rattle.reports.specs.OrMemory.{OrMemory};
ghost use Rattle.reports.specs.QueryFaults.{IsUnreadQuery};

use crate::run_fault::RunFault;
use arrow_json::{JsonFaultKind, read_query};
use std::alloc::Global;
use table::QueryText;

/// The query that the bytes are read as, or why they aren't.
pub fn read_query_text(alloc: Global, bytes: &[u8]) -> Result<QueryText, RunFault>
    ensures ok { IfOk result (λ query. ReadsQueryText bytes.now (named query)) }
    ensures err { IfErr result (OrMemory (IsUnreadQuery bytes.now)) }
{
    match read_query(alloc, bytes) {
        Ok(query) => Ok(query),
        Err(fault) => match fault.kind {
            JsonFaultKind::NoMemory => Err(RunFault::NoMemory),
            _ => Err(RunFault::QueryUnread(fault)),
        },
    }
}
