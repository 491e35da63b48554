//! Queries as texts, over what a table holds.

ghost use Rattle.std.specs.Prelude.{◌≡◌, IfErr, IfOk, true};
ghost use Rattle.shared.specs.Prelude.{fits, query_shape, rows};
ghost use Rattle.selqumar_core.specs.Asked.{IsAsked, ReadsPlaced, IsUnasked};

use crate::fault::Fault;
use arrow_json::{JsonFaultKind, read_query};
use shared::{Answer, OpenGate, Query, QueryFault, Version, resolve};
use std::alloc::Global;
use std::thread::Threads;

/// On how many threads the rows are looked at, at most.
const PIECES: u32 = 4;

/// What a query answers over all rows of a version: its text is read, its names are looked up among the version's columns, and the
/// rows are looked at on up to four threads.
///
/// # Errors
/// `Unread` where the text is no query; `Query` where it names what isn't there, or a part of its filter is outside its type at a
/// row; `NoMemory` where a growth was refused.
pub fn ask<T: Threads + Sync>(
    threads: &T,
    alloc: Global,
    version: &Version,
    text: &str,
) -> Result<Answer, Fault>
    ensures ok { IfOk result (IsAsked text.now version.now.fields (rows version.now.history)) }
    ensures err { IfErr result (IsUnasked text.now version.now.fields (rows version.now.history)) }
{
    match placed(alloc, version, text) {
        Ok(query) => match version.answer(threads, alloc, &query, PIECES, &OpenGate) {
            Ok(answer) => Ok(answer),
            Err(fault) => match fault {
                QueryFault::NoMemory => Err(Fault::NoMemory),
                _ => Err(Fault::Query(fault)),
            },
        },
        Err(fault) => Err(fault),
    }
}

/// The query that a text is, by the positions of the version's columns.
fn placed(alloc: Global, version: &Version, text: &str) -> Result<Query, Fault>
    ensures ok { IfOk result (λ q. ReadsPlaced text.now version.now.fields (query_shape q)) }
    ensures fits { IfOk result (λ q. fits version.now.fields (query_shape q) ≡ true) }
    ensures err { IfErr result (IsUnasked text.now version.now.fields (rows version.now.history)) }
{
    match read_query(alloc, text.as_bytes()) {
        Ok(query) => match resolve(alloc, &query, version.schema()) {
            Ok(placed) => Ok(placed),
            Err(fault) => match fault {
                QueryFault::NoMemory => Err(Fault::NoMemory),
                _ => Err(Fault::Query(fault)),
            },
        },
        Err(fault) => match fault.kind {
            JsonFaultKind::NoMemory => Err(Fault::NoMemory),
            _ => Err(Fault::Unread(fault)),
        },
    }
}
