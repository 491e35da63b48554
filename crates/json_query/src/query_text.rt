ghost use Rattle.std.specs.Prelude.{◌≡◌, Ok, IfOk, IfErr, option_map, string_bytes};
ghost use Rattle.query.specs.Prelude.{named, renamed, tree_of};
ghost use Rattle.json_base.specs.Prelude.{Tells, view};
ghost use Rattle.json_query.specs.Reading.{MayReport};
ghost use Rattle.json_query.specs.QueryDocument.{ReadsQueryText, filter, query_of};
ghost use Rattle.json_query.specs.QueryDocumentFault.{QueryBytesFault};

use crate::expr::read_expr;
use crate::lists::{read_aggs, read_by};
use json_base::document::parse;
use json_base::member::check_object;
use json_base::{JsonFault, Member, Step, Value};
use query::{Expr, QueryText};
use std::alloc::Global;

/// The filter, none where it is absent or null.
#[tactic(auto, using(crate::proofs::Readings::reading), unfolding(crate::specs::QueryDocument::filter))]
fn read_filter(alloc: Global, object: &Value) -> Result<Option<Expr<String>>, JsonFault>
    ensures ok { IfOk result (λ read.
        filter (view object.now) ≡ Ok (option_map (renamed string_bytes) (option_map tree_of read))) }
    ensures err { IfErr result (Tells (MayReport (filter (view object.now)))) }
{
    let Some(found) = object.get(Member::Filter.name()) else {
        return Ok(None);
    };
    if found.is_null() {
        return Ok(None);
    }
    match read_expr(alloc, found) {
        Ok(expr) => Ok(Some(expr)),
        Err(fault) => Err(fault.under(alloc, Step::Member(Member::Filter))),
    }
}

/// The query of a document.
#[tactic(auto, using(crate::proofs::Readings::reading))]
fn read_document(alloc: Global, document: &Value) -> Result<QueryText, JsonFault>
    ensures ok { IfOk result (λ read. query_of (view document.now) ≡ Ok (named read)) }
    ensures err { IfErr result (Tells (MayReport (query_of (view document.now)))) }
{
    check_object(alloc, document)?;
    let filter = read_filter(alloc, document)?;
    let by = read_by(alloc, document)?;
    let aggs = read_aggs(alloc, document)?;
    Ok(QueryText { filter, by, aggs })
}

/// Reads a query from its JSON text.
///
/// Where several faults stand, which of them is reported is open. It goes down as deep as the text is nested, 127 at most.
#[tactic(auto, using(crate::proofs::QueryReadings::texts))]
pub fn read_query(alloc: Global, bytes: &[u8]) -> Result<QueryText, JsonFault>
    // What is read is what the bytes say.
    ensures ok { IfOk result (λ query. ReadsQueryText bytes.now (named query)) }
    // A fault that is reported stands, want of memory apart.
    ensures err { IfErr result (Tells (QueryBytesFault bytes.now)) }
{
    let document = parse(alloc, bytes)?;
    read_document(alloc, &document)
}
