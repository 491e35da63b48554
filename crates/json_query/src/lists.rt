//! The parts of a query that are lists.

ghost use Rattle.std.specs.Prelude.{◌≡◌, [], Ok, IfOk, IfErr, map, string_bytes};
ghost use Rattle.query.specs.Resolved.{renamed_agg};
ghost use Rattle.json_base.specs.Prelude.{Tells, as_str, items_view, view};
ghost use Rattle.json_base.specs.declared.fault.JsonFaultKind.TheVariants.{WrongMember};
ghost use Rattle.json_query.specs.Reading.{MayReport, each_item, wanted};
ghost use Rattle.json_query.specs.QueryDocument.{agg, aggs, by, key_names, list_in};

use crate::agg::read_agg;
use arrayvec::ArrayVec;
use json_base::member::{owned, push, unlike};
use json_base::{JsonFault, JsonFaultKind, Member, Step, Value};
use query::Agg;
use std::alloc::Global;

/// How many columns make a key at most.
const MOST_NAMES: usize = 4;

/// The items of an array that may be absent: then there are none.
#[tactic(auto, using(crate::proofs::Readings::reading), unfolding(crate::specs::QueryDocument::list_in))]
fn listed(alloc: Global, object: &Value, member: Member) -> Result<&[Value], JsonFault>
    ensures ok { IfOk result (λ items. list_in member (view object.now) ≡ Ok (items_view items.now)) }
    ensures err { IfErr result (Tells (MayReport (list_in member (view object.now)))) }
{
    let Some(found) = object.get(member.name()) else {
        return Ok(&[]);
    };
    match found.as_array() {
        Some(items) => Ok(items.as_slice()),
        None => Err(unlike(alloc, member)),
    }
}

/// The name that a value is.
#[tactic(auto, using(crate::proofs::Readings::reading))]
fn read_name(alloc: Global, value: &Value) -> Result<String, JsonFault>
    ensures ok { IfOk result (λ name. wanted WrongMember [] (as_str (view value.now)) ≡ Ok (string_bytes name)) }
    ensures err { IfErr result (Tells (MayReport (wanted WrongMember [] (as_str (view value.now))))) }
{
    match value.as_str() {
        Some(name) => owned(alloc, name),
        None => Err(JsonFault::at(alloc, JsonFaultKind::WrongMember, &[])),
    }
}

/// The names that the values are, no more than make a key.
#[tactic(auto, using(crate::proofs::Readings::loops), unfolding(crate::specs::QueryDocument::key_names))]
fn read_names(
    alloc: Global,
    values: &[Value],
) -> Result<ArrayVec<String, MOST_NAMES, Global>, JsonFault>
    ensures ok { IfOk result (λ names. key_names (items_view values.now) ≡ Ok (map string_bytes names.items)) }
    ensures err { IfErr result (Tells (MayReport (key_names (items_view values.now)))) }
{
    if values.len() > MOST_NAMES {
        return Err(JsonFault::at(alloc, JsonFaultKind::WrongMember, &[]));
    }
    let mut names = ArrayVec::new_in(alloc);
    for (index, value) in values.iter().enumerate() {
        match read_name(alloc, value) {
            Ok(name) => names.push(name),
            Err(fault) => return Err(fault.under(alloc, Step::Item(index))),
        }
    }
    Ok(names)
}

/// The columns whose items are the key of a group.
#[tactic(auto, using(crate::proofs::Readings::reading), unfolding(crate::specs::QueryDocument::by))]
pub(crate) fn read_by(
    alloc: Global,
    object: &Value,
) -> Result<ArrayVec<String, MOST_NAMES, Global>, JsonFault>
    ensures ok { IfOk result (λ read. by (view object.now) ≡ Ok (map string_bytes read.items)) }
    ensures err { IfErr result (Tells (MayReport (by (view object.now)))) }
{
    let values = listed(alloc, object, Member::By)?;
    match read_names(alloc, values) {
        Ok(names) => Ok(names),
        Err(fault) => Err(fault.under(alloc, Step::Member(Member::By))),
    }
}

/// The aggregates that the values spell.
#[tactic(auto, using(crate::proofs::Readings::loops))]
fn read_all(alloc: Global, values: &[Value]) -> Result<Vec<Agg<String>>, JsonFault>
    ensures ok { IfOk result (λ aggs.
        each_item agg (items_view values.now) ≡ Ok (map (renamed_agg string_bytes) aggs.items)) }
    ensures err { IfErr result (Tells (MayReport (each_item agg (items_view values.now)))) }
{
    let mut aggs = Vec::new(alloc);
    for (index, value) in values.iter().enumerate() {
        match read_agg(alloc, value) {
            Ok(agg) => push(alloc, &mut aggs, agg)?,
            Err(fault) => return Err(fault.under(alloc, Step::Item(index))),
        }
    }
    Ok(aggs)
}

/// The aggregates of each group.
#[tactic(auto, using(crate::proofs::Readings::reading), unfolding(crate::specs::QueryDocument::aggs))]
pub(crate) fn read_aggs(alloc: Global, object: &Value) -> Result<Vec<Agg<String>>, JsonFault>
    ensures ok { IfOk result (λ read. aggs (view object.now) ≡ Ok (map (renamed_agg string_bytes) read.items)) }
    ensures err { IfErr result (Tells (MayReport (aggs (view object.now)))) }
{
    let values = listed(alloc, object, Member::Aggs)?;
    match read_all(alloc, values) {
        Ok(aggs) => Ok(aggs),
        Err(fault) => Err(fault.under(alloc, Step::Member(Member::Aggs))),
    }
}
