//! The objects of aggregates.

ghost use Rattle.std.specs.Prelude.{◌≡◌, Ok, IfOk, IfErr, string_bytes};
ghost use Rattle.query.specs.Resolved.{renamed_agg};
ghost use Rattle.json_base.specs.Prelude.{Tells, view};
ghost use Rattle.json_query.specs.Reading.{MayReport};
ghost use Rattle.json_query.specs.QueryDocument.{agg};

use crate::text::read_text;
use json_base::member::{check_object, text_member, unlike};
use json_base::{JsonFault, Member, Value};
use query::Agg;
use std::alloc::Global;

/// The aggregate that a value spells.
#[tactic(auto, using(crate::proofs::Readings::reading))]
pub(crate) fn read_agg(alloc: Global, value: &Value) -> Result<Agg<String>, JsonFault>
    ensures ok { IfOk result (λ read. agg (view value.now) ≡ Ok (renamed_agg string_bytes read)) }
    ensures err { IfErr result (Tells (MayReport (agg (view value.now)))) }
{
    check_object(alloc, value)?;
    match text_member(alloc, value, Member::Agg)? {
        "rows" => Ok(Agg::Rows),
        "count" => Ok(Agg::Count(read_text(alloc, value, Member::Column)?)),
        "sum" => Ok(Agg::Sum(read_text(alloc, value, Member::Column)?)),
        "least" => Ok(Agg::Least(read_text(alloc, value, Member::Column)?)),
        "greatest" => Ok(Agg::Greatest(read_text(alloc, value, Member::Column)?)),
        _ => Err(unlike(alloc, Member::Agg)),
    }
}
