//! Which rows of a slice a query looks at.

ghost use Rattle.std.specs.Prelude.{◌≡◌, ◌<◌, ◌+◌, ◌^◌, ℕ, IfOk, IfErr, None, OnOk, Some, filter, length, true};
ghost use Rattle.std.specs.List.{range_with_len};
ghost use Rattle.query.specs.Prelude.{fits, query_shape};
ghost use Rattle.answers.specs.Masks.{set_rows};
ghost use Rattle.answers.specs.Runs.{AreTruths, AreVerdicts, StopsAt, keeps, kept_in};

use crate::mask;
use arrays::{Bools, NoMemory};
use evaluate::filter::evaluate_filter;
use evaluate::slice::Slice;
use evaluate::stop::Stop;
use evaluate::values::Values;
use query::Query;
use std::alloc::Global;

/// What the filter is at each row of a slice, none where there is no filter; or the least row where it is bad.
pub(crate) fn filter_values<'a>(
    alloc: Global,
    query: &'a Query,
    slice: Slice<'a>,
) -> Result<Option<Values<'a>>, Stop>
    requires { fits slice.batch.now.fields (query_shape query.now) ≡ true }
    ensures ok { IfOk result (AreVerdicts slice.entry.batch.now slice.entry.start slice.entry.len (query_shape query.now).filter) }
    ensures err { IfErr result (StopsAt slice.entry.batch.now slice.entry.start slice.entry.len (query_shape query.now).filter) }
{
    evaluate_filter(alloc, query, slice)
}

/// Puts the places of the kept ones of so many rows from the start on in place of what was there.
pub(crate) fn keep_rows(
    kept: &mut Vec<usize>,
    values: &Option<Values<'_>>,
    start: usize,
    len: usize,
) -> Result<(), NoMemory>
    requires truths { AreTruths len values.now }
    requires short { start + len < 2 ^ 40 }
    ensures { OnOk result (kept.new.items ≡ kept_in values.now start len) }
{
    match values {
        Some(values) => {
            kept.clear();
            mask::push_places(&mask_of(values, len), kept, start)
        }
        None => {
            kept.resize(len, 0)?;
            count_up(kept.as_mut_slice(), start);
            Ok(())
        }
    }
}

/// Has places count up from the start on.
fn count_up(places: &mut [usize], start: usize)
    requires { start + length places.old < 2 ^ 40 }
    ensures { places.new ≡ kept_in None start (length places.old) }
{
    for i in 0..places.len() {
        places[i] = start + i;
    }
}

/// How many of so many rows are kept.
pub(crate) fn count_rows(values: &Option<Values<'_>>, len: usize) -> usize
    requires { AreTruths len values.now }
    ensures { (start : ℕ) → result ≡ length (kept_in values.now start len) }
{
    match values {
        Some(values) => mask::count(&mask_of(values, len)),
        None => len,
    }
}

/// Which of so many rows are kept, where the values of the filter are these.
fn mask_of<'a>(values: &'a Values<'_>, len: usize) -> Bools<'a>
    requires { AreTruths len (Some values.now) }
    ensures rows { set_rows result.validity result.values ≡ filter (keeps (Some values.now)) (range_with_len 0 len) }
    ensures size { length result.values ≡ len }
{
    if let Values::Column(column) = values {
        return mask::of(&column.view());
    }
    unreachable!()
}
