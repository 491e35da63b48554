//! The texts of a dictionary, as an entry of a file's `dictionaries` has them.

ghost use Rattle.std.specs.Prelude.{◌≡◌, IfOk, IfErr};
ghost use Rattle.arrays.specs.Kind as kind;
ghost use Rattle.json_base.specs.Prelude.{IsObject, Tells, view};
ghost use Rattle.json_read.specs.JsonDictionary.{WrapsTexts, ReadsEntry, ReadsTexts};
ghost use Rattle.json_read.specs.JsonDictionaryFault.{EntryFault, WrapperFault, TextsFault};

use crate::column::{read_texts, single_member};
use crate::schema::only_item;
use arrays::{Array, OffsetWidth, Words};
use json_base::member::{check_object, count_member, required};
use json_base::{JsonFault, JsonFaultKind, Member, Step, Value};
use std::alloc::Global;

/// The texts of a dictionary's batch.
#[tactic(auto, using(crate::proofs::JsonDictionaries::texts_faults))]
fn read_batch_of_texts(alloc: Global, batch: &Value) -> Result<Array, JsonFault>
    ensures kind { IfOk result (λ a. a.kind ≡ kind.utf8) }
    ensures ok { IfOk result (λ a. ReadsTexts (view batch.now) a.items) }
    ensures err { IfErr result (Tells (TextsFault (view batch.now))) }
{
    check_object(alloc, batch)?;
    let rows = count_member(alloc, batch, Member::Count)?;
    let column = single_member(alloc, batch, Member::Columns)?;
    match read_texts(alloc, OffsetWidth::Narrow, rows, column) {
        Ok(texts) => Ok(texts),
        Err(fault) => {
            let item = fault.under(alloc, Step::Item(0));
            Err(item.under(alloc, Step::Member(Member::Columns)))
        }
    }
}

/// The texts of what an entry has as its `data`: a batch, or an array of exactly one.
#[tactic(auto, using(crate::proofs::JsonDictionaries::wrapper_faults))]
fn read_wrapper(alloc: Global, wrapper: &Value) -> Result<Array, JsonFault>
    ensures kind { IfOk result (λ a. a.kind ≡ kind.utf8) }
    ensures ok { IfOk result (λ a. WrapsTexts (view wrapper.now) a.items) }
    ensures err { IfErr result (Tells (WrapperFault (view wrapper.now))) }
{
    if wrapper.is_object() {
        return read_batch_of_texts(alloc, wrapper);
    }
    let Some(batch) = only_item(wrapper) else {
        return Err(JsonFault::at(alloc, JsonFaultKind::WrongMember, &[]));
    };
    match read_batch_of_texts(alloc, batch) {
        Ok(texts) => Ok(texts),
        Err(fault) => Err(fault.under(alloc, Step::Item(0))),
    }
}

/// The texts of a dictionary. Doubles and nulls may stand among them.
#[tactic(auto, using(crate::proofs::JsonDictionaries::entry_faults))]
pub(crate) fn read_entry(alloc: Global, entry: &Value) -> Result<Words, JsonFault>
    requires { IsObject (view entry.now) }
    ensures ok { IfOk result (λ w. ReadsEntry (view entry.now) w.items) }
    ensures err { IfErr result (Tells (EntryFault (view entry.now))) }
{
    let wrapper = required(alloc, entry, Member::Texts)?;
    match read_wrapper(alloc, wrapper) {
        Ok(texts) => Ok(Words::of(texts)),
        Err(fault) => Err(fault.under(alloc, Step::Member(Member::Texts))),
    }
}
