//! Columns of texts recoded into places of a pool.

ghost use Rattle.std.specs.Prelude.{◌≡◌, ◌⊎◌, ◌++◌, false, true, map, OnOk, IfOk, IfErr, OnErr};
ghost use mathlib.Core.List.{IsPrefix};
ghost use Rattle.arrays.specs.Kind as kind;
ghost use Rattle.arrays.specs.Prelude.{int32, is_recodable, is_text, shown};
ghost use Rattle.pool.specs.Codes.{code_item};
ghost use Rattle.pool.specs.Texts.{firsts, texts_of, is_once, is_too_full};

use crate::coded_view::CodedView;
use crate::fault::PoolFault;
use crate::placing::{add_row, no_places};
use crate::text_pool::TextPool;
use arrays::{Array, IntBuilder, IntType, View, Width};
use std::alloc::Global;

/// The places of a column's texts in a pool, to which its new texts are added: null for null. It fails where the
/// pool would be too full, and for want of memory; then the pool is as it was. Of a dictionary with no more entries
/// than there are rows, an entry's text is looked up where a row names it first.
///
/// In a pool without texts `["b", "a", null, "b"]` has the codes `[0, 1, null, 0]`, and the pool then holds `"b"` and `"a"`.
#[tactic(auto, using(crate::proofs::PrefixLemmas::prefix_length, crate::proofs::PrefixLemmas::prefix_take))]
pub fn recode(alloc: Global, view: &View<'_>, pool: &mut TextPool) -> Result<Array, PoolFault>
    requires { is_recodable view.now.kind ≡ true }
    ensures texts { OnOk result (pool.new ≡ firsts (pool.old ++ texts_of view.now.items)) }
    ensures fits { OnOk result (is_too_full (firsts (pool.old ++ texts_of view.now.items)) ≡ false) }
    ensures kind { IfOk result (λ a. a.kind ≡ kind.int int32) }
    ensures codes { IfOk result (λ a. a.items ≡ map (code_item pool.new) view.now.items) }
    ensures whole { IfOk result (λ a. a ≡ shown (kind.int int32) (map (code_item pool.new) view.now.items)) }
    ensures err { IfErr result (λ e. ((e ≡ PoolFault.TextsFull)
        × (is_too_full (firsts (pool.old ++ texts_of view.now.items)) ≡ true)) ⊎ (e ≡ PoolFault.NoMemory)) }
    ensures kept { OnErr result (pool.new ≡ pool.old) }
    ensures begins { IsPrefix pool.old pool.new }
{
    let len = pool.len();
    let codes = add_all(alloc, view, pool);
    if codes.is_err() {
        pool.cut_back(len);
    }
    codes
}

/// The same, but the pool keeps what was added where it fails.
fn add_all(alloc: Global, view: &View<'_>, pool: &mut TextPool) -> Result<Array, PoolFault>
    requires text { is_text view.now.kind ≡ true }
    requires once { is_once pool.old ≡ true }
    requires fits { is_too_full pool.old ≡ false }
    ensures texts { OnOk result (pool.new ≡ firsts (pool.old ++ texts_of view.now.items)) }
    ensures fits { OnOk result (is_too_full (firsts (pool.old ++ texts_of view.now.items)) ≡ false) }
    ensures kind { IfOk result (λ a. a.kind ≡ kind.int int32) }
    ensures codes { IfOk result (λ a. a.items ≡ map (code_item pool.new) view.now.items) }
    ensures whole { IfOk result (λ a. a ≡ shown (kind.int int32) (map (code_item pool.new) view.now.items)) }
    ensures err { IfErr result (λ e. ((e ≡ PoolFault.TextsFull)
        × (is_too_full (firsts (pool.old ++ texts_of view.now.items)) ≡ true)) ⊎ (e ≡ PoolFault.NoMemory)) }
    ensures begins { IsPrefix pool.old pool.new }
{
    let ty = IntType {
        bits: Width::W32,
        signed: true,
    };
    let slots = view.slots() as usize;
    let mut codes = IntBuilder::with_capacity(alloc, ty, slots)?;
    let coded = CodedView::of(view);
    let mut known = no_places(alloc, view)?;
    for i in 0..slots {
        let place = add_row(view, &coded, i, &mut known, pool)?;
        codes.push_as::<i32>(place.map(i128::from))?;
    }
    Ok(codes.finish()?)
}
