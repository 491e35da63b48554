//! The place in a pool of a row's text, by what is remembered of a dictionary's entries.

ghost use Rattle.std.specs.Prelude.{◌≡◌, ◌<◌, ℕ, List, false, true, length, slice_index_or, IfErr, IfOk, IfSome, OnErr, OnOk};
ghost use Rattle.arrays.specs.Prelude.{Seen, is_text, null};
ghost use Rattle.pool.specs.Places.{AreKnown, IsPlaced, with_item};
ghost use Rattle.pool.specs.Texts.{IsPoolFault, is_too_full};

use crate::coded_view::CodedView;
use crate::fault::PoolFault;
use crate::text_pool::TextPool;
use arrays::{View, ViewType};
use std::alloc::{AllocError, Global};

/// Room for the place of each entry of a view's dictionary. There is none without a dictionary, nor where it has more
/// entries than the view has rows: what is remembered costs no more than the rows.
pub(crate) fn no_places(alloc: Global, view: &View<'_>) -> Result<Vec<Option<u32>>, AllocError>
    ensures { (pool : List (List ℕ)) → IfOk result (λ known. AreKnown pool view.now.entries.items known.items) }
{
    let entries = match view.ty() {
        ViewType::Dict => view.entries().len(),
        _ => 0,
    };
    vec![in alloc; None; if entries <= view.len() { entries } else { 0 }]
}

/// The place of the text of row `i`, which is put at the pool's end where it is new; none where there is no text. It
/// is known of the row's entry from now on where there is room for it, and no text is looked at where it is known.
#[inline(always)]
pub(crate) fn add_row(
    view: &View<'_>,
    coded: &Option<CodedView<'_, '_>>,
    i: usize,
    known: &mut [Option<u32>],
    pool: &mut TextPool,
) -> Result<Option<u32>, PoolFault>
    requires coded { IfSome coded.now (λ c. c ≡ view.now) }
    requires text { is_text view.now.kind ≡ true }
    requires within { i < length view.now.items }
    requires fits { is_too_full pool.old ≡ false }
    requires known { AreKnown pool.old view.now.entries.items known.old }
    ensures place { IfOk result (IsPlaced pool.old pool.new (slice_index_or view.now.items i null)) }
    ensures known { OnOk result (AreKnown pool.new view.now.entries.items known.new) }
    ensures fits { is_too_full pool.new ≡ false }
    ensures err { OnErr result (pool.new ≡ pool.old) }
    ensures fault { IfErr result (IsPoolFault (is_too_full (with_item pool.old (slice_index_or view.now.items i null)))) }
{
    let entry = entry_at(coded, i);
    if let Some(entry) = entry
        && entry < known.len()
        && let Some(place) = known[entry]
    {
        return Ok(Some(place));
    }
    let place = add_text(view, i, pool)?;
    if let Some(entry) = entry
        && entry < known.len()
    {
        known[entry] = place;
    }
    Ok(place)
}

/// The entry that row `i` names, none without a dictionary.
#[inline(always)]
fn entry_at(coded: &Option<CodedView<'_, '_>>, i: usize) -> Option<usize>
    requires { IfSome coded.now (λ c. i < length c.items) }
    ensures { (s : Seen) → IfSome coded.now (λ c. c ≡ s)
        → IfSome result (λ e. slice_index_or s.items i null ≡ slice_index_or s.entries.items e null) }
{
    match coded {
        Some(coded) => coded.code_at(i),
        None => None,
    }
}

/// The place of text `i` of a view of texts, looked up in the pool.
#[inline(always)]
fn add_text(texts: &View<'_>, i: usize, pool: &mut TextPool) -> Result<Option<u32>, PoolFault>
    requires text { is_text texts.now.kind ≡ true }
    requires within { i < length texts.now.items }
    requires fits { is_too_full pool.old ≡ false }
    ensures place { IfOk result (IsPlaced pool.old pool.new (slice_index_or texts.now.items i null)) }
    ensures fits { is_too_full pool.new ≡ false }
    ensures err { OnErr result (pool.new ≡ pool.old) }
    ensures fault { IfErr result (IsPoolFault (is_too_full (with_item pool.old (slice_index_or texts.now.items i null)))) }
{
    match texts.text_at(i) {
        Some(text) => Ok(Some(pool.add(text)?)),
        None => Ok(None),
    }
}
