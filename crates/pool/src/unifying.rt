//! Columns of texts brought to one dictionary.

ghost use Rattle.std.specs.Prelude.{◌≡◌, ◌⊎◌, false, true, map, All, IfOk, IfErr, OnOk};
ghost use Rattle.arrays.specs.Item as item;
ghost use Rattle.arrays.specs.Kind as kind;
ghost use Rattle.arrays.specs.Prelude.{is_recodable, shown};
ghost use Rattle.pool.specs.Texts.{is_too_full};
ghost use Rattle.pool.specs.Unified.{all_texts, codes_among};

use crate::fault::PoolFault;
use crate::recoding::recode;
use crate::text_pool::TextPool;
use arrays::{Array, View};
use std::alloc::Global;

/// One dictionary of the texts of some columns, in order of first appearance, and for each column its codes into it:
/// null for null. It fails where the dictionary would be too full, and for want of memory.
///
/// `["b", "a"]` and `["c", "b"]` have the dictionary `["b", "a", "c"]` and the codes `[0, 1]` and `[2, 0]`.
pub fn unify(alloc: Global, views: &[View<'_>]) -> Result<(Array, Vec<Array>), PoolFault>
    requires { All (λ v. is_recodable v.kind ≡ true) views.now }
    ensures dictionary { IfOk result (λ r. r.0 ≡ shown kind.utf8 (map item.text (all_texts views.now))) }
    ensures codes { IfOk result (λ r. r.1.items ≡ map (codes_among (all_texts views.now)) views.now) }
    ensures fits { OnOk result (is_too_full (all_texts views.now) ≡ false) }
    ensures err { IfErr result (λ e. ((e ≡ PoolFault.TextsFull) × (is_too_full (all_texts views.now) ≡ true))
        ⊎ (e ≡ PoolFault.NoMemory)) }
{
    let (pool, codes) = recode_all(alloc, views)?;
    let dictionary = pool.to_array(alloc)?;
    Ok((dictionary, codes))
}

/// A pool of the texts of all columns, and each column's places in it.
fn recode_all(alloc: Global, views: &[View<'_>]) -> Result<(TextPool, Vec<Array>), PoolFault>
    requires { All (λ v. is_recodable v.kind ≡ true) views.now }
    ensures texts { IfOk result (λ r. r.0 ≡ all_texts views.now) }
    ensures fits { OnOk result (is_too_full (all_texts views.now) ≡ false) }
    ensures codes { IfOk result (λ r. r.1.items ≡ map (codes_among (all_texts views.now)) views.now) }
    ensures err { IfErr result (λ e. ((e ≡ PoolFault.TextsFull) × (is_too_full (all_texts views.now) ≡ true))
        ⊎ (e ≡ PoolFault.NoMemory)) }
{
    let mut pool = TextPool::new(alloc);
    let mut codes = Vec::with_capacity(alloc, views.len())?;
    for view in views {
        let column = recode(alloc, view, &mut pool)?;
        codes.push(column)?;
    }
    Ok((pool, codes))
}
