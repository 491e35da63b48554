//! The columns of a batch as a table stores them: texts are recoded into the table's dictionaries.

ghost use Rattle.std.specs.Prelude.{◌≡◌, ◌≤◌, ◌⊎◌, false, None, IfErr, IfOk, OnOk, Some, length, map, option_map, true};
ghost use Rattle.std.specs.Arc.{arc_value};
ghost use Rattle.std.specs.List.{AllZip, zip};
ghost use mathlib.Core.List.{IsPrefix};
ghost use Rattle.arrays.specs.Kind as kind;
ghost use Rattle.arrays.specs.Prelude.{is_recodable, shown, text};
ghost use Rattle.pool.specs.Front.{IsFront};
ghost use Rattle.table.specs.Recoded.{coded, dictionary_for, entry_count, full_cause, grown, is_past_dictionary, shortened, stored_seen};

use crate::refusal::Refusal;
use arrays::{Array, NoMemory, Words};
use pool::{PoolFault, TextPool, recode};
use std::alloc::Global;
use std::sync::Arc;

/// Columns as they are stored, and the dictionary of each that has one.
#[derive(Drop)]
pub(crate) struct Columns {
    pub(crate) columns: Vec<Array>,
    pub(crate) dictionaries: Vec<Option<Arc<Words>>>,
}

/// The columns as they are stored after those whose texts the pools and the dictionaries have. Where it fails, the pools keep
/// what was added.
pub(crate) fn stored_columns(
    alloc: Global,
    dictionaries: &[Option<Arc<Words>>],
    pools: &mut Vec<TextPool>,
    columns: &[Array],
) -> Result<Columns, Refusal>
    requires count { length pools.old.items ≡ length columns.now }
    requires dictionaries { map (option_map arc_value) dictionaries.now ≡ map dictionary_for (zip pools.old.items columns.now) }
    ensures columns { IfOk result (λ r. r.columns.items ≡ map stored_seen (zip pools.old.items columns.now)) }
    ensures dictionaries { IfOk result (λ r. map (option_map arc_value) r.dictionaries.items
        ≡ map dictionary_for (zip (map grown (zip pools.old.items columns.now)) columns.now)) }
    ensures pools { OnOk result (pools.new.items ≡ map grown (zip pools.old.items columns.now)) }
    ensures fits { OnOk result (full_cause pools.old.items columns.now ≡ None) }
    ensures err { IfErr result (λ e. (e ≡ Refusal.NoMemory) ⊎ (full_cause pools.old.items columns.now ≡ Some e)) }
    ensures begun { AllZip IsPrefix pools.old.items pools.new.items }
{
    let mut stored = Columns {
        columns: Vec::with_capacity(alloc, columns.len())?,
        dictionaries: Vec::with_capacity(alloc, columns.len())?,
    };
    for k in 0..columns.len() {
        let (column, dictionary) = match stored_column(
            alloc,
            &columns[k],
            &mut pools[k],
            &dictionaries[k],
        ) {
            Ok(stored) => stored,
            Err(PoolFault::TextsFull) => return Err(Refusal::TextsFull { column: k }),
            Err(PoolFault::NoMemory) => return Err(Refusal::NoMemory),
        };
        stored.columns.push(column)?;
        stored.dictionaries.push(dictionary)?;
    }
    Ok(stored)
}

/// A column as it is stored, and its dictionary: the same one where the column brings no new text. One that isn't of texts
/// is shared.
#[tactic(auto, using(crate::proofs::FrontLemmas::prefix_same))]
fn stored_column(
    alloc: Global,
    column: &Array,
    pool: &mut TextPool,
    dictionary: &Option<Arc<Words>>,
) -> Result<(Array, Option<Arc<Words>>), PoolFault>
    requires { option_map arc_value dictionary.now ≡ dictionary_for (pool.old, column.now) }
    ensures column { IfOk result (λ r. r.0 ≡ stored_seen (pool.old, column.now)) }
    ensures dictionary { IfOk result (λ r. option_map arc_value r.1 ≡ dictionary_for (grown (pool.old, column.now), column.now)) }
    ensures pool { OnOk result (pool.new ≡ grown (pool.old, column.now)) }
    ensures fits { OnOk result (is_past_dictionary (pool.old, column.now) ≡ false) }
    ensures err { IfErr result (λ e. ((e ≡ PoolFault.TextsFull) × (is_past_dictionary (pool.old, column.now) ≡ true)) ⊎ (e ≡ PoolFault.NoMemory)) }
    ensures begun { IsPrefix pool.old pool.new }
{
    match dictionary {
        Some(words) => {
            let (column, words) = stored_texts(alloc, column, pool, words)?;
            Ok((column, Some(words)))
        }
        None => Ok((column.copy(alloc)?, None)),
    }
}

/// A column of texts as it is stored, and its dictionary.
#[tactic(auto, using(crate::proofs::FrontLemmas::prefix_same))]
fn stored_texts(
    alloc: Global,
    column: &Array,
    pool: &mut TextPool,
    words: &Arc<Words>,
) -> Result<(Array, Arc<Words>), PoolFault>
    requires text { is_recodable column.now.kind ≡ true }
    requires words { arc_value words.now ≡ shown kind.utf8 (map text pool.old) }
    ensures column { IfOk result (λ r. r.0 ≡ coded (grown (pool.old, column.now)) column.now) }
    ensures dictionary { IfOk result (λ r. arc_value r.1 ≡ shown kind.utf8 (map text (grown (pool.old, column.now)))) }
    ensures pool { OnOk result (pool.new ≡ grown (pool.old, column.now)) }
    ensures fits { OnOk result (is_past_dictionary (pool.old, column.now) ≡ false) }
    ensures err { IfErr result (λ e. ((e ≡ PoolFault.TextsFull) × (is_past_dictionary (pool.old, column.now) ≡ true)) ⊎ (e ≡ PoolFault.NoMemory)) }
    ensures begun { IsPrefix pool.old pool.new }
{
    let codes = recode(alloc, &column.view(), pool)?;
    let words = newest(alloc, words, pool)?;
    let dictionary = words.clone()?;
    Ok((Array::dict(codes, dictionary), words))
}

/// The dictionary of a pool: the one of its first texts that there is, unless the pool has more.
fn newest(alloc: Global, words: &Arc<Words>, pool: &TextPool) -> Result<Arc<Words>, NoMemory>
    requires { IsFront pool.now (arc_value words.now) }
    ensures { IfOk result (λ w. arc_value w ≡ shown kind.utf8 (map text pool.now)) }
{
    if words.view().len() == pool.len() {
        return Ok(words.clone()?);
    }
    let texts = pool.to_array_after(alloc, words)?;
    Ok(Arc::new(alloc, Words::of(texts))?)
}

/// Takes back the texts that pools have beside those of the dictionaries.
pub(crate) fn cut_back(pools: &mut Vec<TextPool>, dictionaries: &[Option<Arc<Words>>])
    requires count { length dictionaries.now ≡ length pools.old.items }
    requires within { AllZip (λ d pool. entry_count d ≤ length pool) dictionaries.now pools.old.items }
    ensures { pools.new.items ≡ map shortened (zip dictionaries.now pools.old.items) }
{
    for k in 0..dictionaries.len() {
        pools[k].cut_back(entry_count(&dictionaries[k]));
    }
}

/// How many texts a dictionary has, none where there is none.
fn entry_count(dictionary: &Option<Arc<Words>>) -> usize
    ensures { result ≡ entry_count dictionary.now }
{
    match dictionary {
        Some(words) => words.view().len(),
        None => 0,
    }
}
