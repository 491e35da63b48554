ghost use Rattle.std.specs.Prelude.{◌≡◌, true};
ghost use Rattle.arrays.specs.Slot.{is_recodable};

use arrays::{Array, OffsetWidth, View, ViewType};
use pool::{TextPool, recode, unify};
use std::alloc::Global;
use std::process::Abort;
use std::test::Fail;
use test_samples::Sample::{self, Coded, Texts};
use test_samples::{Shown, Words, coded, sampled, shows, slots_of};

/// Asserts that a view is of texts that a dictionary may hold.
fn assert_of_texts(rt: &impl Abort, view: &View<'_>)
    ensures { is_recodable view.now.kind ≡ true }
{
    match view.ty() {
        ViewType::Text(OffsetWidth::Narrow) => {}
        ViewType::Dict => {}
        _ => panic!(rt; "these are no texts"),
    }
}

/// Whether the pool has these texts.
fn has_texts(pool: &TextPool, texts: &[&str]) -> bool {
    if pool.len() != texts.len() || texts.len() > 100 {
        return false;
    }
    for (i, text) in texts.iter().enumerate() {
        if pool.text_of(i as u32) != Some(*text) || pool.code_of(*text) != Some(i as u32) {
            return false;
        }
    }
    true
}

/// The codes of a column whose texts are put into a pool.
fn recoded(
    rt: &impl Abort,
    alloc: Global,
    sample: Sample,
    pool: &mut TextPool,
) -> Result<Array, Fail> {
    let column = sampled(alloc, sample)?;
    let view = column.view();
    assert_of_texts(rt, &view);
    Ok(recode(alloc, &view, pool)?)
}

#[test]
fn a_pool_is_cut_back(rt: HostRuntime) -> Result<(), Fail> {
    let mut pool = TextPool::new(rt.alloc());
    assert!(rt; pool.is_empty());
    let codes = recoded(&rt, rt.alloc(), Coded, &mut pool)?;
    let expected = Shown::Numbers(&[Some(0), Some(0), None, None, Some(1)]);
    assert!(rt; shows(&codes.view(), expected) && has_texts(&pool, &["a", "b"]));
    let texts = pool.to_array(rt.alloc())?;
    assert!(rt; shows(&texts.view(), Shown::Texts(&[Some("a"), Some("b")])));
    assert!(rt; pool.len() >= 1);
    pool.cut_back(1);
    assert!(rt; has_texts(&pool, &["a"]) && pool.code_of("b") == None && pool.text_of(1) == None);
    Ok(())
}

/// The texts b and null.
const B_AND_NULL: Words = (Some(&[0x01]), &[0, 1, 1], b"b");

/// The texts a and b.
const A_AND_B: Words = (None, &[0, 1, 2], b"ab");

#[test]
fn columns_share_a_pool(rt: HostRuntime) -> Result<(), Fail> {
    let mut pool = TextPool::new(rt.alloc());
    for (sample, expected) in [
        (Texts(B_AND_NULL), Shown::Numbers(&[Some(0), None])),
        (Texts(A_AND_B), Shown::Numbers(&[Some(1), Some(0)])),
    ] {
        let codes = recoded(&rt, rt.alloc(), sample, &mut pool)?;
        assert!(rt; shows(&codes.view(), expected));
    }
    assert!(rt; has_texts(&pool, &["b", "a"]));
    Ok(())
}

/// Whether arrays show this, one after the other.
fn show_all(arrays: &[Array], shown: &[Shown]) -> bool {
    if arrays.len() != shown.len() {
        return false;
    }
    for (array, shown) in arrays.iter().zip(shown) {
        if !shows(&array.view(), *shown) {
            return false;
        }
    }
    true
}

#[test]
fn columns_share_a_dictionary(rt: HostRuntime) -> Result<(), Fail> {
    let column = coded(rt.alloc())?;
    let (last, all) = (slots_of(&column, 4, 1), slots_of(&column, 0, 5));
    assert_of_texts(&rt, &last);
    assert_of_texts(&rt, &all);
    let (dictionary, codes) = unify(rt.alloc(), &[last, all])?;
    let expected = [
        Shown::Numbers(&[Some(0)]),
        Shown::Numbers(&[Some(1), Some(1), None, None, Some(0)]),
    ];
    assert!(rt; shows(&dictionary.view(), Shown::Texts(&[Some("b"), Some("a")])));
    assert!(rt; show_all(&codes, &expected));
    Ok(())
}

#[test]
fn a_column_alone_or_none_has_a_dictionary(rt: HostRuntime) -> Result<(), Fail> {
    let column = coded(rt.alloc())?;
    let whole = column.view();
    assert_of_texts(&rt, &whole);
    let (dictionary, codes) = unify(rt.alloc(), &[whole])?;
    let expected = Shown::Numbers(&[Some(0), Some(0), None, None, Some(1)]);
    assert!(rt; shows(&dictionary.view(), Shown::Texts(&[Some("a"), Some("b")])));
    assert!(rt; show_all(&codes, &[expected]));
    let (dictionary, codes) = unify(rt.alloc(), &[])?;
    assert!(rt; shows(&dictionary.view(), Shown::Texts(&[])) && codes.is_empty());
    Ok(())
}
