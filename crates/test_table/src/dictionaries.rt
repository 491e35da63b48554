//! How many dictionaries a table keeps where each batch brings a new text, and what a version from before shows.

use arrays::{Array, DataType, OffsetWidth, RecordBatch, Schema, TextBuilder, View, ViewType};
use shared::TableState;
use std::alloc::Global;
use std::sync::Arc;
use std::test::Fail;

/// How many texts the first batch has beside its own.
const TEXTS: u32 = 100_000;

/// How many batches come.
const BATCHES: u32 = 10_000;

/// How often a batch moves at most, and how many dictionaries stay at most: the logarithm of their number, and one.
const FEW: usize = 14;

/// The dictionaries of the batches, by how many texts they have, and how often each batch moved to another one.
#[derive(Drop)]
struct Seen {
    sizes: Vec<usize>,
    moves: Vec<usize>,
}

#[test]
fn few_dictionaries_stay(rt: HostRuntime) -> Result<(), Fail> {
    let alloc = rt.alloc();
    let mut table = TableState::new(alloc, schema(alloc)?)?;
    let mut seen = Seen {
        sizes: Vec::new(alloc),
        moves: Vec::new(alloc),
    };
    for number in 0..BATCHES {
        let next = if number == 0 {
            first_batch(alloc)?
        } else {
            batch(alloc, number)?
        };
        table.admit(0, &next)?;
        let version = table.version()?;
        let sizes = sizes_of(alloc, version.batches())?;
        assert!(rt; block_count(&sizes) <= FEW, "after batch {number}");
        seen = seen.with(sizes)?;
    }
    assert!(rt; seen.moves.iter().all(|moves| *moves <= FEW));
    assert!(rt; shows_each(alloc, table.version()?.batches())?);
    Ok(())
}

#[test]
fn a_version_from_before_keeps_its_dictionaries(rt: HostRuntime) -> Result<(), Fail> {
    let alloc = rt.alloc();
    let mut table = TableState::new(alloc, schema(alloc)?)?;
    admit_all(alloc, &mut table, 0, 7)?;
    let before = table.version()?;
    admit_all(alloc, &mut table, 7, 8)?;
    assert!(rt; sizes_of(alloc, before.batches())?.as_slice() == [4, 4, 4, 4, 6, 6, 7].as_slice());
    assert!(rt; sizes_of(alloc, table.version()?.batches())?.as_slice() == [8; 8].as_slice());
    assert!(rt; shows_each(alloc, before.batches())?);
    Ok(())
}

#[test]
fn joined_batches_have_one_dictionary(rt: HostRuntime) -> Result<(), Fail> {
    let alloc = rt.alloc();
    let mut table = TableState::new(alloc, schema(alloc)?)?;
    admit_all(alloc, &mut table, 0, 7)?;
    // No two of them are joined.
    table.compact(1)?;
    let version = table.version()?;
    assert!(rt; sizes_of(alloc, version.batches())?.as_slice() == [7; 7].as_slice());
    assert!(rt; shows_each(alloc, version.batches())?);
    Ok(())
}

impl Seen {
    /// With the dictionaries of one batch more: which of the others moved.
    fn with(self, sizes: Vec<usize>) -> Result<Seen, Fail> {
        let Seen {
            sizes: before,
            mut moves,
        } = self;
        for (moves, (old, new)) in moves.iter_mut().zip(before.iter().zip(&sizes)) {
            if old != new {
                *moves = moves.saturating_add(1);
            }
        }
        moves.push(0)?;
        Ok(Seen { sizes, moves })
    }
}

/// How many runs of the same number there are.
fn block_count(sizes: &[usize]) -> usize {
    let (mut blocks, mut last) = (0usize, None);
    for size in sizes {
        if last != Some(*size) {
            blocks = blocks.saturating_add(1);
        }
        last = Some(*size);
    }
    blocks
}

/// Admits the batches of these numbers.
fn admit_all(alloc: Global, table: &mut TableState, first: u32, end: u32) -> Result<(), Fail> {
    for number in first..end {
        table.admit(0, &batch(alloc, number)?)?;
    }
    Ok(())
}

/// How many texts the dictionary of each batch has.
fn sizes_of(alloc: Global, batches: &[Arc<RecordBatch>]) -> Result<Vec<usize>, Fail> {
    let mut sizes = Vec::with_capacity(alloc, batches.len())?;
    for batch in batches {
        sizes.push(match batch.columns() {
            [column, ..] => entry_count(&column.view()),
            [] => 0,
        })?;
    }
    Ok(sizes)
}

/// How many texts the dictionary of a view has.
fn entry_count(view: &View<'_>) -> usize {
    match view.ty() {
        ViewType::Dict => view.entries().len(),
        _ => 0,
    }
}

/// Whether each batch holds the text of its number.
fn shows_each(alloc: Global, batches: &[Arc<RecordBatch>]) -> Result<bool, Fail> {
    for (number, batch) in batches.iter().enumerate() {
        let text = text_of(alloc, u32::try_from(number).unwrap_or(u32::MAX))?;
        let is_shown = match batch.columns() {
            [column] => first_text(&column.view()) == Some(text.as_str()),
            _ => false,
        };
        if !is_shown {
            return Ok(false);
        }
    }
    Ok(true)
}

/// The first text of a dictionary-encoded view.
fn first_text<'a>(view: &View<'a>) -> Option<&'a str> {
    match view.ty() {
        ViewType::Dict if view.len() > 0 => view.text_at(0),
        _ => None,
    }
}

/// A field of texts.
fn schema(alloc: Global) -> Result<Schema, Fail> {
    let ty = DataType::of_texts(OffsetWidth::Narrow);
    let field = test_samples::field(alloc, "s", true, ty)?;
    Ok(Schema::new(vec![in alloc; field]?)?)
}

/// The batch that brings the text of its number.
fn batch(alloc: Global, number: u32) -> Result<RecordBatch, Fail> {
    let text = text_of(alloc, number)?;
    batch_of(alloc, Array::of_texts(alloc, &[Some(text.as_str())])?)
}

/// The batch that brings the text of 0, and many others behind it, which no number has.
fn first_batch(alloc: Global) -> Result<RecordBatch, Fail> {
    let mut texts = TextBuilder::with_capacity(alloc, OffsetWidth::Narrow, 1, 0)?;
    texts.push(Some(text_of(alloc, 0)?.as_str()))?;
    for other in 0..TEXTS {
        texts.push(Some(format!(in alloc; "other {other}")?.as_str()))?;
    }
    batch_of(alloc, texts.finish()?)
}

/// The batch of a column of texts.
fn batch_of(alloc: Global, texts: Array) -> Result<RecordBatch, Fail> {
    let rows = u32::try_from(texts.len()).unwrap_or(0);
    Ok(RecordBatch::new(schema(alloc)?, rows, vec![in alloc; texts]?)?)
}

fn text_of(alloc: Global, number: u32) -> Result<String, Fail> {
    let mut text = String::new(alloc);
    write!(text, "{number}")?;
    Ok(text)
}
