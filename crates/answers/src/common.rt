//! Texts that are likely to be among the keys of all pieces.

use arrays::{NoMemory, RecordBatch, View, ViewType};
use keys::TextSet;
use query::Query;
use std::alloc::Global;
use std::sync::Arc;

/// How many entries of a dictionary are looked at: more take longer than they spare where few rows are kept.
const MOST: usize = 4096;

/// The texts of the longest batch's dictionaries, where rows are put into groups by them.
pub(crate) fn common_texts(
    alloc: Global,
    batches: &[Arc<RecordBatch>],
    query: &Query,
) -> Result<TextSet, NoMemory> {
    let mut texts = TextSet::new(alloc);
    if let Some(batch) = longest(batches) {
        for place in query.by.as_slice() {
            if let Some(column) = batch.columns().get(*place as usize) {
                add_entries(&mut texts, &column.view())?;
            }
        }
    }
    Ok(texts)
}

/// The last batch of the most rows: where batches share a dictionary that grows, it has the most entries there.
fn longest(batches: &[Arc<RecordBatch>]) -> Option<&RecordBatch> {
    let mut longest: Option<&RecordBatch> = None;
    for batch in batches {
        match longest {
            Some(other) if batch.rows() < other.rows() => {}
            _ => longest = Some(batch),
        }
    }
    longest
}

/// Adds the first entries of the column's dictionary, if it has one.
fn add_entries(texts: &mut TextSet, view: &View<'_>) -> Result<(), NoMemory> {
    if let ViewType::Dict = view.ty() {
        let entries = view.entries();
        for i in 0..entries.len().min(MOST) {
            if let Some(text) = entries.text_at(i) {
                add_text(texts, text)?;
            }
        }
    }
    Ok(())
}

/// Puts a text at the end where it is new.
fn add_text(texts: &mut TextSet, text: &str) -> Result<(), NoMemory> {
    match texts.place_of(text) {
        Some(_) => Ok(()),
        None => texts.add_new(text),
    }
}
