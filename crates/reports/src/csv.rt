//! Texts, values and names as fields of CSV.
ghost use Rattle.std.specs.Prelude.{◌≡◌, ◌∷◌, ◌++◌, ◌<◌, IfOk, OnOk, [], cond, map, nat_lt, string_bytes};
ghost use Rattle.std.specs.Str.{chars};
ghost use Rattle.std.specs.Prelude.{flat_map};
ghost use Rattle.std.specs.List.{join_with_byte, list_any};
ghost use Rattle.table.specs.Prelude.{named, renamed_agg, scalar_item};
ghost use Rattle.reports.specs.Csv.{csv_cell, csv_text, doubled_char, is_quoted, is_special};
ghost use Rattle.reports.specs.GroupLines.{agg_label, column_names, names_record};

use crate::text::{push_number, push_truth};
use arrays::NoMemory;
use std::alloc::{AllocError, Global};
use table::{Agg, QueryText, Scalar};

/// Adds the record of the names of what a query asks for.
pub(crate) fn push_names(
    alloc: Global,
    text: &mut String,
    query: &QueryText,
) -> Result<(), NoMemory>
    ensures { OnOk result (string_bytes text.new ≡ string_bytes text.old ++ names_record (named query.now)) }
{
    let names = column_names(alloc, query)?;
    push_texts(text, &names)?;
    text.push_str("\r\n")?;
    Ok(())
}

/// The names of what a query asks for: its keys, and then its aggregates, such as `sum(people)`.
pub fn column_names(alloc: Global, query: &QueryText) -> Result<Vec<String>, NoMemory>
    ensures { IfOk result (λ names. map string_bytes names.items ≡ column_names (named query.now)) }
{
    let mut names = keys_of(alloc, &query.by)?;
    for agg in &query.aggs {
        names.push(agg_name(alloc, agg)?)?;
    }
    Ok(names)
}

/// Texts of their own.
fn keys_of(alloc: Global, keys: &[String]) -> Result<Vec<String>, NoMemory>
    ensures { IfOk result (λ names. map string_bytes names.items ≡ map string_bytes keys.now) }
{
    let mut names = Vec::with_capacity(alloc, keys.len())?;
    for key in keys {
        names.push(String::from_str(alloc, key)?)?;
    }
    Ok(names)
}

/// The name of an aggregate.
fn agg_name(alloc: Global, agg: &Agg<String>) -> Result<String, AllocError>
    ensures { IfOk result (λ name. string_bytes name ≡ agg_label (renamed_agg string_bytes agg.now)) }
{
    match agg {
        Agg::Rows => String::from_str(alloc, "rows"),
        Agg::Count(column) => called(alloc, "count(", column),
        Agg::Sum(column) => called(alloc, "sum(", column),
        Agg::Least(column) => called(alloc, "least(", column),
        Agg::Greatest(column) => called(alloc, "greatest(", column),
    }
}

/// The name of an aggregate of a column.
fn called(alloc: Global, head: &str, column: &str) -> Result<String, AllocError>
    ensures { IfOk result (λ name. string_bytes name ≡ head.now ++ column.now ++ 41 ∷ []) }
{
    let mut name = String::from_str(alloc, head)?;
    name.push_str(column)?;
    name.push_str(")")?;
    Ok(name)
}

/// Adds texts as fields, with one comma between.
#[tactic(auto, using(crate::proofs::JoinLemmas::joined))]
fn push_texts(text: &mut String, values: &[String]) -> Result<(), AllocError>
    ensures { OnOk result (string_bytes text.new
        ≡ string_bytes text.old ++ join_with_byte 44 (map csv_text (map string_bytes values.now))) }
{
    for i in 0..values.len() {
        push_between(text, b',', i)?;
        push_text(text, &values[i])?;
    }
    Ok(())
}

/// Adds a value as a field.
pub(crate) fn push_scalar_field(text: &mut String, value: &Scalar) -> Result<(), AllocError>
    ensures { OnOk result (string_bytes text.new ≡ string_bytes text.old ++ csv_cell (scalar_item value.now)) }
{
    match value {
        Scalar::Int(number) => push_number(text, *number),
        Scalar::Bool(truth) => push_truth(text, *truth),
        Scalar::Text(value) => push_text(text, value.as_str()),
    }
}

/// Adds a text as a field.
fn push_text(text: &mut String, value: &str) -> Result<(), AllocError>
    ensures { OnOk result (string_bytes text.new ≡ string_bytes text.old ++ csv_text value.now) }
{
    if !is_quoted(value) {
        return text.push_str(value);
    }
    text.push_str("\"")?;
    push_doubled(text, value)?;
    text.push_str("\"")
}

/// Whether a text stands within quotes.
fn is_quoted(value: &str) -> bool
    ensures { result ≡ is_quoted value.now }
{
    value.is_empty() || has_special(value.as_bytes())
}

/// Whether a byte of a text has it stand within quotes.
fn has_special(bytes: &[u8]) -> bool
    ensures { result ≡ list_any is_special bytes.now }
{
    bytes.iter().any(|byte| is_special(*byte))
}

/// Whether a byte is one that a text has within quotes alone.
fn is_special(byte: u8) -> bool
    ensures { result ≡ is_special byte }
{
    byte == b',' || byte == b'"' || byte == b'\r' || byte == b'\n'
}

/// Adds a text, each quote in it twice.
#[tactic(auto, using(std::proofs::lemmas::List::flat_map_more))]
fn push_doubled(text: &mut String, value: &str) -> Result<(), AllocError>
    ensures { OnOk result (string_bytes text.new ≡ string_bytes text.old ++ flat_map doubled_char (chars value.now)) }
{
    for c in value.chars() {
        push_char(text, c)?;
    }
    Ok(())
}

/// Adds a character, a quote twice.
fn push_char(text: &mut String, c: char) -> Result<(), AllocError>
    ensures { OnOk result (string_bytes text.new ≡ string_bytes text.old ++ doubled_char c) }
{
    if c == '"' {
        text.push_str("\"\"")
    } else {
        text.push(c)
    }
}

/// Adds a byte of ASCII before the item at a place, unless it is the first.
pub(crate) fn push_between(text: &mut String, byte: u8, place: usize) -> Result<(), AllocError>
    requires { byte < 128 }
    ensures { OnOk result (string_bytes text.new ≡ string_bytes text.old ++ cond (nat_lt 0 place) (byte ∷ []) []) }
{
    if place > 0 {
        push_byte(text, byte)?;
    }
    Ok(())
}

/// Adds a byte of ASCII.
#[tactic(auto, using(std::proofs::lemmas::Str::encode_ascii))]
pub(crate) fn push_byte(text: &mut String, byte: u8) -> Result<(), AllocError>
    requires { byte < 128 }
    ensures { OnOk result (string_bytes text.new ≡ string_bytes text.old ++ byte ∷ []) }
{
    text.push(char::from(byte))
}
