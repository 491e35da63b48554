//! What is answered to a query over the batches of a file, as text.

ghost use Rattle.std.specs.Prelude.{◌≡◌, All, IfOk, IfSome, length, map, true};
ghost use Rattle.std.specs.Arc.{arc_value};
ghost use Rattle.arrays.specs.Prelude.{Batch, kind_of_field};
ghost use Rattle.answers.specs.Prelude.{all_rows, first_fields, fits, query_shape};

use answers::{Answer, Gate, Query, QueryFault, Scalar, answer, answer_alone, resolve};
use arrays::RecordBatch;
use arrow_json::{read_file, read_query};
use std::alloc::{AllocError, Global};
use std::process::Abort;
use std::sync::Arc;
use std::test::Fail;
use std::thread::Threads;

/// The most rows that queries are answered over.
const MOST_ROWS: u64 = 1 << 40;

/// How many rows the batches have; none where 64 bits don't count them.
fn rows_in(batches: &[Arc<RecordBatch>]) -> Option<u64>
    ensures { IfSome result (λ rows. rows ≡ length (all_rows (map arc_value batches.now))) }
{
    let mut rows: u64 = 0;
    for batch in batches {
        rows = rows.checked_add(u64::from(batch.rows()))?;
    }
    Some(rows)
}

/// The lines that a query over the batches of a file is answered in so many pieces, or the line of the fault.
pub(crate) fn answered(
    rt: &(impl Abort + Threads + Sync),
    alloc: Global,
    texts: (&str, &str),
    pieces: u32,
    gate: &impl Gate,
) -> Result<String, Fail> {
    let (batches, query) = read_both(alloc, texts)?;
    let rows = rows_in(&batches).expect(rt, "few rows");
    assert!(rt; rows <= MOST_ROWS);
    assert!(rt; 1 <= pieces && pieces <= 64);
    report(alloc, answer(rt, alloc, &batches, &query, pieces, gate))
}

/// The same in one piece, without threads.
pub(crate) fn answered_alone(
    rt: &impl Abort,
    alloc: Global,
    texts: (&str, &str),
) -> Result<String, Fail> {
    let (batches, query) = read_both(alloc, texts)?;
    let rows = rows_in(&batches).expect(rt, "few rows");
    assert!(rt; rows <= MOST_ROWS);
    report(alloc, answer_alone(alloc, &batches, &query))
}

/// The batches of a file, and a query over them.
fn read_both(alloc: Global, texts: (&str, &str)) -> Result<(Vec<Arc<RecordBatch>>, Query), Fail>
    ensures types { IfOk result (λ r. All (λ (b : Batch). map kind_of_field b.fields ≡ map kind_of_field (first_fields (map arc_value r.0.items))) (map arc_value r.0.items)) }
    ensures fits { IfOk result (λ r. All (λ (b : Batch). fits b.fields (query_shape r.1) ≡ true) (map arc_value r.0.items)) }
{
    let (file, query) = texts;
    let (schema, batches) = read_file(alloc, file.as_bytes())?.into_parts();
    let query = resolve(alloc, &read_query(alloc, query.as_bytes())?, &schema)?;
    Ok((batches, query))
}

/// The lines of an answer, or that of its fault.
fn report(alloc: Global, answered: Result<Answer, QueryFault>) -> Result<String, Fail> {
    match answered {
        Ok(answer) => Ok(lines(alloc, &answer)?),
        Err(fault) => Ok(format!(in alloc; "{fault}")?),
    }
}

/// The lines of an answer's groups.
fn lines(alloc: Global, answer: &Answer) -> Result<String, AllocError> {
    let mut lines = String::new(alloc);
    for group in &answer.groups {
        let mut line = String::new(alloc);
        push_cells(alloc, &mut line, &group.keys)?;
        push_cells(alloc, &mut line, &group.cells)?;
        lines.push_str(line.as_str())?;
        lines.push_str("\n")?;
    }
    Ok(lines)
}

/// Adds cells to a line, with one space between.
fn push_cells(
    alloc: Global,
    line: &mut String,
    cells: &[Option<Scalar>],
) -> Result<(), AllocError> {
    for cell in cells {
        if !line.is_empty() {
            line.push_str(" ")?;
        }
        line.push_str(shown(alloc, cell)?.as_str())?;
    }
    Ok(())
}

/// A cell as it is printed.
fn shown(alloc: Global, cell: &Option<Scalar>) -> Result<String, AllocError> {
    match cell {
        Some(Scalar::Int(number)) => format!(in alloc; "{number}"),
        Some(Scalar::Bool(truth)) => format!(in alloc; "{truth}"),
        Some(Scalar::Text(text)) => format!(in alloc; "{text:?}"),
        None => String::from_str(alloc, "null"),
    }
}
