//! Tables of nodes, and their batches.

ghost use Rattle.std.specs.Prelude.{◌≡◌, IfErr, IfOk, OnErr, OnOk, length};
ghost use Rattle.arrays.specs.Prelude.{field_of};
ghost use Rattle.intake.specs.Filling.{IsAppended, IsEmptyOf, IsOneColumn, IsWidened, StopsAppend, StopsNaming, StopsWidening};

use crate::fault::IntakeFault;
use arrays::{Field, NoMemory};
use flat::{FlatFault, Node, batch_of, schema_of};
use std::alloc::Global;
use table::TableState;

/// An empty table for batches of the fields that nodes name. Lengths, null counts and buffers aren't looked at.
///
/// # Errors
/// As those of [`schema_of`](flat::schema_of).
pub fn table_of(alloc: Global, nodes: &[Node<'_>]) -> Result<TableState, FlatFault>
    ensures ok { IfOk result (λ t. IsEmptyOf nodes.now t) }
    ensures err { IfErr result (StopsNaming nodes.now) }
{
    let schema = schema_of(alloc, nodes)?;
    match TableState::new(alloc, schema) {
        Ok(table) => Ok(table),
        Err(NoMemory) => Err(FlatFault::NoMemory),
    }
}

/// Adds the batch of so many rows that nodes are at the end, of a worker, and gives the number of its entry in the book, from 0.
/// After a refusal the table is as it was.
///
/// # Errors
/// `Flat` as those of [`batch_of`](flat::batch_of), then `Refused` as those of [`TableState::admit`].
pub fn append(
    alloc: Global,
    table: &mut TableState,
    worker: u32,
    rows: u32,
    nodes: &[Node<'_>],
) -> Result<u32, IntakeFault>
    ensures number { IfOk result (λ n. n ≡ length table.old.history) }
    ensures added { OnOk result (IsAppended worker rows nodes.now table.old table.new) }
    ensures err { IfErr result (StopsAppend rows nodes.now table.old) }
    ensures kept { OnErr result (table.new ≡ table.old) }
{
    match batch_of(alloc, rows, nodes) {
        Ok(batch) => match table.admit(worker, &batch) {
            Ok(number) => Ok(number),
            Err(refusal) => Err(IntakeFault::Refused { refusal }),
        },
        Err(fault) => Err(IntakeFault::Flat { fault }),
    }
}

/// Adds a column of the field that nodes name behind the others: the rows that are there show null in it. Lengths, null counts and
/// buffers aren't looked at. After a refusal the table is as it was.
///
/// # Errors
/// `Flat` as those of [`schema_of`](flat::schema_of), then `NotOneColumn`, then `Column` as those of [`TableState::add_column`].
pub fn add_column(
    alloc: Global,
    table: &mut TableState,
    nodes: &[Node<'_>],
) -> Result<(), IntakeFault>
    ensures added { OnOk result (IsWidened nodes.now table.old table.new) }
    ensures err { IfErr result (StopsWidening nodes.now) }
    ensures kept { OnErr result (table.new ≡ table.old) }
{
    match only_field(alloc, nodes) {
        Ok(field) => match table.add_column(field) {
            Ok(()) => Ok(()),
            Err(fault) => Err(IntakeFault::Column { fault }),
        },
        Err(fault) => Err(fault),
    }
}

/// The field of the one column that nodes are.
fn only_field(alloc: Global, nodes: &[Node<'_>]) -> Result<Field, IntakeFault>
    ensures ok { IfOk result (λ f. IsOneColumn nodes.now (field_of f)) }
    ensures err { IfErr result (StopsWidening nodes.now) }
{
    match schema_of(alloc, nodes) {
        Ok(schema) => match schema.fields() {
            [field] => match field.copy(alloc) {
                Ok(field) => Ok(field),
                Err(NoMemory) => Err(IntakeFault::Flat {
                    fault: FlatFault::NoMemory,
                }),
            },
            fields => Err(IntakeFault::NotOneColumn {
                columns: fields.len(),
            }),
        },
        Err(fault) => Err(IntakeFault::Flat { fault }),
    }
}
