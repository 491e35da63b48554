//! The name of a table, and what the entries of its history are.

use arrays::{Field, RecordBatch};
use histories::Noted;
use std::marker::{Brand, Model};

/// The name of a table: of its history and of its ledgers. It fixes the stored fields that the table is opened with, and how many
/// workers it has, too. `with_table` picks one; a caller of `open` is a function over the name that is handed the opening of which
/// it is the name.
pub trait Naming: histories::Naming {
    ghost use Rattle.std.specs.Prelude.{List, ℕ};
    ghost use Rattle.arrays.specs.Prelude.{FieldShape};

    /// The stored fields at opening.
    ghost fields: { List FieldShape };

    /// The ledger of the workers' calls.
    ghost calls: { ℕ };

    /// The ledger of their rows.
    ghost rows: { ℕ };

    /// The ledger of their columns.
    ghost columns: { ℕ };

    /// How many workers there are.
    ghost workers: { ℕ };
}

impl Naming for Brand {
    ghost use Rattle.std.specs.Prelude.{[]};

    ghost fields = { [] };

    ghost calls = { 0 };

    ghost rows = { 0 };

    ghost columns = { 0 };

    ghost workers = { 0 };
}

/// An entry of a history. No value of it is made.
///
/// Clauses see a change of the table: a worker with the rows that it added, or a field.
#[derive(Drop)]
pub struct Event;

impl Model for Event {
    ghost use Rattle.std.specs.Prelude.{[]};
    ghost use Rattle.shared.specs.Changes.{Change, change_code, pair_added};

    ghost Value = { Change };

    ghost coded = { change_code };

    ghost view = { λ e. pair_added (0, []) };
}

/// A worker's batch that the table took.
#[derive(Drop)]
pub(crate) struct Accepted<'a> {
    pub(crate) worker: u32,
    pub(crate) batch: &'a RecordBatch,
}

impl<'a> Noted<Event> for Accepted<'a> {
    ghost use Rattle.arrays.specs.Batch.{rows_of};
    ghost use Rattle.shared.specs.Changes.{pair_added};

    ghost noted = { λ a. pair_added (a.worker, rows_of a.batch.now) };
}

/// A field that came behind the others, as it was given.
#[derive(Drop)]
pub(crate) struct Added<'a> {
    pub(crate) field: &'a Field,
}

impl<'a> Noted<Event> for Added<'a> {
    ghost use Rattle.arrays.specs.Prelude.{field_of};
    ghost use Rattle.shared.specs.Changes.{field_added};
    ghost use Rattle.table.specs.Stored.{stored_field};

    ghost noted = { λ a. field_added (stored_field (field_of a.field.now)) };
}
