//! Calls on batches, and on tables of one thread; tables that are opened.

ghost use Rattle.std.specs.Prelude.{◌≡◌};
ghost use Rattle.shared.specs.Named.{IsNamed};

use crate::columns::Column;
use crate::nodes::nodes;
use crate::refusals::Refused;
use crate::run::{Due, Ran, Scene, Stop, answered, given, given_table, run, told};
use crate::samples::{SampleFile, table};
use crate::sweep::Trial;
use crate::tell::Tell;
use arrays::{Field, RecordBatch};
use intake::{append, table_of};
use selqumar_core::{Ready, TableState};
use shared::{
    Naming, OpenFault, Opening, Publish, Reader, Session, SharedTable, Shown, Worker, open,
    with_table,
};
use std::alloc::Global;
use std::marker::Brand;
use std::sync::{Arc, Wait};
use std::test::Fail;

/// What is made of the batch or of its schema.
#[derive(Clone, Copy)]
enum Make {
    Batch,
    Ready,
    Table,
    Opening,
}

/// A table of two workers and so many readers is opened, alone or for a session.
#[derive(Clone, Copy)]
enum Open {
    Alone(u32),
    Session(u32),
}

/// How a batch is added to the table.
#[derive(Clone, Copy)]
enum Admit {
    Lent,
    Ready,
    Shown,
    /// It's one of nodes.
    Nodes,
}

/// How the table changes otherwise, or is looked at.
#[derive(Clone, Copy)]
enum Change {
    Compact,
    CompactShown,
    AddColumn,
    AddColumnShown,
    WithColumn,
    Version,
}

#[derive(Clone, Copy)]
enum Call {
    Make(Make),
    Open(Open),
    Admit(Admit),
    Change(Change),
}

/// A call, a file whose first batch it's given, and a column of the type that is added.
#[derive(Clone, Copy)]
pub(crate) struct Case(Call, SampleFile, Column);

/// A call with a batch, or with the type of a column.
macro_rules! on {
    ($kind:ident :: $call:ident, $file:ident) => {
        Case(Call::$kind($kind::$call), SampleFile::$file, Column::Numbers)
    };
    ($call:ident of $column:ident) => {
        Case(Call::Change(Change::$call), SampleFile::OneMore, Column::$column)
    };
    ($call:ident with $readers:literal) => {
        Case(Call::Open(Open::$call($readers)), SampleFile::TwoBatches, Column::Numbers)
    };
}

#[rattlefmt::skip]
pub(crate) static CASES: [(&str, Case); 30] = [
    ("RecordBatch::copy", on!(Make::Batch, OneMore)),
    ("Ready::new", on!(Make::Ready, OneMore)),
    ("Ready::new, codes", on!(Make::Ready, TwoBatches)),
    ("TableState::new", on!(Make::Table, OneMore)),
    ("TableState::new, codes", on!(Make::Table, TwoBatches)),
    ("Opening::new", on!(Make::Opening, OneMore)),
    ("Opening::new, codes", on!(Make::Opening, TwoBatches)),
    ("open", on!(Alone with 2)),
    ("open, no readers", on!(Alone with 0)),
    ("with_table", on!(Session with 2)),
    ("with_table, no readers", on!(Session with 0)),
    ("TableState::admit", on!(Admit::Lent, OneMore)),
    ("TableState::admit, codes", on!(Admit::Lent, TwoBatches)),
    ("TableState::admit_ready", on!(Admit::Ready, OneMore)),
    ("TableState::admit_ready, codes", on!(Admit::Ready, TwoBatches)),
    ("TableState::admit_ready, other fields", on!(Admit::Ready, OneColumn)),
    ("TableState::admit_shown", on!(Admit::Shown, OneMore)),
    ("TableState::admit_shown, codes", on!(Admit::Shown, TwoBatches)),
    ("intake::append", on!(Admit::Nodes, OneMore)),
    ("TableState::compact", on!(Change::Compact, OneMore)),
    ("TableState::compact_shown", on!(Change::CompactShown, OneMore)),
    ("TableState::version", on!(Change::Version, OneMore)),
    ("TableState::add_column, numbers", on!(AddColumn of Numbers)),
    ("TableState::add_column, texts", on!(AddColumn of Texts)),
    ("TableState::add_column, codes", on!(AddColumn of Codes)),
    ("TableState::add_column, large lists of lists", on!(AddColumn of LargeListsOfLists)),
    ("TableState::add_column_shown, texts", on!(AddColumnShown of Texts)),
    ("TableState::add_column_shown, large lists of lists", on!(AddColumnShown of LargeListsOfLists)),
    ("Version::with_column, texts", on!(WithColumn of Texts)),
    ("Version::with_column, large lists of lists", on!(WithColumn of LargeListsOfLists)),
];

impl Case {
    /// The table that is changed: it has two batches, or none.
    fn table(self, alloc: Global) -> Result<TableState, Fail> {
        match self.0 {
            Call::Admit(Admit::Nodes) => Ok(table_of(alloc, &nodes(b"\x05"))?),
            _ => table(alloc),
        }
    }

    /// The field of the column that is added.
    fn field(self, alloc: Global) -> Result<Field, Fail> {
        let ty = self.2.array(alloc)?.ty().copy(alloc)?;
        Ok(Field::nullable(alloc, "added", ty)?)
    }
}

impl<R: Wait> Trial<R> for Case {
    fn run(&self, rt: &R, alloc: Global, refused: Option<Refused>) -> Result<Ran, Fail> {
        let mut scene = Growing {
            call: self.0,
            table: self.table(alloc)?,
            batch: self.1.first_batch(alloc)?,
            field: self.field(alloc)?,
        };
        let due = match self.1 {
            SampleFile::OneColumn => Due::Refusal,
            _ => Due::Answer,
        };
        run(rt, alloc, &mut scene, due, refused)
    }
}

/// A call with a table of two batches or of none, one more batch, and the field of one more column.
#[derive(Drop)]
struct Growing {
    call: Call,
    table: TableState,
    batch: Arc<RecordBatch>,
    field: Field,
}

impl<R: Wait> Scene<R> for Growing {
    fn call(&mut self, rt: &R, alloc: Global, report: &mut String) -> Result<(), Stop> {
        match self.call {
            Call::Make(make) => self.make(alloc, report, make),
            Call::Open(call) => self.open(rt, alloc, report, call),
            Call::Admit(admit) => self.admit(alloc, report, admit),
            Call::Change(change) => self.change(alloc, report, change),
        }
    }

    fn tell(&mut self, _rt: &R, report: &mut String) -> Result<(), Fail> {
        self.batch.tell(report)?;
        Ok(self.table.version()?.tell(report)?)
    }
}

impl Growing {
    /// Tells what is made of the batch.
    fn make(&self, alloc: Global, report: &mut String, make: Make) -> Result<(), Stop> {
        match make {
            Make::Batch => given(report, self.batch.copy(alloc)),
            Make::Ready => given(report, Ready::new(alloc, &self.batch)),
            Make::Table => {
                let schema = self.batch.schema().copy(alloc)?;
                given_table(report, TableState::new(alloc, schema))
            }
            Make::Opening => {
                let schema = self.batch.schema().copy(alloc)?;
                let _opening = answered(report, Opening::new(alloc, schema, 2))?;
                Ok(())
            }
        }
    }

    /// Tells how many workers and readers a table is opened with.
    fn open<R: Wait>(
        &self,
        rt: &R,
        alloc: Global,
        report: &mut String,
        call: Open,
    ) -> Result<(), Stop> {
        let schema = self.batch.schema().copy(alloc)?;
        match call {
            Open::Alone(readers) => {
                let opening = Opening::new(alloc, schema, 2)?;
                told(report, opened::<Brand, R>(rt, alloc, opening, readers))
            }
            Open::Session(readers) => {
                told(report, with_table(rt, alloc, schema, 2, readers, Counting))
            }
        }
    }

    /// Adds a batch to the table.
    fn admit(&mut self, alloc: Global, report: &mut String, admit: Admit) -> Result<(), Stop> {
        match admit {
            Admit::Lent => told(report, self.table.admit(7, &self.batch)),
            Admit::Ready => {
                let ready = Ready::new(alloc, &self.batch)?;
                told(report, self.table.admit_ready(7, ready))
            }
            Admit::Shown => {
                let ready = Ready::new(alloc, &self.batch)?;
                given(report, self.table.admit_shown(7, ready))
            }
            Admit::Nodes => {
                let nodes = nodes(b"\x05");
                told(report, append(alloc, &mut self.table, 7, 3, &nodes))
            }
        }
    }

    /// Joins batches of the table, adds a column, or looks at it.
    fn change(&mut self, alloc: Global, report: &mut String, change: Change) -> Result<(), Stop> {
        match change {
            Change::Compact => told(report, self.table.compact(100)),
            Change::CompactShown => given(report, self.table.compact_shown(100)),
            Change::AddColumn => {
                let field = self.field.copy(alloc)?;
                told(report, self.table.add_column(field))
            }
            Change::AddColumnShown => given(report, self.table.add_column_shown(&self.field)),
            Change::WithColumn => {
                let version = self.table.version()?;
                given(report, version.with_column(alloc, &self.field))
            }
            Change::Version => given(report, self.table.version()),
        }
    }
}

/// How many workers and readers a table is opened with, under its name.
fn opened<N: Naming, R: Wait>(
    rt: &R,
    alloc: Global,
    opening: Opening,
    readers: u32,
) -> Result<(usize, usize), OpenFault>
    requires { IsNamed N.book N.fields N.calls N.rows N.columns N.workers opening }
{
    let (_table, workers, readers) = open::<N, &R>(rt, alloc, opening, readers)?;
    Ok((workers.len(), readers.len()))
}

/// Counts workers and readers.
#[derive(Drop)]
struct Counting;

impl Session for Counting {
    type Output = (usize, usize);

    ghost gives = { λ _ workers readers _ counts. counts ≡ (workers, readers) };

    fn run<N: Naming, P: Publish<Item = Shown<N>>>(
        self,
        _table: SharedTable<N, P>,
        workers: Vec<Worker<N>>,
        readers: Vec<Reader<N>>,
    ) -> (usize, usize) {
        (workers.len(), readers.len())
    }
}
