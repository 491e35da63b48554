//! What is done with a table, whatever its name is.

ghost use Rattle.std.specs.Prelude.{◌≡◌, ℕ, List, [], IfErr, IfOk, length, replicate};
ghost use Rattle.arrays.specs.Prelude.{FieldShape};
ghost use Rattle.shared.specs.Hand.{AreNew};
ghost use Rattle.shared.specs.Named.{IsNamed};
ghost use Rattle.shared.specs.Opened.{IsWorkerCount, IsFew, IsOpenFault};
ghost use Rattle.table.specs.Stored.{stored_fields};

use crate::fault::OpenFault;
use crate::naming::Naming;
use crate::opening::{Opening, check_counts, open};
use crate::reader::Reader;
use crate::shared_table::SharedTable;
use crate::shown::{Publish, Shown};
use crate::worker::Worker;
use arrays::Schema;
use std::alloc::Global;
use std::marker::Brand;
use std::sync::Wait;

/// What is done with a table, its workers and its readers, in the thread that opens it. Who has workers append in threads of
/// their own calls `open`: what is known in a trait's method of a type's values doesn't say that they may go to another thread.
pub trait Session: Drop {
    type Output;

    /// What it gives on a table with so many workers and readers, for batches of these fields: anything, unless it says more.
    ghost gives: { Self → ℕ → ℕ → List FieldShape → Self.Output → Type 0 } = { λ _ _ _ _ _. Unit {0} };

    /// Does it with a table that nothing was appended to yet.
    fn run<N: Naming, P: Publish<Item = Shown<N>>>(
        self,
        table: SharedTable<N, P>,
        workers: Vec<Worker<N>>,
        readers: Vec<Reader<N>>,
    ) -> Self::Output
        requires some { IsWorkerCount table }
        requires count { length workers.items ≡ table }
        requires new { AreNew N.fields 0 workers.items }
        requires few { IsFew (length readers.items) }
        requires readers { readers.items ≡ replicate (length readers.items) (record { fields = N.fields; history = [] }) }
        ensures { gives self table (length readers.items) N.fields result };
}

/// Opens a table for batches of the schema with so many workers, from 1 to 64, and readers, up to 64, picks its name, and runs
/// the session on it.
///
/// # Errors
/// As those of `open`; then the session wasn't run.
pub fn with_table<S: Session, R: Wait + Drop>(
    wait: R,
    alloc: Global,
    schema: Schema,
    workers: u32,
    readers: u32,
    session: S,
) -> Result<S::Output, OpenFault>
    ensures ok { IfOk result (S.gives session workers readers (stored_fields schema)) }
    ensures err { IfErr result (IsOpenFault workers readers) }
{
    check_counts(workers, readers)?;
    let opening = Opening::new(alloc, schema, workers)?;
    begin::<Brand, S, R>(wait, alloc, opening, readers, session)
}

/// The same, by the table's name.
fn begin<N: Naming, S: Session, R: Wait + Drop>(
    wait: R,
    alloc: Global,
    opening: Opening,
    readers: u32,
    session: S,
) -> Result<S::Output, OpenFault>
    requires named { IsNamed N.book N.fields N.calls N.rows N.columns N.workers opening }
    ensures ok { IfOk result (S.gives session opening.workers readers opening.fields) }
    ensures err { IfErr result (IsOpenFault opening.workers readers) }
{
    let (table, hands, all) = open::<N, R>(wait, alloc, opening, readers)?;
    Ok(session.run(table, hands, all))
}
