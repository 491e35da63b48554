//! How a table with workers and readers begins.

ghost use Rattle.std.specs.Prelude.{◌≡◌, ◌⊎◌, ◌≤◌, [], IfErr, IfOk, IfSome, OnOk, length, replicate};
ghost use Rattle.left_right.specs.Handles.{pending, published};
ghost use Rattle.std.specs.Arc.{arc_value};
ghost use Rattle.shared.specs.Balance.{ShowsKnown};
ghost use Rattle.shared.specs.Changes.{known_after};
ghost use Rattle.shared.specs.Hand.{AreNew};
ghost use Rattle.shared.specs.Named.{IsNamed};
ghost use Rattle.shared.specs.Opened.{IsWorkerCount, IsFew, IsOpenFault};
ghost use Rattle.table.specs.Stored.{stored_fields};

use crate::fault::OpenFault;
use crate::ledgers::{Blanks, Books, Shares};
use crate::naming::{Event, Naming};
use crate::reader::Reader;
use crate::shared_table::SharedTable;
use crate::shown::{Publisher, Shown};
use crate::worker::{Worker, new_workers};
use arrays::{NoMemory, Schema};
use histories::{Front, Head};
use left_right::WriteHandle;
use std::alloc::Global;
use std::marker::Model;
use std::sync::{Arc, Wait};
use table::{TableState, Version};

/// The most workers that a table may have, and the most readers.
const MOST: u32 = 64;

/// A table without a name yet, which nothing was appended to, and the empty version of it, which readers are shown first.
///
/// Clauses see what its name is of.
#[derive(Drop)]
pub struct Opening {
    state: TableState,
    version: Arc<Version>,
    log: histories::Opened<Event>,
    blanks: Blanks,
    workers: u32,
}

impl Model for Opening {
    ghost use Rattle.shared.specs.Named.{NamedTable, named_code};

    ghost Value = { NamedTable };

    ghost coded = { named_code };

    ghost use Rattle.std.specs.Prelude.{◌≡◌, []};
    ghost use Rattle.std.specs.Arc.{arc_value};

    ghost view = { λ o. record {
      book = o.log;
      fields = o.state.fields;
      calls = o.blanks.calls.name;
      rows = o.blanks.rows.name;
      columns = o.blanks.columns.name;
      workers = o.workers;
    } };

    ghost invariant = { λ o. (o.state ≡ record { fields = o.state.fields; history = []; batches = [] })
        × (arc_value o.version ≡ o.state)
        × (o.blanks.calls.parts ≡ o.workers)
        × (o.blanks.rows.parts ≡ o.workers)
        × (o.blanks.columns.parts ≡ o.workers) };
}

impl Opening {
    /// The opening of a table of the schema, for so many workers.
    pub fn new(alloc: Global, schema: Schema, workers: u32) -> Result<Opening, NoMemory>
        ensures fields { IfOk result (λ o. o.fields ≡ stored_fields schema) }
        ensures workers { IfOk result (λ o. o.workers ≡ workers) }
    {
        let state = TableState::new(alloc, schema)?;
        let version = state.version()?;
        Ok(Opening {
            state,
            version,
            log: histories::Opened::new(),
            blanks: Blanks::new(workers),
            workers,
        })
    }

    /// How many workers the table is to have.
    fn workers(&self) -> u32
        ensures { result ≡ self.now.workers }
    {
        self.workers
    }

    /// The table, its empty version, its history, and its ledgers, by its name.
    fn named<N: Naming>(self) -> Parts<N>
        requires { IsNamed N.book N.fields N.calls N.rows N.columns N.workers self }
        ensures state { result.0 ≡ record { fields = N.fields; history = []; batches = [] } }
        ensures version { arc_value result.1 ≡ result.0 }
        ensures front { result.2.1 ≡ [] }
        ensures totals { (result.3.0.calls.total ≡ 0) × (result.3.0.rows.total ≡ 0) × (result.3.0.columns.total ≡ 0) }
        ensures parts { (result.3.1.calls.parts ≡ N.workers) × (result.3.1.rows.parts ≡ N.workers) × (result.3.1.columns.parts ≡ N.workers) }
        ensures amounts { (result.3.1.calls.amount ≡ 0) × (result.3.1.rows.amount ≡ 0) × (result.3.1.columns.amount ≡ 0) }
    {
        let Opening {
            state,
            version,
            log,
            blanks,
            workers: _,
        } = self;
        (state, version, log.named::<N>(), blanks.open::<N>())
    }
}

/// What an opening has by its name.
type Parts<N> = (
    TableState,
    Arc<Version>,
    (Head<Event, N>, Front<Event, N>),
    (Books<N>, Shares<N>),
);

/// What `open` gives: the table, its workers and its readers.
pub type Opened<N, R> = (
    SharedTable<N, Publisher<N, R>>,
    Vec<Worker<N>>,
    Vec<Reader<N>>,
);

/// A table of the opening's workers, from 1 to 64, and so many readers, up to 64, for batches of its schema; the workers,
/// numbered from 0, and the readers. A caller is a function over the name that is handed the opening; `with_table` is one.
///
/// # Errors
/// `NoWorkers`, `TooMany` by the numbers; `NoMemory` where a growth was refused; `NoPlace` where a reader was given no place,
/// which may be without cause.
pub fn open<N: Naming, R: Wait + Drop>(
    wait: R,
    alloc: Global,
    opening: Opening,
    readers: u32,
) -> Result<Opened<N, R>, OpenFault>
    requires named { IsNamed N.book N.fields N.calls N.rows N.columns N.workers opening }
    ensures table { IfOk result (λ r. r.0 ≡ opening.workers) }
    ensures count { IfOk result (λ r. length r.1.items ≡ opening.workers) }
    ensures new { IfOk result (λ r. AreNew N.fields 0 r.1.items) }
    ensures readers { IfOk result (λ r. r.2.items ≡ replicate readers (record { fields = N.fields; history = [] })) }
    ensures few { OnOk result (IsWorkerCount opening.workers × IsFew readers) }
    ensures err { IfErr result (IsOpenFault opening.workers readers) }
{
    let workers = opening.workers();
    check_counts(workers, readers)?;
    let (state, version, history, (books, mut shares)) = opening.named::<N>();
    let hands = new_workers(alloc, workers, &mut shares, &history.1)?;
    let (publisher, all) = new_readers(wait, alloc, readers, version, &history.1)?;
    let ledgers = (books, shares);
    let table = SharedTable::new(alloc, state, history, publisher, ledgers, workers);
    Ok((table, hands, all))
}

/// That a table may have so many workers and readers.
pub(crate) fn check_counts(workers: u32, readers: u32) -> Result<(), OpenFault>
    ensures ok { OnOk result (IsWorkerCount workers × IsFew readers) }
    ensures err { IfErr result (IsOpenFault workers readers) }
{
    if workers == 0 {
        return Err(OpenFault::NoWorkers);
    }
    if workers > MOST || readers > MOST {
        return Err(OpenFault::TooMany);
    }
    Ok(())
}

/// So many readers, who know of the opening fields alone, and who shows versions to them: nobody where there is no reader.
fn new_readers<N: Naming, R: Wait + Drop>(
    wait: R,
    alloc: Global,
    count: u32,
    version: Arc<Version>,
    front: &Front<Event, N>,
) -> Result<(Option<Publisher<N, R>>, Vec<Reader<N>>), OpenFault>
    requires few { IsFew count }
    requires front { front.now ≡ [] }
    requires version { ((arc_value version).history ≡ []) × ((arc_value version).fields ≡ N.fields) }
    ensures shown { IfOk result (λ r. IfSome r.0 (λ p. (published p ≡ record { contents = arc_value version; number = 0 }) × (pending p ≡ []))) }
    ensures readers { IfOk result (λ r. r.1.items ≡ replicate count (record { fields = N.fields; history = [] })) }
    ensures err { IfErr result (λ e. (e ≡ OpenFault.NoMemory) ⊎ ((e ≡ OpenFault.NoPlace) × (1 ≤ count))) }
{
    let mut readers = Vec::with_capacity(alloc, count as usize)?;
    if count == 0 {
        return Ok((None, readers));
    }
    let publisher = new_publisher(wait, alloc, &version, front)?;
    for _reader in 0..count {
        let Ok(handle) = publisher.handle() else {
            return Err(OpenFault::NoPlace);
        };
        readers.push(Reader::new(alloc, handle, front.again()))?;
    }
    Ok((Some(publisher), readers))
}

/// Who shows versions to readers, with the first one shown.
fn new_publisher<N: Naming, R: Wait + Drop>(
    wait: R,
    alloc: Global,
    version: &Arc<Version>,
    front: &Front<Event, N>,
) -> Result<Publisher<N, R>, NoMemory>
    requires { ShowsKnown N.workers (known_after N.fields front.now) (arc_value version.now) }
    ensures { IfOk result (λ p. (published p ≡ record { contents = arc_value version.now; number = 0 }) × (pending p ≡ [])) }
{
    let first = Shown::new(version, front, 0)?;
    let second = Shown::new(version, front, 0)?;
    let mut publisher = WriteHandle::new(alloc, wait, first, second, MOST as usize)?;
    // The queue of what is to be shown gets both its places now, so that no append has to ask for one.
    publish_twice(&mut publisher, version, front)?;
    Ok(publisher)
}

/// Shows the version that is shown, by two steps at once.
fn publish_twice<N: Naming, R: Wait + Drop>(
    publisher: &mut Publisher<N, R>,
    version: &Arc<Version>,
    front: &Front<Event, N>,
) -> Result<(), NoMemory>
    requires front { ShowsKnown N.workers (known_after N.fields front.now) (arc_value version.now) }
    requires nothing { pending publisher.old ≡ [] }
    ensures { OnOk result ((published publisher.new ≡ record { contents = arc_value version.now; number = 0 }) × (pending publisher.new ≡ [])) }
{
    publisher
        .append(Shown::new(version, front, 0)?)
        .map_err(|_| NoMemory)?;
    publisher
        .append(Shown::new(version, front, 0)?)
        .map_err(|_| NoMemory)?;
    Ok(publisher.publish()?)
}
