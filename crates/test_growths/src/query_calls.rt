//! Queries of a table, and the table as a file.

ghost use Rattle.std.specs.Prelude.{◌≡◌, true};
ghost use Rattle.std.specs.Arc.{arc_value};
ghost use Rattle.selqumar_core.specs.Prelude.{fits, query_shape};

use crate::permit::Permit;
use crate::refusals::Refused;
use crate::run::{Due, Ran, Scene, Stop, given, run, told};
use crate::samples::{SampleFile, SampleQuery, table};
use crate::sweep::Trial;
use crate::tell::Tell;
use arrays::File;
use selqumar_core::{OpenGate, Query, QueryText, Version, ask, print_file, read_query, resolve};
use std::alloc::Global;
use std::sync::Arc;
use std::test::Fail;
use std::thread::Threads;

/// A call of a version.
#[derive(Clone, Copy)]
enum Call {
    Resolve,
    /// The query is answered in so many pieces.
    Answer(u32),
    /// This query's text is asked.
    Ask(SampleQuery),
    Export,
    /// The version's file is printed.
    Print,
}

/// A call, and its query.
#[derive(Clone, Copy)]
pub(crate) struct Case(Call, SampleQuery);

#[rattlefmt::skip]
pub(crate) static CASES: [(&str, Case); 17] = [
    ("resolve, by texts", Case(Call::Resolve, SampleQuery::ByText)),
    ("resolve, by large texts", Case(Call::Resolve, SampleQuery::ByLargeText)),
    ("resolve, by two", Case(Call::Resolve, SampleQuery::ByTwo)),
    ("answer, a sum past its type", Case(Call::Answer(1), SampleQuery::PastType)),
    ("answer, by texts, 1 piece", Case(Call::Answer(1), SampleQuery::ByText)),
    ("answer, by texts, 2 pieces", Case(Call::Answer(2), SampleQuery::ByText)),
    ("answer, by texts, 4 pieces", Case(Call::Answer(4), SampleQuery::ByText)),
    ("answer, by large texts, 1 piece", Case(Call::Answer(1), SampleQuery::ByLargeText)),
    ("answer, by large texts, 2 pieces", Case(Call::Answer(2), SampleQuery::ByLargeText)),
    ("answer, by large texts, 4 pieces", Case(Call::Answer(4), SampleQuery::ByLargeText)),
    ("answer, by two, 1 piece", Case(Call::Answer(1), SampleQuery::ByTwo)),
    ("answer, by two, 2 pieces", Case(Call::Answer(2), SampleQuery::ByTwo)),
    ("answer, by two, 4 pieces", Case(Call::Answer(4), SampleQuery::ByTwo)),
    ("ask, by two", Case(Call::Ask(SampleQuery::ByTwo), SampleQuery::ByTwo)),
    ("ask, no such column", Case(Call::Ask(SampleQuery::NoColumn), SampleQuery::ByTwo)),
    ("export", Case(Call::Export, SampleQuery::ByTwo)),
    ("print_file", Case(Call::Print, SampleQuery::ByTwo)),
];

/// The version of a table of a batch that was joined and another.
fn version(alloc: Global) -> Result<Arc<Version>, Fail> {
    let mut table = table(alloc)?;
    table.compact(100)?;
    let batch = SampleFile::OneMore.first_batch(alloc)?;
    table.admit(2, &batch)?;
    Ok(table.version()?)
}

impl<R: Threads + Sync> Trial<R> for Case {
    fn run(&self, rt: &R, alloc: Global, refused: Option<Refused>) -> Result<Ran, Fail> {
        let Case(call, query) = *self;
        let mut scene = Asking::new(alloc, call, version(alloc)?, query)?;
        let due = match (call, query) {
            (Call::Ask(SampleQuery::NoColumn), _) | (_, SampleQuery::PastType) => Due::Refusal,
            _ => Due::Answer,
        };
        run(rt, alloc, &mut scene, due, refused)
    }
}

/// A call with a version of two batches, one of which was joined, its file, and a query, by names and by positions.
#[derive(Drop)]
struct Asking {
    call: Call,
    file: File,
    version: Arc<Version>,
    text: QueryText,
    query: Query,
    ghost fits: { fits (arc_value version).fields (query_shape query) ≡ true },
}

impl Asking {
    /// A call with a version, and with a query placed under its fields.
    fn new(
        alloc: Global,
        call: Call,
        version: Arc<Version>,
        sample: SampleQuery,
    ) -> Result<Asking, Fail> {
        let text = read_query(alloc, sample.text().as_bytes())?;
        let query = resolve(alloc, &text, version.schema())?;
        Ok(Asking {
            call,
            file: version.export(alloc)?,
            version,
            text,
            query,
        })
    }
}

impl<R: Threads + Sync> Scene<R> for Asking {
    fn call(&mut self, rt: &R, alloc: Global, report: &mut String) -> Result<(), Stop> {
        let (call, rt) = (self.call, Permit::of(rt));
        let (version, query) = (&self.version, &self.query);
        match call {
            Call::Resolve => told(report, resolve(alloc, &self.text, version.schema())),
            Call::Answer(pieces @ 1..=64) => {
                told(report, version.answer(&rt, alloc, query, pieces, &OpenGate))
            }
            Call::Answer(_) => Err(Stop::Refused),
            Call::Ask(asked) => told(report, ask(&rt, alloc, version, asked.text())),
            Call::Export => given(report, version.export(alloc)),
            Call::Print => told(report, print_file(alloc, &self.file)),
        }
    }

    fn tell(&mut self, _rt: &R, report: &mut String) -> Result<(), Fail> {
        let (text, query) = (&self.text, &self.query);
        write!(report, "{text:?} {query:?} ")?;
        self.file.tell(report)?;
        Ok(self.version.tell(report)?)
    }
}
