//! A table in one's own process.
ghost use Rattle.std.specs.Prelude.{◌≡◌, IfErr, IfOk, map, string_bytes};
ghost use Rattle.embed.specs.Answer.{IsAnswerTable, PrintsAnswer, StopsAnswer};
ghost use Rattle.embed.specs.Loaded.{HoldsFiles};
ghost use Rattle.embed.specs.Refused.{StopsTexts};
ghost use Rattle.table.specs.Prelude.{named};
ghost use Rattle.reports.specs.Prelude.{IsUnanswered, OrMemory, PrintsGroups, exported, schema_lines, stats_text};

use crate::loading::load_files;
use crate::reading::read_files;
use crate::snapshot::Snapshot;
use arrays::NoMemory;
use reports::RunFault;
use std::alloc::Global;
use table::{QueryText, TableState};

/// A table that answers as `arrowtab` does. What is added to its state, or changed there, is in the next answer.
#[derive(Drop)]
pub struct Loaded {
    pub state: TableState,
}

impl Loaded {
    /// The table of the files of these texts.
    pub fn open(alloc: Global, texts: &[&[u8]]) -> Result<Loaded, RunFault>
        ensures ok { IfOk result (λ t. HoldsFiles (map (λ t. t.now) texts.now) t.state.fields t.state.history) }
        ensures err { IfErr result (OrMemory (StopsTexts (map (λ t. t.now) texts.now))) }
    {
        let files = read_files(alloc, texts)?;
        let state = load_files(alloc, &files)?;
        Ok(Loaded { state })
    }

    /// The table of this state.
    pub fn of(state: TableState) -> Loaded
        ensures { result.state ≡ state }
    {
        Loaded { state }
    }

    /// The table as it is now.
    pub fn snapshot(&self) -> Result<Snapshot, NoMemory>
        ensures { IfOk result (λ s. s.version ≡ self.now.state) }
    {
        let version = self.state.version()?;
        Ok(Snapshot {
            version: version.share()?,
        })
    }

    /// What `stats` prints of the table: how many rows it has, how many batches and rows each of so many workers added, and the
    /// statistics of each column.
    pub fn stats(&self, alloc: Global, workers: u32) -> Result<String, RunFault>
        ensures ok { IfOk result (λ text. string_bytes text ≡ stats_text workers self.now.state.fields self.now.state.history) }
        ensures err { IfErr result (λ fault. fault ≡ RunFault.NoMemory) }
    {
        self.snapshot()?.stats(alloc, workers)
    }

    /// What `schema` prints of it: its fields.
    pub fn schema(&self, alloc: Global) -> Result<String, RunFault>
        ensures ok { IfOk result (λ text. string_bytes text ≡ schema_lines self.now.state.fields) }
        ensures err { IfErr result (λ fault. fault ≡ RunFault.NoMemory) }
    {
        self.snapshot()?.schema(alloc)
    }

    /// What `export` prints of it: one file with a batch for each that was added.
    pub fn export(&self, alloc: Global) -> Result<String, RunFault>
        ensures ok { IfOk result (λ text. string_bytes text ≡ exported self.now.state.fields self.now.state.history) }
        ensures err { IfErr result (λ fault. fault ≡ RunFault.NoMemory) }
    {
        self.snapshot()?.export(alloc)
    }

    /// What `query` prints of it: a line for each group.
    pub fn query(&self, alloc: Global, query_text: &[u8]) -> Result<String, RunFault>
        ensures ok { IfOk result (λ text. PrintsAnswer query_text.now self.now.state.fields self.now.state.history (string_bytes text)) }
        ensures err { IfErr result (OrMemory (StopsAnswer query_text.now self.now.state.fields self.now.state.history)) }
    {
        self.snapshot()?.query(alloc, query_text)
    }

    /// The same as a table of its own, as [`Snapshot::answer`] gives.
    pub fn answer(&self, alloc: Global, query_text: &[u8]) -> Result<Loaded, RunFault>
        ensures ok { IfOk result (λ t. IsAnswerTable query_text.now self.now.state.fields self.now.state.history t.state) }
        ensures err { IfErr result (OrMemory (StopsAnswer query_text.now self.now.state.fields self.now.state.history)) }
    {
        self.snapshot()?.answer(alloc, query_text)
    }

    /// The same for a query that was read.
    pub(crate) fn groups(&self, alloc: Global, query: &QueryText) -> Result<String, RunFault>
        ensures ok { IfOk result (λ text. PrintsGroups (named query.now) self.now.state.fields self.now.state.history (string_bytes text)) }
        ensures err { IfErr result (OrMemory (IsUnanswered (named query.now) self.now.state.fields self.now.state.history)) }
    {
        self.snapshot()?.groups(alloc, query)
    }
}
