//! A table at a moment, in one's own process.
ghost use Rattle.std.specs.Prelude.{◌≡◌, IfErr, IfOk, string_bytes};
ghost use Rattle.embed.specs.Answer.{IsAnswerTable, PrintsAnswer, StopsAnswer};
ghost use Rattle.table.specs.Prelude.{named};
ghost use Rattle.reports.specs.Prelude.{IsUnanswered, OrMemory, PrintsGroups, exported, schema_lines, stats_text};

use crate::answering::answer_table;
use crate::loaded::Loaded;
use arrays::NoMemory;
use reports::{RunFault, export_text, groups_text, read_query_text, schema_text, stats_text};
use std::alloc::Global;
use table::{QueryText, Version};

/// A table as it was at a moment. It stays so, whatever is added to the table, and answers as `arrowtab` does. Its rows are those of
/// the table, which aren't copied; its batches are [`Version::batches`].
#[derive(Drop)]
pub struct Snapshot {
    pub version: Version,
}

impl Snapshot {
    /// Another one of the same moment. No row is copied.
    pub fn share(&self) -> Result<Snapshot, NoMemory>
        ensures { IfOk result (λ s. s.version ≡ self.now.version) }
    {
        Ok(Snapshot {
            version: self.version.share()?,
        })
    }

    /// What `stats` prints of the table: how many rows it had, how many batches and rows each of so many workers had added, and the
    /// statistics of each column.
    pub fn stats(&self, alloc: Global, workers: u32) -> Result<String, RunFault>
        ensures ok { IfOk result (λ text. string_bytes text ≡ stats_text workers self.now.version.fields self.now.version.history) }
        ensures err { IfErr result (λ fault. fault ≡ RunFault.NoMemory) }
    {
        Ok(stats_text(alloc, workers, &self.version)?)
    }

    /// What `schema` prints of it: its fields.
    pub fn schema(&self, alloc: Global) -> Result<String, RunFault>
        ensures ok { IfOk result (λ text. string_bytes text ≡ schema_lines self.now.version.fields) }
        ensures err { IfErr result (λ fault. fault ≡ RunFault.NoMemory) }
    {
        Ok(schema_text(alloc, &self.version)?)
    }

    /// What `export` prints of it: one file with a batch for each that had been added.
    pub fn export(&self, alloc: Global) -> Result<String, RunFault>
        ensures ok { IfOk result (λ text. string_bytes text ≡ exported self.now.version.fields self.now.version.history) }
        ensures err { IfErr result (λ fault. fault ≡ RunFault.NoMemory) }
    {
        Ok(export_text(alloc, &self.version)?)
    }

    /// What `query` prints of it: a line for each group.
    pub fn query(&self, alloc: Global, query_text: &[u8]) -> Result<String, RunFault>
        ensures ok { IfOk result (λ text. PrintsAnswer query_text.now self.now.version.fields self.now.version.history (string_bytes text)) }
        ensures err { IfErr result (OrMemory (StopsAnswer query_text.now self.now.version.fields self.now.version.history)) }
    {
        let read = read_query_text(alloc, query_text)?;
        self.groups(alloc, &read)
    }

    /// The same as a table of its own: a row for each group, a column for each item of its key and each aggregate. It has the types that
    /// [`results`] gives.
    pub fn answer(&self, alloc: Global, query_text: &[u8]) -> Result<Loaded, RunFault>
        ensures ok { IfOk result (λ t. IsAnswerTable query_text.now self.now.version.fields self.now.version.history t.state) }
        ensures err { IfErr result (OrMemory (StopsAnswer query_text.now self.now.version.fields self.now.version.history)) }
    {
        Ok(Loaded::of(answer_table(alloc, query_text, &self.version)?))
    }

    /// The same for a query that was read.
    pub(crate) fn groups(&self, alloc: Global, query: &QueryText) -> Result<String, RunFault>
        ensures ok { IfOk result (λ text. PrintsGroups (named query.now) self.now.version.fields self.now.version.history (string_bytes text)) }
        ensures err { IfErr result (OrMemory (IsUnanswered (named query.now) self.now.version.fields self.now.version.history)) }
    {
        groups_text(alloc, query, &self.version)
    }
}
