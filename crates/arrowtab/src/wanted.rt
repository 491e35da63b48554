//! What a job asks for: its query is read before any source is.
ghost use Rattle.std.specs.Prelude.{IfErr, IfOk};
ghost use Rattle.reports.specs.OrMemory.{OrMemory};
ghost use Rattle.arrowtab.specs.Wanted.{IsUnread, IsWanted};

use job::{Command, Output};
use reports::{RunFault, read_query_text};
use std::alloc::Global;
use table::QueryText;

/// A command whose query is read.
#[derive(Drop)]
pub(crate) enum Wanted {
    Stats,
    Schema,
    Nothing,
    Head(u64),
    Export,
    Groups(QueryText, Output),
}

/// What a command asks for, or why its query isn't read.
pub(crate) fn wanted_of(alloc: Global, command: &Command) -> Result<Wanted, RunFault>
    ensures ok { IfOk result (IsWanted command.now) }
    ensures err { IfErr result (OrMemory (IsUnread command.now)) }
{
    match command {
        Command::Stats => Ok(Wanted::Stats),
        Command::Schema => Ok(Wanted::Schema),
        Command::Validate => Ok(Wanted::Nothing),
        Command::Head(count) => Ok(Wanted::Head(*count)),
        Command::Export => Ok(Wanted::Export),
        Command::Query { query, output } => {
            let read = read_query_text(alloc, query.text())?;
            Ok(Wanted::Groups(read, *output))
        }
    }
}
