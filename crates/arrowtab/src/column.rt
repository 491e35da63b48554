//! The column that a job adds behind the files' ones.
ghost use Rattle.std.specs.Prelude.{IfErr, IfOk, option_map};
ghost use Rattle.std.specs.Arc.{arc_value};
ghost use Rattle.arrays.specs.Prelude.{field_of};
ghost use Rattle.arrowtab.specs.Column.{IsColumn, IsColumnRefused, IsColumnUnread, IsWith, column_text};
ghost use Rattle.reports.specs.OrMemory.{OrMemory};

use arrays::Field;
use arrow_json::{JsonFaultKind, read_field};
use job::Job;
use reports::{ColumnFault, RunFault};
use std::alloc::Global;
use std::sync::Arc;
use table::{AddFault, Version};

/// Its field, where the job has one: it is read before any source is.
pub(crate) fn column_of(alloc: Global, job: &Job) -> Result<Option<Field>, RunFault>
    ensures ok { IfOk result (λ field. IsColumn (column_text job.now) (option_map field_of field)) }
    ensures err { IfErr result (OrMemory (IsColumnUnread job.now)) }
{
    let Some(text) = &job.column else {
        return Ok(None);
    };
    match read_field(alloc, text.as_str().as_bytes()) {
        Ok(field) => Ok(Some(field)),
        Err(fault) => match fault.kind {
            JsonFaultKind::NoMemory => Err(RunFault::NoMemory),
            _ => Err(RunFault::OfColumn(ColumnFault::Unread(fault))),
        },
    }
}

/// The version with a column of the field behind the others, where there is one.
pub(crate) fn with_column(
    alloc: Global,
    version: Arc<Version>,
    column: Option<Field>,
) -> Result<Arc<Version>, RunFault>
    ensures ok { IfOk result (λ v. IsWith (option_map field_of column) (arc_value version) (arc_value v)) }
    ensures err { IfErr result (OrMemory (IsColumnRefused (option_map field_of column))) }
{
    let Some(field) = column else {
        return Ok(version);
    };
    match version.with_column(alloc, &field) {
        Ok(wider) => Ok(wider),
        Err(AddFault::NoMemory) => Err(RunFault::NoMemory),
        Err(fault) => Err(RunFault::OfColumn(ColumnFault::Refused(fault))),
    }
}
