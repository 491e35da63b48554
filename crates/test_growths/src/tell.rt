//! What is seen of values, as a text: two values of which all is alike have one text.

ghost use Rattle.std.specs.Prelude.{◌<◌, length};

use arrays::{Array, Buffer, File, RecordBatch, Schema, View, ViewType};
use json_file::{BatchMembers, Placed};
use selqumar_core::{Ready, Version};
use std::alloc::AllocError;
use std::sync::Arc;

/// A value of which all is seen.
pub(crate) trait Tell {
    /// Tells it.
    fn tell(&self, report: &mut String) -> Result<(), AllocError>;
}

/// Tells values, one after the other.
pub(crate) fn tell_each<T: Tell>(report: &mut String, values: &[T]) -> Result<(), AllocError> {
    for value in values {
        value.tell(report)?;
    }
    Ok(())
}

impl Tell for u32 {
    fn tell(&self, report: &mut String) -> Result<(), AllocError> {
        write!(report, "{self} ")
    }
}

impl<A: Tell, B: Tell> Tell for (A, B) {
    fn tell(&self, report: &mut String) -> Result<(), AllocError> {
        self.0.tell(report)?;
        self.1.tell(report)
    }
}

impl<T: Tell> Tell for Vec<T> {
    fn tell(&self, report: &mut String) -> Result<(), AllocError> {
        tell_each(report, self)
    }
}

impl<T: Tell> Tell for Arc<T> {
    fn tell(&self, report: &mut String) -> Result<(), AllocError> {
        let value: &T = self;
        value.tell(report)
    }
}

impl<T: Tell> Tell for Placed<T> {
    fn tell(&self, report: &mut String) -> Result<(), AllocError> {
        self.value.tell(report)
    }
}

impl Tell for BatchMembers {
    fn tell(&self, report: &mut String) -> Result<(), AllocError> {
        self.count.tell(report)?;
        self.columns.tell(report)
    }
}

impl Tell for Buffer {
    fn tell(&self, report: &mut String) -> Result<(), AllocError> {
        let bytes = self.bytes();
        write!(report, "{bytes:?} ")
    }
}

/// A column: its type, and then its slots.
impl Tell for Array {
    fn tell(&self, report: &mut String) -> Result<(), AllocError> {
        let ty = self.ty();
        write!(report, "{ty:?} ")?;
        tell_view(report, &self.view())
    }
}

impl Tell for Schema {
    fn tell(&self, report: &mut String) -> Result<(), AllocError> {
        let fields = self.fields();
        write!(report, "{fields:?}: ")
    }
}

impl Tell for RecordBatch {
    fn tell(&self, report: &mut String) -> Result<(), AllocError> {
        self.rows().tell(report)?;
        self.schema().tell(report)?;
        tell_each(report, self.columns())
    }
}

impl Tell for Ready {
    fn tell(&self, report: &mut String) -> Result<(), AllocError> {
        self.batch().tell(report)
    }
}

impl Tell for File {
    fn tell(&self, report: &mut String) -> Result<(), AllocError> {
        self.schema().tell(report)?;
        tell_each(report, self.batches())
    }
}

/// What is known of columns is told beside the batches.
impl Tell for Version {
    fn tell(&self, report: &mut String) -> Result<(), AllocError> {
        self.schema().tell(report)?;
        tell_book(report, self)?;
        tell_each(report, self.batches())?;
        tell_columns(report, self)
    }
}

/// More levels of lists than a type has.
const LEVELS: u32 = 16;

/// Tells the slots of a view, of lists those of their items too, and the codes and entries of what is encoded.
fn tell_view(report: &mut String, view: &View<'_>) -> Result<(), AllocError> {
    let mut level = view.slice(0, view.len());
    for _level in 0..LEVELS {
        tell_slots(report, &level)?;
        match level.ty() {
            ViewType::List(_, _) => level = level.lists().child,
            ViewType::Dict => {
                tell_slots(report, &level.codes())?;
                return tell_slots(report, &level.entries());
            }
            _ => return Ok(()),
        }
    }
    Ok(())
}

/// Tells the slots of a view, and of lists only how long they are.
fn tell_slots(report: &mut String, view: &View<'_>) -> Result<(), AllocError> {
    let len = view.len();
    let nulls = view.null_count();
    let has_validity = view.validity().is_some();
    write!(report, "{len} {nulls} {has_validity}: ")?;
    for i in 0..view.len() {
        tell_slot(report, view, i)?;
    }
    Ok(())
}

/// Tells a slot of a view, and of a list only how long it is.
fn tell_slot(report: &mut String, view: &View<'_>, i: usize) -> Result<(), AllocError>
    requires { i < length view.now.items }
{
    match view.ty() {
        ViewType::Int(_) => write!(report, "{:?} ", view.int_at(i)),
        ViewType::Bool => write!(report, "{:?} ", view.bool_at(i)),
        ViewType::Text(_) | ViewType::Dict => write!(report, "{:?} ", view.text_at(i)),
        ViewType::List(_, _) => {
            let length = view.list_at(i).map(|items| items.len());
            write!(report, "{length:?} ")
        }
    }
}

/// Tells the rows of a batch, whatever codes its texts have.
pub(crate) fn tell_rows(report: &mut String, batch: &RecordBatch) -> Result<(), AllocError> {
    let rows = batch.rows();
    write!(report, "{rows} rows: ")?;
    for column in batch.columns() {
        let view = column.view();
        match view.ty() {
            ViewType::Dict => tell_slots(report, &view)?,
            _ => tell_view(report, &view)?,
        }
    }
    Ok(())
}

/// Tells how many rows there are, and who added what.
fn tell_book(report: &mut String, version: &Version) -> Result<(), AllocError> {
    let rows = version.rows();
    write!(report, "{rows} rows: ")?;
    for i in 0..version.book_len() {
        write!(report, "{:?} ", version.book_at(i))?;
    }
    Ok(())
}

/// Tells what is known of columns.
fn tell_columns(report: &mut String, version: &Version) -> Result<(), AllocError> {
    for k in 0..version.schema().len() {
        tell_column(report, version, k)?;
    }
    Ok(())
}

/// Tells what is known of a column beside its batches: its dictionary and its statistics, and those of each batch.
fn tell_column(report: &mut String, version: &Version, k: usize) -> Result<(), AllocError> {
    if k >= version.schema().len() {
        return Ok(());
    }
    if let Some(words) = version.dictionary(k) {
        tell_view(report, &words.view())?;
    }
    write!(report, "{:?} ", version.stats(k))?;
    for b in 0..version.batches().len() {
        write!(report, "{:?} ", version.batch_stats(b, k))?;
    }
    Ok(())
}
