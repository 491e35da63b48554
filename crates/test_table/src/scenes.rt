//! What is done with a table, step by step, and what must come of it.

use crate::admitting::{ADDED, REFUSED};
use crate::alone::play_alone;
use crate::appending::APPENDED;
use crate::facts::Facts;
use crate::joining::JOINED;
use crate::opening::OPENED;
use crate::played::play;
use crate::reading::READ;
use crate::widening::{TYPED, WIDENED};
use arrays::{DataType, Field, IntType};
use shared::{AddFault, OpenFault, Refusal};
use std::alloc::Global;
use std::process::Abort;
use std::sync::Wait;
use std::test::Fail;
use test_samples::{Batch, WIDE_IN_NARROW, field, lists_of};

/// A table, and what is done with it.
#[derive(Drop)]
pub(crate) struct Scene {
    /// A batch of the table's fields.
    pub(crate) fields: Batch,
    pub(crate) workers: u32,
    pub(crate) readers: u32,
    pub(crate) steps: &'static [Step],
    pub(crate) end: End,
}

/// What somebody does. Workers, readers and receipts are named by their numbers.
#[derive(Drop)]
pub(crate) enum Step {
    /// A worker appends a batch, and is answered so.
    Append(u32, Batch, Result<u32, Refusal>),
    /// The workers append these batches by turns.
    Turns(&'static [Batch]),
    /// Each worker appends this batch, and each reader then sees so many rows.
    Each(Batch, u64),
    /// A worker joins neighbouring batches up to so many rows, and is shown this.
    Join(u32, u32, Facts),
    /// A worker adds a column, and is answered so.
    Add(u32, Column, Result<(), AddFault>),
    /// A worker looks, and is shown this.
    Look(u32, Facts),
    /// So does a reader.
    Latest(u32, Facts),
    /// A reader is given a receipt of those before.
    Learn(u32, usize),
    /// A worker has had so many calls accepted, of so many rows together.
    Owns(u32, u32, u64),
}

/// How a scene ends.
#[derive(Drop)]
pub(crate) enum End {
    /// There is no table.
    Unopened(OpenFault),
    Closed,
    /// The table is gathered, and shows this.
    Gathered(Facts),
}

/// A field: its name, whether it may hold nulls, and how many lists there are over its type.
pub(crate) type Column = (&'static str, bool, usize, Flat);

/// A type without children.
#[derive(Clone, Copy)]
pub(crate) enum Flat {
    Int(IntType),
    Bool,
    Utf8,
    LargeUtf8,
    Dict,
}

/// The field of a column.
pub(crate) fn field_of(alloc: Global, column: Column) -> Result<Field, Fail> {
    let (name, nullable, lists, flat) = column;
    let ty = match flat {
        Flat::Int(int) => DataType::Int(int),
        Flat::Bool => DataType::Bool,
        Flat::Utf8 => DataType::Utf8,
        Flat::LargeUtf8 => DataType::LargeUtf8,
        Flat::Dict => DataType::Dict,
    };
    field(
        alloc,
        name,
        nullable,
        lists_of(alloc, WIDE_IN_NARROW, lists, ty)?,
    )
}

/// The scenes of a test.
#[derive(Clone, Copy)]
pub(crate) enum Group {
    Added,
    Refused,
    Appended,
    Joined,
    Opened,
    Read,
    Widened,
    Typed,
}

impl Group {
    /// These scenes.
    fn scenes(self) -> &'static [Scene] {
        match self {
            Group::Added => &ADDED,
            Group::Refused => &REFUSED,
            Group::Appended => &APPENDED,
            Group::Joined => &JOINED,
            Group::Opened => &OPENED,
            Group::Read => &READ,
            Group::Widened => &WIDENED,
            Group::Typed => &TYPED,
        }
    }
}

/// A scene by its place. It names no text, as what is handed to a function over a table's publisher mustn't.
#[derive(Clone, Copy)]
pub(crate) struct Place {
    pub(crate) group: Group,
    pub(crate) number: usize,
}

impl Place {
    /// The scene; none behind the last.
    pub(crate) fn scene(self) -> Option<&'static Scene> {
        self.group.scenes().get(self.number)
    }
}

/// Asserts that each scene goes as it must, on a table of one thread too.
pub(crate) fn expect<R: Wait + Abort>(rt: &R, alloc: Global, group: Group) -> Result<(), Fail> {
    for number in 0..group.scenes().len() {
        let place = Place { group, number };
        let alone = play_alone(alloc, place)?;
        let shared = play(rt, alloc, place)?;
        assert!(rt;
            alone.is_none() && shared.is_none(),
            "scene {number}, step {alone:?} or {shared:?}"
        );
    }
    Ok(())
}
