//! What the workers of a table do, and what must come of it.

use crate::loading::{LOADED, SOAKED};
use loads::LoadFault;

/// A scene by its number. It names no text, as what is handed to a function over a table's publisher mustn't.
#[derive(Clone, Copy, Debug)]
pub(crate) enum Place {
    /// Files are loaded.
    Loaded(usize),
    /// Workers append for long.
    Soaked(usize),
}

impl Place {
    /// The scene; none behind the last.
    pub(crate) fn scene(self) -> Option<&'static Scene> {
        match self {
            Place::Loaded(number) => LOADED.get(number),
            Place::Soaked(number) => SOAKED.get(number),
        }
    }
}

/// A table, and what its workers do.
#[derive(Drop)]
pub(crate) struct Scene {
    /// A file of the table's fields.
    pub(crate) file: &'static str,
    pub(crate) workers: u32,
    pub(crate) readers: u32,
    pub(crate) steps: &'static [Step],
    /// What they do behind the steps.
    pub(crate) soak: Option<Soak>,
    pub(crate) end: End,
}

/// What workers do.
#[derive(Drop)]
pub(crate) enum Step {
    /// They load files, pass the gate so often, and are answered so.
    Load(Files, Passed, Answer),
    /// They change places.
    Reverse,
    /// The worker at the place adds a column of this name.
    Add(usize, &'static str),
}

/// So many workers append so many batches each, while the others join these, readers look on, and the first worker adds so many
/// columns.
#[derive(Clone, Copy)]
pub(crate) struct Soak {
    pub(crate) count: u32,
    pub(crate) turns: u32,
    pub(crate) columns: u32,
}

/// Files that are loaded.
#[derive(Clone, Copy)]
pub(crate) enum Files {
    Texts(&'static [&'static str]),
    /// So many files of so many batches of a number each, which go on from a thousand times the file's own.
    Numbers(u32, u32),
}

/// How often the first two workers pass the gate.
#[derive(Clone, Copy)]
pub(crate) enum Passed {
    Free(u64, u64),
    /// The first waits there until the second has come.
    Held(u64, u64),
}

/// What is answered.
#[derive(Clone, Copy)]
pub(crate) enum Answer {
    /// So many receipts, of which the last entry has this number.
    Loaded(usize, u32),
    /// A fault, and how it is printed.
    Fault(LoadFault, &'static str),
}

/// The numbers of a batch.
pub(crate) type Numbers = &'static [Option<i128>];

/// What the workers have appended in the end, and nobody any other.
#[derive(Drop)]
pub(crate) enum End {
    /// These batches, worker by worker.
    Numbers(&'static [&'static [Numbers]]),
    /// So many workers appended so many batches of a number each, which go on from a thousand times the worker's own.
    Counted(u32, u32),
}
