//! What an expression is at some rows.

ghost use Rattle.std.specs.Prelude.{◌≡◌, ◌+◌, ◌≤◌, length};

use arrays::{Array, View};

/// Neighbouring slots of an array.
#[derive(Clone, Copy)]
pub struct Slots<'a> {
    pub array: &'a Array,
    pub start: usize,
    pub len: usize,
    ghost within: { start + len ≤ length array.now.items },
}

impl<'a> Slots<'a> {
    ghost use Rattle.evaluate.specs.Slices.{slots_of};

    /// The slots.
    pub fn view(&self) -> View<'a>
        ensures { result ≡ slots_of self.now }
    {
        self.array.view().slice(self.start, self.len)
    }
}

/// A column of values.
#[derive(Drop)]
pub enum Operand<'a> {
    /// Slots of a batch.
    Borrowed(Slots<'a>),
    Made(Array),
}

impl<'a> Operand<'a> {
    ghost use Rattle.evaluate.specs.Slices.{column_of};

    /// The slots.
    pub fn view(&self) -> View<'_>
        ensures { result ≡ column_of self.now }
    {
        if let Operand::Made(array) = self {
            return array.view();
        }
        if let Operand::Borrowed(slots) = self {
            return slots.view();
        }
        unreachable!()
    }
}

/// What an expression is at some rows.
#[derive(Drop)]
pub enum Values<'a> {
    /// This number at each of them. Its type is that of what stands beside it.
    Number(i128),
    /// This text at each of them.
    Text(&'a str),
    Column(Operand<'a>),
}
