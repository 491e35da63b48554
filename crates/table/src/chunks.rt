//! A long list that many hold, each with values of its own behind those that all have.

ghost use Rattle.std.specs.Prelude.{◌≡◌, ◌∷◌, ◌++◌, ◌<◌, ◌^◌, [], IfOk, Some, length, slice_get};
ghost use Rattle.std.specs.List.{AllZip};
ghost use Rattle.table.specs.Chunks.{AreCopies};

use crate::storage::all_shared;
use arrays::NoMemory;
use std::alloc::Global;
use std::marker::Model;
use std::sync::Arc;

/// How many values a full chunk has.
const CHUNK: usize = 128;

/// Values in chunks, which lists share. A list never changes: a value more makes another one, and copies one chunk at most
/// and the list of the chunks where one is full, however many values there are.
///
/// Clauses see the values, in order.
#[derive(Drop)]
pub(crate) struct Chunks<T> {
    /// The full chunks.
    full: Arc<Vec<Arc<Vec<T>>>>,
    /// The values behind them, fewer than a chunk's.
    last: Arc<Vec<T>>,
    /// How many values there are.
    len: usize,
}

impl<T> Model for Chunks<T> {
    ghost use Rattle.std.specs.Prelude.{List, map};
    ghost use Rattle.std.specs.Coded.{coded_list};

    ghost Value = { List T };

    ghost coded = { coded_list T.code };

    ghost use Rattle.std.specs.Arc.{arc_value};
    ghost use Rattle.table.specs.Chunks.{AreChunks, chunk_values};

    ghost view = { λ c. chunk_values (map arc_value (arc_value c.full).items) (arc_value c.last).items };

    ghost invariant = { λ c. AreChunks (map arc_value (arc_value c.full).items) (arc_value c.last).items c.len };
}

impl<T: Clone> Chunks<T> {
    /// No values.
    pub(crate) fn empty(alloc: Global) -> Result<Chunks<T>, NoMemory>
        ensures { IfOk result (λ c. c ≡ []) }
    {
        Chunks::of(alloc, Vec::new(alloc))
    }

    /// These values.
    pub(crate) fn of(alloc: Global, values: Vec<T>) -> Result<Chunks<T>, NoMemory>
        ensures { IfOk result (λ c. c ≡ values.items) }
    {
        let len = values.len();
        let mut full = Vec::new(alloc);
        let mut last = Vec::new(alloc);
        for value in values {
            last.push(value)?;
            if last.len() == CHUNK {
                full.push(Arc::new(alloc, last)?)?;
                last = Vec::new(alloc);
            }
        }
        Ok(Chunks {
            full: Arc::new(alloc, full)?,
            last: Arc::new(alloc, last)?,
            len,
        })
    }

    /// The same values: no chunk is copied.
    pub(crate) fn share(&self) -> Result<Chunks<T>, NoMemory>
        ensures { IfOk result (λ c. c ≡ self.now) }
    {
        Ok(Chunks {
            full: self.full.clone()?,
            last: self.last.clone()?,
            len: self.len,
        })
    }

    /// The same values and one behind them.
    pub(crate) fn with(&self, alloc: Global, value: T) -> Result<Chunks<T>, NoMemory>
        requires { length self.now < 2 ^ 32 }
        ensures { IfOk result (λ c. AreCopies T.is_clone (self.now ++ value ∷ []) c) }
    {
        let last = Arc::new(alloc, extended(alloc, &self.last, value)?)?;
        let len = self.len + 1;
        if last.len() < CHUNK {
            let full = self.full.clone()?;
            return Ok(Chunks { full, last, len });
        }
        let mut full = all_shared(alloc, &self.full, 1)?;
        full.push(last)?;
        Ok(Chunks {
            full: Arc::new(alloc, full)?,
            last: Arc::new(alloc, Vec::new(alloc))?,
            len,
        })
    }

    /// How many values there are.
    pub(crate) fn len(&self) -> usize
        ensures { result ≡ length self.now }
    {
        self.len
    }

    /// Value `i`.
    pub(crate) fn get(&self, i: usize) -> &T
        requires { i < length self.now }
        ensures { slice_get self.now i ≡ Some result.now }
    {
        let (chunk, place) = (i / CHUNK, i % CHUNK);
        if chunk < self.full.len() {
            &self.full[chunk][place]
        } else {
            &self.last[place]
        }
    }

    /// A copy of each value, in one list.
    pub(crate) fn to_vec(&self, alloc: Global) -> Result<Vec<T>, NoMemory>
        ensures { IfOk result (λ v. AllZip T.is_clone self.now v.items) }
    {
        let mut all = Vec::with_capacity(alloc, self.len)?;
        for i in 0..self.len {
            all.push(self.get(i).clone()?)?;
        }
        Ok(all)
    }
}

/// A copy of each value, and one behind them.
fn extended<T: Clone>(alloc: Global, values: &[T], value: T) -> Result<Vec<T>, NoMemory>
    ensures { IfOk result (λ v. AreCopies T.is_clone (values.now ++ value ∷ []) v.items) }
{
    let mut all = Vec::with_capacity(alloc, values.len().saturating_add(1))?;
    for one in values {
        all.push(one.clone()?)?;
    }
    all.push(value)?;
    Ok(all)
}
