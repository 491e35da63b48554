//! The book of a table: who added how many rows, call by call.

ghost use Rattle.std.specs.Prelude.{◌≡◌, ◌∷◌, ◌++◌, ◌<◌, ◌^◌, [], IfOk, Some, length, slice_get};
ghost use Rattle.table.specs.Book.{pair_of};

use crate::chunks::Chunks;
use crate::entry::Entry;
use arrays::NoMemory;
use std::alloc::Global;
use std::marker::Model;

/// Entries that books share. A book never changes: an entry more makes another one.
///
/// Clauses see each entry's worker and rows, in order.
#[derive(Drop)]
pub(crate) struct Book {
    entries: Chunks<Entry>,
}

impl Model for Book {
    ghost use Rattle.std.specs.Prelude.{List, ℕ, map};
    ghost use Rattle.std.specs.Coded.{coded×, coded_list, coded_ℕ};

    ghost Value = { List (ℕ × ℕ) };

    ghost coded = { coded_list (coded× coded_ℕ coded_ℕ) };

    ghost use Rattle.table.specs.Book.{pair_of};

    ghost view = { λ b. map pair_of b.entries };
}

impl Book {
    /// No entries.
    pub(crate) fn empty(alloc: Global) -> Result<Book, NoMemory>
        ensures { IfOk result (λ b. b ≡ []) }
    {
        let entries = Chunks::empty(alloc)?;
        Ok(Book { entries })
    }

    /// The same entries.
    pub(crate) fn share(&self) -> Result<Book, NoMemory>
        ensures { IfOk result (λ b. b ≡ self.now) }
    {
        let entries = self.entries.share()?;
        Ok(Book { entries })
    }

    /// The same entries and one behind them.
    pub(crate) fn with_entry(&self, alloc: Global, entry: Entry) -> Result<Book, NoMemory>
        requires { length self.now < 2 ^ 32 }
        ensures { IfOk result (λ b. b ≡ self.now ++ pair_of entry ∷ []) }
    {
        let entries = self.entries.with(alloc, entry)?;
        Ok(Book { entries })
    }

    /// How many entries there are.
    pub(crate) fn len(&self) -> usize
        ensures { result ≡ length self.now }
    {
        self.entries.len()
    }

    /// Entry `i`.
    pub(crate) fn get(&self, i: usize) -> Entry
        requires { i < length self.now }
        ensures { slice_get self.now i ≡ Some (pair_of result) }
    {
        *self.entries.get(i)
    }
}
