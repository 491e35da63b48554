//! A list of rows: those of a child that lists hold.

ghost use Rattle.std.specs.Prelude.{◌≡◌, ℕ, ◌+◌, ◌<◌, ◌≤◌, [], ◌∷◌, ◌++◌, None, Some, drop, map, length, slice_get, true, IfErr, IfSome, OnErr, OnOk};
ghost use Rattle.std.specs.List.{range_with_len};
ghost use Rattle.arrays.specs.Prelude.{is_past, most_slots};
ghost use Rattle.select.specs.Fault.{IsFull};

use crate::fault::SelectFault;
use crate::rows::{Place, Rows};
use arrays::{MOST_SLOTS, NoMemory};
use std::alloc::Global;
use std::marker::Model;

/// What is kept for no row.
const NONE: u32 = u32::MAX;

/// A row or none for each slot of a result.
#[derive(Drop)]
pub(crate) struct Picks {
    rows: Vec<u32>,
}

impl Model for Picks {
    ghost use Rattle.arrays.specs.Prelude.{most_slots};
    ghost use Rattle.std.specs.Prelude.{ℕ, ◌≤◌, List, Option, map, length};
    ghost use Rattle.select.specs.Picked.{pick_of};

    ghost Value = { List (Option ℕ) };

    ghost view = { λ p. map pick_of p.rows.items };

    ghost invariant = { λ p. length p.rows.items ≤ most_slots };
}

impl Picks {
    /// No slots.
    pub(crate) fn new(alloc: Global) -> Picks
        ensures { result ≡ [] }
    {
        Picks {
            rows: Vec::new(alloc),
        }
    }

    /// How many slots there are.
    fn len(&self) -> usize
        ensures count { result ≡ length self.now }
        ensures short { result ≤ most_slots }
    {
        self.rows.len()
    }

    /// The row of slot `j`, or none.
    #[inline(always)]
    fn get(&self, j: usize) -> Option<usize>
        requires { j < length self.now }
        ensures row { slice_get self.now j ≡ Some result }
        ensures short { j < most_slots }
    {
        let row = self.rows[j];
        if row == NONE {
            None
        } else {
            Some(row as usize)
        }
    }

    /// Adds a slot at the end.
    #[inline(always)]
    fn push(&mut self, pick: Option<usize>) -> Result<(), NoMemory>
        requires room { length self.old < most_slots }
        requires small { IfSome pick (λ i. i < most_slots) }
        ensures ok { OnOk result (self.new ≡ self.old ++ pick ∷ []) }
        ensures err { OnErr result (self.new ≡ self.old) }
    {
        let row = match pick {
            Some(row) => row as u32,
            None => NONE,
        };
        self.rows.push(row)?;
        Ok(())
    }

    /// Adds a slot for each of so many neighbouring rows.
    pub(crate) fn push_run(&mut self, start: usize, count: usize) -> Result<(), SelectFault>
        requires { start + count ≤ most_slots }
        ensures ok { OnOk result (self.new ≡ self.old ++ map (λ i. Some i) (range_with_len start count)) }
        ensures err { IfErr result (IsFull (is_past (length self.old + count))) }
    {
        if count > MOST_SLOTS - self.len() {
            return Err(SelectFault::OffsetsFull);
        }
        for i in start..start + count {
            self.push(Some(i))?;
        }
        Ok(())
    }
}

impl Rows for Picks {
    ghost picks = { λ p. p };

    ghost rest = { λ p place. drop place.at p };

    fn slots(&self) -> u32 {
        let len = self.len();
        len as u32
    }

    fn are_rows(&self) -> bool {
        for j in 0..self.len() {
            if self.get(j).is_none() {
                return false;
            }
        }
        true
    }

    fn first(&self) -> Place {
        Place { at: 0, ones: 0 }
    }

    #[inline(always)]
    fn next(&self, place: &mut Place) -> Option<usize> {
        let row = self.get(place.at as usize);
        place.at += 1;
        row
    }
}
