//! What is counted of each worker and of all together: the batches that the table took, their rows, and the columns added.

ghost use Rattle.std.specs.Prelude.{◌≡◌, ◌+◌, ◌≤◌};

use crate::naming::Naming;
use std::marker::PhantomData;
use std::sync::ledger::{Blank, Book, Ledger, Share};

/// The ledger of the workers' calls. No value of it is made.
#[derive(Drop)]
pub(crate) struct Calls<N: Naming> {
    of: PhantomData<N>,
}

impl<N: Naming> Ledger for Calls<N> {
    ghost name = { N.calls };

    ghost parts = { N.workers };
}

/// The ledger of the workers' rows. No value of it is made.
#[derive(Drop)]
pub(crate) struct Rows<N: Naming> {
    of: PhantomData<N>,
}

impl<N: Naming> Ledger for Rows<N> {
    ghost name = { N.rows };

    ghost parts = { N.workers };
}

/// The ledger of the workers' columns. No value of it is made.
#[derive(Drop)]
pub(crate) struct Columns<N: Naming> {
    of: PhantomData<N>,
}

impl<N: Naming> Ledger for Columns<N> {
    ghost name = { N.columns };

    ghost parts = { N.workers };
}

/// What a table's ledgers are made of: of the workers' calls, of their rows, and of their columns.
#[derive(Drop)]
pub(crate) struct Blanks {
    pub(crate) calls: Blank,
    pub(crate) rows: Blank,
    pub(crate) columns: Blank,
}

impl Blanks {
    /// Three ledgers, each with a part for each of so many workers.
    pub(crate) fn new(workers: u32) -> Blanks
        ensures { (result.calls.parts ≡ workers) × (result.rows.parts ≡ workers) × (result.columns.parts ≡ workers) }
    {
        let parts = u64::from(workers);
        Blanks {
            calls: Blank::new(parts),
            rows: Blank::new(parts),
            columns: Blank::new(parts),
        }
    }

    /// The books, and shares with all parts.
    pub(crate) fn open<N: Naming>(self) -> (Books<N>, Shares<N>)
        requires names { (self.calls.name ≡ N.calls) × (self.rows.name ≡ N.rows) × (self.columns.name ≡ N.columns) }
        requires parts { (self.calls.parts ≡ N.workers) × (self.rows.parts ≡ N.workers) × (self.columns.parts ≡ N.workers) }
        ensures totals { (result.0.calls.total ≡ 0) × (result.0.rows.total ≡ 0) × (result.0.columns.total ≡ 0) }
        ensures parts { (result.1.calls.parts ≡ N.workers) × (result.1.rows.parts ≡ N.workers) × (result.1.columns.parts ≡ N.workers) }
        ensures amounts { (result.1.calls.amount ≡ 0) × (result.1.rows.amount ≡ 0) × (result.1.columns.amount ≡ 0) }
    {
        let Blanks {
            calls,
            rows,
            columns,
        } = self;
        let (call_book, calls) = calls.open::<Calls<N>>();
        let (row_book, rows) = rows.open::<Rows<N>>();
        let (column_book, columns) = columns.open::<Columns<N>>();
        let books = Books {
            calls: call_book,
            rows: row_book,
            columns: column_book,
        };
        let shares = Shares {
            calls,
            rows,
            columns,
        };
        (books, shares)
    }
}

/// The books of the three ledgers.
#[derive(Drop)]
pub(crate) struct Books<N: Naming> {
    pub(crate) calls: Book<Calls<N>>,
    pub(crate) rows: Book<Rows<N>>,
    pub(crate) columns: Book<Columns<N>>,
}

/// A share of each of the three ledgers.
#[derive(Drop)]
pub(crate) struct Shares<N: Naming> {
    pub(crate) calls: Share<Calls<N>>,
    pub(crate) rows: Share<Rows<N>>,
    pub(crate) columns: Share<Columns<N>>,
}

impl<N: Naming> Shares<N> {
    /// One part of each, without an amount.
    pub(crate) fn split_one(&mut self) -> Shares<N>
        requires parts { (1 ≤ self.old.calls.parts) × (1 ≤ self.old.rows.parts) × (1 ≤ self.old.columns.parts) }
        requires nothing { (self.old.calls.amount ≡ 0) × (self.old.rows.amount ≡ 0) × (self.old.columns.amount ≡ 0) }
        ensures parts { (result.calls.parts ≡ 1) × (result.rows.parts ≡ 1) × (result.columns.parts ≡ 1) }
        ensures amounts { (result.calls.amount ≡ 0) × (result.rows.amount ≡ 0) × (result.columns.amount ≡ 0) }
        ensures left { (self.new.calls.parts + 1 ≡ self.old.calls.parts) × (self.new.rows.parts + 1 ≡ self.old.rows.parts) × (self.new.columns.parts + 1 ≡ self.old.columns.parts) }
        ensures nothing { (self.new.calls.amount ≡ 0) × (self.new.rows.amount ≡ 0) × (self.new.columns.amount ≡ 0) }
    {
        Shares {
            calls: self.calls.split_off(1, 0),
            rows: self.rows.split_off(1, 0),
            columns: self.columns.split_off(1, 0),
        }
    }
}
