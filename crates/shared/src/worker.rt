//! Those who append to a table.

ghost use Rattle.std.specs.Prelude.{◌≡◌, ◌+◌, ◌-◌, ◌<◌, ◌^◌, [], IfOk, None, OnOk, Some, length};
ghost use mathlib.Core.List.{IsPrefix};
ghost use Rattle.arrays.specs.Batch.{rows_of};
ghost use Rattle.shared.specs.Changes.{known_after};
ghost use Rattle.shared.specs.Hand.{AreNew, Hand, IsLeft, IsNew, IsWorkerOf, calls_of_hand, having_added, having_counted, having_seen, rows_of_hand};
ghost use Rattle.shared.specs.Known.{IsBeginning, IsLegalKnown};
ghost use Rattle.table.specs.Widened.{widened};

use crate::ledgers::{Books, Columns, Shares};
use crate::naming::{Accepted, Event, Naming};
use crate::outcome::Outcome;
use arrays::NoMemory;
use histories::{Front, Own};
use std::alloc::Global;
use std::marker::Model;
use std::sync::Wait;
use std::sync::ledger::Book;

/// One of those who append to a table, each in a thread of its own.
///
/// Clauses see its number, the fields and the history that it has seen, the entries of it that it added itself, under these
/// fields, and what was left with it.
#[derive(Drop)]
pub struct Worker<N: Naming> {
    pub(crate) number: u32,
    pub(crate) call_count: u32,
    pub(crate) row_count: u64,
    pub(crate) column_count: u64,
    pub(crate) shares: Shares<N>,
    pub(crate) seen: Front<Event, N>,
    pub(crate) mine: Own<Event>,
    pub(crate) left: Option<Outcome<N>>,
}

impl<N: Naming> Model for Worker<N> {
    ghost use Rattle.shared.specs.Hand.{Hand, hand_code};

    ghost Value = { Hand };

    ghost coded = { hand_code };

    ghost use Rattle.std.specs.Prelude.{◌≡◌, ◌<◌, length};
    ghost use Rattle.shared.specs.Changes.{fields_after, known_after, pairs_in};
    ghost use Rattle.shared.specs.Known.{IsLegalKnown};
    ghost use Rattle.shared.specs.Parts.{InOrder};
    ghost use Rattle.table.specs.Prelude.{of, rows, widened};

    ghost view = { λ w. record {
      number = w.number;
      seen = known_after N.fields w.seen;
      mine = widened (length (fields_after N.fields w.seen)) (pairs_in w.mine);
      columns = w.column_count;
      left = w.left;
    } };

    ghost invariant = { λ w. record {
      call_count : w.call_count ≡ w.shares.calls.amount;
      row_count : w.row_count ≡ w.shares.rows.amount;
      column_count : w.column_count ≡ w.shares.columns.amount;
      call_part : w.shares.calls.parts ≡ 1;
      row_part : w.shares.rows.parts ≡ 1;
      column_part : w.shares.columns.parts ≡ 1;
      number : w.number < N.workers;
      own_calls : length (pairs_in w.mine) ≡ w.shares.calls.amount;
      own_rows : length (rows (pairs_in w.mine)) ≡ w.shares.rows.amount;
      order : InOrder (widened (length (fields_after N.fields w.seen)) (pairs_in w.mine)) (of (known_after N.fields w.seen).history w.number);
      legal : IsLegalKnown (known_after N.fields w.seen);
    } };
}

impl<N: Naming> Worker<N> {
    /// A worker that added nothing yet, with a part of each ledger, and that knows of the opening fields alone.
    fn new(number: u32, shares: Shares<N>, seen: Front<Event, N>) -> Worker<N>
        requires number { number < N.workers }
        requires calls { (shares.calls.parts ≡ 1) × (shares.calls.amount ≡ 0) }
        requires rows { (shares.rows.parts ≡ 1) × (shares.rows.amount ≡ 0) }
        requires columns { (shares.columns.parts ≡ 1) × (shares.columns.amount ≡ 0) }
        requires seen { seen ≡ [] }
        ensures { IsNew N.fields number result }
    {
        Worker {
            number,
            call_count: 0,
            row_count: 0,
            column_count: 0,
            shares,
            seen,
            mine: Own::new(),
            left: None,
        }
    }

    /// Which of the table's workers it is, from 0.
    pub fn number(&self) -> u32
        ensures { result ≡ self.now.number }
    {
        self.number
    }

    /// How many rows it appended.
    pub fn rows(&self) -> u64
        ensures { result ≡ rows_of_hand self.now }
    {
        self.row_count
    }

    /// How many of its calls were accepted.
    pub fn calls(&self) -> u32
        ensures { result ≡ calls_of_hand self.now }
    {
        self.call_count
    }

    /// Leaves how far it came, in place of what was left before.
    pub fn leave(&mut self, outcome: Outcome<N>)
        ensures { IsLeft (Some outcome) self.old self.new }
    {
        self.left = Some(outcome);
    }

    /// Takes what was left last, and leaves nothing.
    pub fn take_left(&mut self) -> Option<Outcome<N>>
        ensures left { result ≡ self.old.left }
        ensures none { IsLeft None self.old self.new }
    {
        self.left.take()
    }

    /// What stands of it always: the fields that it has seen begin with those at opening, the history that it has seen is
    /// legal, and its own entries stand in it in their order, with as many items in a row as it has seen fields.
    pub fn tell(&self)
        ensures opened { IsPrefix N.fields self.now.seen.fields }
        ensures legal { IsLegalKnown self.now.seen }
        ensures part { IsWorkerOf N.workers self.now.seen self.now }
        ensures wide { widened (length self.now.seen.fields) self.now.mine ≡ self.now.mine }
    {
        let _number = self.number;
    }

    /// Sees what is known by a front, once it begins with all that the worker has seen, as it does at once where it isn't
    /// shorter.
    pub(crate) fn see<W: Wait>(&mut self, wait: &W, front: &Front<Event, N>)
        requires { IsLegalKnown (known_after N.fields front.now) }
        ensures begun { IsBeginning self.old.seen (known_after N.fields front.now) }
        ensures seen { self.new ≡ having_seen (known_after N.fields front.now) self.old }
    {
        begin(wait, &self.seen, front);
        self.seen = front.again();
    }

    /// Counts an accepted batch, in the books too. By the front it stands behind all that the worker has seen.
    pub(crate) fn raise(
        &mut self,
        books: &mut Books<N>,
        front: &Front<Event, N>,
        accepted: &Accepted<'_>,
    )
        requires calls { books.old.calls.total < 2 ^ 32 - 1 }
        requires rows { books.old.rows.total + accepted.now.batch.now.rows < 2 ^ 64 }
        requires number { accepted.now.worker ≡ self.old.number }
        requires front { known_after N.fields front.now ≡ (having_added (rows_of accepted.now.batch.now) self.old).seen }
        requires legal { IsLegalKnown (known_after N.fields front.now) }
        ensures raised { self.new ≡ having_added (rows_of accepted.now.batch.now) self.old }
        ensures call_total { books.new.calls.total ≡ books.old.calls.total + 1 }
        ensures row_total { books.new.rows.total ≡ books.old.rows.total + accepted.now.batch.now.rows }
        ensures column_total { books.new.columns.total ≡ books.old.columns.total }
    {
        let rows = u64::from(accepted.batch.rows());
        books.calls.audit(&mut self.shares.calls);
        books.rows.audit(&mut self.shares.rows);
        books.calls.add(&mut self.shares.calls, 1);
        books.rows.add(&mut self.shares.rows, rows);
        self.call_count += 1;
        self.row_count += rows;
        self.mine.add(accepted);
        self.seen = front.again();
    }

    /// Counts a column that it added, in the book too.
    pub(crate) fn count_column(&mut self, book: &mut Book<Columns<N>>)
        requires { book.old.total < 2 ^ 62 }
        ensures counted { self.new ≡ having_counted self.old }
        ensures total { book.new.total ≡ book.old.total + 1 }
    {
        book.audit(&mut self.shares.columns);
        book.add(&mut self.shares.columns, 1);
        self.column_count += 1;
    }
}

/// Returns once the first front begins the second, as the shorter of two fronts does at once.
pub(crate) fn begin<W: Wait, N: Naming>(wait: &W, seen: &Front<Event, N>, front: &Front<Event, N>)
    ensures { IsPrefix seen.now front.now }
{
    for _ in wait.forever() {
        if seen.begins(front) {
            break;
        }
    }
}

/// So many workers, each with a part of each share, that know of the opening fields alone.
#[tactic(auto, using(crate::proofs::HandLemmas::new_push))]
pub(crate) fn new_workers<N: Naming>(
    alloc: Global,
    count: u32,
    shares: &mut Shares<N>,
    front: &Front<Event, N>,
) -> Result<Vec<Worker<N>>, NoMemory>
    requires parts { (shares.old.calls.parts ≡ count) × (shares.old.rows.parts ≡ count) × (shares.old.columns.parts ≡ count) }
    requires count { count ≡ N.workers }
    requires nothing { (shares.old.calls.amount ≡ 0) × (shares.old.rows.amount ≡ 0) × (shares.old.columns.amount ≡ 0) }
    requires front { front.now ≡ [] }
    ensures count { IfOk result (λ v. length v.items ≡ count) }
    ensures new { IfOk result (λ v. AreNew N.fields 0 v.items) }
    ensures no_parts { OnOk result ((shares.new.calls.parts ≡ 0) × (shares.new.rows.parts ≡ 0) × (shares.new.columns.parts ≡ 0)) }
    ensures no_amounts { OnOk result ((shares.new.calls.amount ≡ 0) × (shares.new.rows.amount ≡ 0) × (shares.new.columns.amount ≡ 0)) }
{
    let mut workers = Vec::with_capacity(alloc, count as usize)?;
    for number in 0..count {
        let own = shares.split_one();
        workers.push(Worker::new(number, own, front.again()))?;
    }
    Ok(workers)
}
