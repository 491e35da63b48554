//! The shares of all workers put together, and given back.

ghost use Rattle.std.specs.Prelude.{◌≡◌, ◌+◌, ◌≤◌, length, sum_by};
ghost use Rattle.shared.specs.Hand.{calls_of_hand, columns_of_hand, rows_of_hand};

use crate::ledgers::{Books, Shares};
use crate::naming::Naming;
use crate::worker::Worker;

/// Tells what the books' totals are, where the shares and those of the workers have all parts. Nothing changes: each worker
/// lends what it has, and gets it back.
pub(crate) fn tell_totals<N: Naming>(
    books: &mut Books<N>,
    shares: &mut Shares<N>,
    workers: &mut [Worker<N>],
)
    requires call_parts { (shares.old.calls.parts ≤ N.workers) × (N.workers ≤ shares.old.calls.parts + length workers.old) }
    requires row_parts { (shares.old.rows.parts ≤ N.workers) × (N.workers ≤ shares.old.rows.parts + length workers.old) }
    requires column_parts { (shares.old.columns.parts ≤ N.workers) × (N.workers ≤ shares.old.columns.parts + length workers.old) }
    ensures workers { workers.new ≡ workers.old }
    ensures few { shares.old.calls.parts + length workers.old ≤ N.workers }
    ensures call_share { (shares.new.calls.parts ≡ shares.old.calls.parts) × (shares.new.calls.amount ≡ shares.old.calls.amount) }
    ensures row_share { (shares.new.rows.parts ≡ shares.old.rows.parts) × (shares.new.rows.amount ≡ shares.old.rows.amount) }
    ensures column_share { (shares.new.columns.parts ≡ shares.old.columns.parts) × (shares.new.columns.amount ≡ shares.old.columns.amount) }
    ensures totals { (books.new.calls.total ≡ books.old.calls.total) × (books.new.rows.total ≡ books.old.rows.total) × (books.new.columns.total ≡ books.old.columns.total) }
    ensures call_total { books.old.calls.total ≡ shares.old.calls.amount + sum_by calls_of_hand workers.old }
    ensures row_total { books.old.rows.total ≡ shares.old.rows.amount + sum_by rows_of_hand workers.old }
    ensures column_total { books.old.columns.total ≡ shares.old.columns.amount + sum_by columns_of_hand workers.old }
{
    books.calls.audit(&mut shares.calls);
    books.rows.audit(&mut shares.rows);
    books.columns.audit(&mut shares.columns);
    let Some((first, rest)) = workers.split_first_mut() else {
        return;
    };
    let Worker {
        number: _,
        call_count,
        row_count,
        column_count,
        shares: own,
        ..
    } = first;
    let (call_count, row_count, column_count) = (u64::from(*call_count), *row_count, *column_count);
    own.calls.give(&mut shares.calls, 1, call_count);
    own.rows.give(&mut shares.rows, 1, row_count);
    own.columns.give(&mut shares.columns, 1, column_count);
    tell_totals(books, shares, rest);
    shares.calls.give(&mut own.calls, 1, call_count);
    shares.rows.give(&mut own.rows, 1, row_count);
    shares.columns.give(&mut own.columns, 1, column_count);
}
