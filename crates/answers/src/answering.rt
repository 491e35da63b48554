//! Queries over batches.

ghost use Rattle.std.specs.Prelude.{◌≡◌, ◌≤◌, ◌^◌, All, IfErr, IfOk, length, map, true};
ghost use Rattle.std.specs.Arc.{arc_value};
ghost use Rattle.arrays.specs.Prelude.{Batch, kind_of_field};
ghost use Rattle.query.specs.Prelude.{fits, query_shape};
ghost use Rattle.answers.specs.Answers.{IsAnswer, IsRefusal, all_rows, first_fields};

use crate::common::common_texts;
use crate::counting::count_all;
use crate::cuts::Cuts;
use crate::groups::Answer;
use crate::piece::{look_at_one, look_at_pieces};
use crate::scan::Scan;
use crate::telling::{tell_groups, tell_in_turn};
use arrays::RecordBatch;
use crews::Gate;
use query::{Query, QueryFault};
use std::alloc::Global;
use std::sync::Arc;
use std::thread::Threads;

/// What a query answers over the rows of all batches, one batch after the other.
///
/// The batches are of the same types, whatever their fields' names, and the query fits each of them, which no batches meet too. The
/// groups stand in order of first appearance; a query without keys has one group, also over no rows.
/// The rows are cut into so many neighbouring pieces, from 1 to 64, within batches too, and each is looked at in a thread of its own.
/// It passes the `gate` once, as its piece's work number 0, before its first row, where the piece has none too. The number of pieces
/// changes nothing of the answer.
///
/// # Errors
/// `Overflow` with the least of all rows where a part of the filter is outside its type, whatever stands round that part;
/// `NoMemory` where a growth was refused.
pub fn answer<T: Threads + Sync, G: Gate>(
    threads: &T,
    alloc: Global,
    batches: &[Arc<RecordBatch>],
    query: &Query,
    pieces: u32,
    gate: &G,
) -> Result<Answer, QueryFault>
    requires types { All (λ (b : Batch). map kind_of_field b.fields ≡ map kind_of_field (first_fields (map arc_value batches.now)))
        (map arc_value batches.now) }
    requires fits { All (λ (b : Batch). fits b.fields (query_shape query.now) ≡ true) (map arc_value batches.now) }
    requires few { length (all_rows (map arc_value batches.now)) ≤ 2 ^ 40 }
    requires one { 1 ≤ pieces }
    requires most { pieces ≤ 64 }
    ensures ok { IfOk result (IsAnswer (first_fields (map arc_value batches.now))
        (query_shape query.now) (all_rows (map arc_value batches.now))) }
    ensures err { IfErr result (IsRefusal (first_fields (map arc_value batches.now))
        (query_shape query.now) (all_rows (map arc_value batches.now))) }
{
    if pieces == 1 {
        gate.pass(0, 0);
        return answer_alone(alloc, batches, query);
    }
    let rows = count_all(batches, query);
    let common = common_texts(alloc, batches, query)?;
    let cuts = Cuts { rows, pieces };
    let scan = Scan {
        alloc,
        batches,
        query,
        common: &common,
        cuts,
        gate,
    };
    let whole = look_at_pieces(threads, &scan, 0, pieces)?;
    let groups = tell_groups(threads, alloc, &whole, 0, whole.keys.len(), pieces)?;
    Ok(Answer { groups })
}

/// The gate of one piece alone: there is nobody to wait for, or to give a turn to.
#[derive(Drop)]
struct Alone;

impl Gate for Alone {
    fn pass(&self, _place: u32, _call: u32) {}

    fn turn(&self) {}
}

/// The same in one piece, for whoever may start no thread: nothing that is called here starts one or gives others a turn.
///
/// # Errors
/// As `answer`.
pub fn answer_alone(
    alloc: Global,
    batches: &[Arc<RecordBatch>],
    query: &Query,
) -> Result<Answer, QueryFault>
    requires types { All (λ (b : Batch). map kind_of_field b.fields ≡ map kind_of_field (first_fields (map arc_value batches.now)))
        (map arc_value batches.now) }
    requires fits { All (λ (b : Batch). fits b.fields (query_shape query.now) ≡ true) (map arc_value batches.now) }
    requires few { length (all_rows (map arc_value batches.now)) ≤ 2 ^ 40 }
    ensures ok { IfOk result (IsAnswer (first_fields (map arc_value batches.now))
        (query_shape query.now) (all_rows (map arc_value batches.now))) }
    ensures err { IfErr result (IsRefusal (first_fields (map arc_value batches.now))
        (query_shape query.now) (all_rows (map arc_value batches.now))) }
{
    let rows = count_all(batches, query);
    let common = common_texts(alloc, batches, query)?;
    let cuts = Cuts { rows, pieces: 1 };
    let scan = Scan {
        alloc,
        batches,
        query,
        common: &common,
        cuts,
        gate: &Alone,
    };
    let whole = look_at_one(&scan, 0)?;
    let groups = tell_in_turn(alloc, &whole, 0, whole.keys.len())?;
    Ok(Answer { groups })
}
