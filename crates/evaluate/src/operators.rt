//! Operators over the values of their operands.

ghost use Rattle.std.specs.Prelude.{◌≡◌, ◌≤◌, true, is_some, length, IfOk, IfErr};
ghost use Rattle.arrays.specs.Item as item;
ghost use Rattle.arrays.specs.Prelude.{item_at, most_slots};
ghost use Rattle.query.specs.Sorts as sorts;
ghost use Rattle.query.specs.declared.sort.Sort.TheVariants as sort;
ghost use Rattle.query.specs.Sorts.{sort_of_kind, sort_of_one, sort_of_two};
ghost use Rattle.evaluate.specs.Value.{of_one, of_two};
ghost use Rattle.evaluate.specs.Making.{AreMade, StopsMaking};
ghost use Rattle.evaluate.specs.Slices.{AreEnough, column_of, item_in, sort_in};

use crate::constant::{repeated_number, repeated_truth};
use crate::stop::Stop;
use crate::text::{compare_texts, compare_with_text};
use crate::values::{Operand, Values};
use crate::{columns, number};
use arrays::{INT64, View};
use query::Op;
use std::alloc::Global;

/// What an operator makes of one operand.
pub(crate) fn of_one<'a>(
    alloc: Global,
    op: Op,
    operand: Values<'a>,
    len: usize,
) -> Result<Values<'a>, Stop>
    requires short { len ≤ most_slots }
    requires sort { is_some (sort_of_one op (sort_in operand)) ≡ true }
    requires enough { AreEnough len operand }
    ensures ok { IfOk result (AreMade (sort_of_one op (sort_in operand.entry)) (λ i. of_one op (item_in operand.entry i)) len) }
    ensures err { IfErr result (λ e. e ≡ Stop.NoMemory) }
{
    match operand {
        Values::Column(column) => of_column(alloc, op, &column),

        // A literal isn't null.
        Values::Number(_) | Values::Text(_) => {
            let array = repeated_truth(alloc, false, len)?;
            Ok(Values::Column(Operand::Made(array)))
        }
    }
}

/// What an operator makes of a column.
fn of_column<'a>(alloc: Global, op: Op, column: &Operand<'_>) -> Result<Values<'a>, Stop>
    requires { is_some (sorts.of_one op (sort_of_kind (column_of column.now).kind)) ≡ true }
    ensures ok { IfOk result (AreMade (sorts.of_one op (sort_of_kind (column_of column.now).kind))
        (λ i. of_one op (item_at (column_of column.now).items i)) (length (column_of column.now).items)) }
    ensures err { IfErr result (λ e. e ≡ Stop.NoMemory) }
{
    match op {
        Op::Not => columns::not(alloc, &column.view()),
        Op::IsNull => columns::is_null(alloc, &column.view()),
        _ => unreachable!(),
    }
}

/// What an operator makes of two operands.
pub(crate) fn of_two<'a>(
    alloc: Global,
    op: Op,
    left: Values<'a>,
    right: Values<'a>,
    len: usize,
) -> Result<Values<'a>, Stop>
    requires short { len ≤ most_slots }
    requires sort { is_some (sort_of_two op (sort_in left) (sort_in right)) ≡ true }
    requires left { AreEnough len left }
    requires right { AreEnough len right }
    ensures ok { IfOk result (AreMade (sort_of_two op (sort_in left.entry) (sort_in right.entry)) (λ i. of_two op (item_in left.entry i) (item_in right.entry i)) len) }
    ensures err { IfErr result (StopsMaking (sort_of_two op (sort_in left.entry) (sort_in right.entry)) (λ i. of_two op (item_in left.entry i) (item_in right.entry i)) len) }
{
    match left {
        Values::Number(number) => behind_number(alloc, op, number, right, len),
        Values::Text(text) => behind_text(alloc, op, text, right, len),
        Values::Column(column) => behind_column(alloc, op, &column.view(), right),
    }
}

/// What an operator makes of a text and what stands behind it.
fn behind_text<'a>(
    alloc: Global,
    op: Op,
    text: &str,
    right: Values<'_>,
    len: usize,
) -> Result<Values<'a>, Stop>
    requires short { len ≤ most_slots }
    requires sort { is_some (sort_of_two op sort.Text (sort_in right)) ≡ true }
    requires enough { AreEnough len right }
    ensures ok { IfOk result (AreMade (sort_of_two op sort.Text (sort_in right.entry)) (λ i. of_two op (item.text text.now) (item_in right.entry i)) len) }
    ensures err { IfErr result (λ e. e ≡ Stop.NoMemory) }
{
    match right {
        Values::Text(right) => compare_texts(alloc, op, text, right, len),
        Values::Column(right) => compare_with_text(alloc, op, &right.view(), text, true),
        Values::Number(_) => unreachable!(),
    }
}

/// What an operator makes of a column and what stands behind it.
fn behind_column<'a>(
    alloc: Global,
    op: Op,
    column: &View<'_>,
    right: Values<'_>,
) -> Result<Values<'a>, Stop>
    requires sort { is_some (sort_of_two op (sort_of_kind column.now.kind) (sort_in right)) ≡ true }
    requires enough { AreEnough (length column.now.items) right }
    ensures ok { IfOk result (AreMade (sort_of_two op (sort_of_kind column.now.kind) (sort_in right.entry)) (λ i. of_two op (item_at column.now.items i) (item_in right.entry i)) (length column.now.items)) }
    ensures err { IfErr result (StopsMaking (sort_of_two op (sort_of_kind column.now.kind) (sort_in right.entry)) (λ i. of_two op (item_at column.now.items i) (item_in right.entry i)) (length column.now.items)) }
{
    match right {
        Values::Number(number) => number::of_two(alloc, op, column, number, false),
        Values::Text(text) => compare_with_text(alloc, op, column, text, false),
        Values::Column(right) => columns::of_two(alloc, op, column, &right.view()),
    }
}

/// What an operator makes of a number and what stands behind it.
fn behind_number<'a>(
    alloc: Global,
    op: Op,
    number: i128,
    right: Values<'_>,
    len: usize,
) -> Result<Values<'a>, Stop>
    requires short { len ≤ most_slots }
    requires sort { is_some (sort_of_two op (sort.Literal number) (sort_in right)) ≡ true }
    requires enough { AreEnough len right }
    ensures ok { IfOk result (AreMade (sort_of_two op (sort.Literal number) (sort_in right.entry)) (λ i. of_two op (item.int number) (item_in right.entry i)) len) }
    ensures err { IfErr result (StopsMaking (sort_of_two op (sort.Literal number) (sort_in right.entry)) (λ i. of_two op (item.int number) (item_in right.entry i)) len) }
{
    match right {
        Values::Number(right) => of_numbers(alloc, op, number, right, len),
        Values::Column(right) => number::of_two(alloc, op, &right.view(), number, true),
        Values::Text(_) => unreachable!(),
    }
}

/// What an operator makes of two numbers, at each of `len` rows.
fn of_numbers<'a>(
    alloc: Global,
    op: Op,
    left: i128,
    right: i128,
    len: usize,
) -> Result<Values<'a>, Stop>
    requires short { len ≤ most_slots }
    requires sort { is_some (sort_of_two op (sort.Literal left) (sort.Literal right)) ≡ true }
    ensures ok { IfOk result (AreMade (sort_of_two op (sort.Literal left) (sort.Literal right)) (λ i. of_two op (item.int left) (item.int right)) len) }
    ensures err { IfErr result (StopsMaking (sort_of_two op (sort.Literal left) (sort.Literal right)) (λ i. of_two op (item.int left) (item.int right)) len) }
{
    let column = repeated_number(alloc, INT64, left, len)?;
    number::of_two(alloc, op, &column.view(), right, false)
}
