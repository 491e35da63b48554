//! Operators over a column and a number that is the same at each row.

ghost use Rattle.std.specs.Prelude.{◌≡◌, true, is_some, if◌then◌else◌, length, Some, IfOk, IfErr};
ghost use Rattle.arrays.specs.Item as item;
ghost use Rattle.kernels.specs.Beside.{has_number};
ghost use Rattle.arrays.specs.Slot.{item_at};
ghost use Rattle.query.specs.Sorts.{sort_of_kind, sort_of_two};
ghost use Rattle.query.specs.declared.expr.Op.TheVariants as op;
ghost use Rattle.query.specs.declared.sort.Sort.TheVariants as sort;
ghost use Rattle.evaluate.specs.Value.{of_two};
ghost use Rattle.evaluate.specs.Making.{AreMade, StopsMaking, comparison_of, in_order, turned};

use crate::columns::comparison_of;
use crate::made::values_of;
use crate::stop::Stop;
use crate::values::Values;
use arrays::View;
use kernels::CmpOp;
use query::Op;
use std::alloc::Global;

/// What an operator makes of a column and a number, which stands before the column or behind it.
pub(crate) fn of_two<'a>(
    alloc: Global,
    op: Op,
    column: &View<'_>,
    number: i128,
    is_first: bool,
) -> Result<Values<'a>, Stop>
    requires sort { is_some (in_order is_first (sort_of_two op) (sort.Literal number) (sort_of_kind column.now.kind)) ≡ true }
    ensures ok { IfOk result (AreMade (in_order is_first (sort_of_two op) (sort.Literal number) (sort_of_kind column.now.kind))
        (λ i. in_order is_first (of_two op) (item.int number) (item_at column.now.items i)) (length column.now.items)) }
    ensures err { IfErr result (StopsMaking (in_order is_first (sort_of_two op) (sort.Literal number) (sort_of_kind column.now.kind))
        (λ i. in_order is_first (of_two op) (item.int number) (item_at column.now.items i)) (length column.now.items)) }
{
    match op {
        Op::Add => sum(alloc, column, number),
        Op::Mul => product(alloc, column, number),
        Op::Sub if is_first => difference_from(alloc, number, column),
        Op::Sub => difference(alloc, column, number),
        _ => compare(alloc, op, column, number, is_first),
    }
}

/// The sums.
fn sum<'a>(alloc: Global, column: &View<'_>, number: i128) -> Result<Values<'a>, Stop>
    requires has { has_number column.now.kind number ≡ true }
    ensures ok { IfOk result (AreMade (Some (sort_of_kind column.now.kind))
        (λ i. of_two op.Add (item_at column.now.items i) (item.int number)) (length column.now.items)) }
    ensures err { IfErr result (StopsMaking (Some (sort_of_kind column.now.kind))
        (λ i. of_two op.Add (item_at column.now.items i) (item.int number)) (length column.now.items)) }
{
    values_of(kernels::add_number(alloc, column, number))
}

/// The products.
fn product<'a>(alloc: Global, column: &View<'_>, number: i128) -> Result<Values<'a>, Stop>
    requires has { has_number column.now.kind number ≡ true }
    ensures ok { IfOk result (AreMade (Some (sort_of_kind column.now.kind))
        (λ i. of_two op.Mul (item_at column.now.items i) (item.int number)) (length column.now.items)) }
    ensures err { IfErr result (StopsMaking (Some (sort_of_kind column.now.kind))
        (λ i. of_two op.Mul (item_at column.now.items i) (item.int number)) (length column.now.items)) }
{
    values_of(kernels::mul_number(alloc, column, number))
}

/// The column less the number.
fn difference<'a>(alloc: Global, column: &View<'_>, number: i128) -> Result<Values<'a>, Stop>
    requires has { has_number column.now.kind number ≡ true }
    ensures ok { IfOk result (AreMade (Some (sort_of_kind column.now.kind))
        (λ i. of_two op.Sub (item_at column.now.items i) (item.int number)) (length column.now.items)) }
    ensures err { IfErr result (StopsMaking (Some (sort_of_kind column.now.kind))
        (λ i. of_two op.Sub (item_at column.now.items i) (item.int number)) (length column.now.items)) }
{
    values_of(kernels::sub_number(alloc, column, number))
}

/// The number less the column.
fn difference_from<'a>(alloc: Global, number: i128, column: &View<'_>) -> Result<Values<'a>, Stop>
    requires has { has_number column.now.kind number ≡ true }
    ensures ok { IfOk result (AreMade (Some (sort_of_kind column.now.kind))
        (λ i. of_two op.Sub (item.int number) (item_at column.now.items i)) (length column.now.items)) }
    ensures err { IfErr result (StopsMaking (Some (sort_of_kind column.now.kind))
        (λ i. of_two op.Sub (item.int number) (item_at column.now.items i)) (length column.now.items)) }
{
    values_of(kernels::sub_from_number(alloc, column, number))
}

/// Whether the items stand so to the number, or the number to the items.
fn compare<'a>(
    alloc: Global,
    op: Op,
    column: &View<'_>,
    number: i128,
    is_first: bool,
) -> Result<Values<'a>, Stop>
    requires op { is_some (comparison_of op) ≡ true }
    requires has { has_number column.now.kind number ≡ true }
    ensures ok { IfOk result (AreMade (Some sort.Truth)
        (λ i. in_order is_first (of_two op) (item.int number) (item_at column.now.items i)) (length column.now.items)) }
    ensures err { IfErr result (λ e. e ≡ Stop.NoMemory) }
{
    let Some(comparison) = comparison_of(op) else {
        unreachable!()
    };
    values_of(kernels::compare_number(alloc, placed(comparison, is_first), column, number))
}

/// The comparison of a column with a number: it is turned where the number stands first.
fn placed(op: CmpOp, is_first: bool) -> CmpOp
    ensures { result ≡ (if is_first then turned op else op) }
{
    if is_first { turned(op) } else { op }
}

/// The comparison of the second with the first.
fn turned(op: CmpOp) -> CmpOp
    ensures { result ≡ turned op }
{
    match op {
        CmpOp::Eq => CmpOp::Eq,
        CmpOp::Ne => CmpOp::Ne,
        CmpOp::Lt => CmpOp::Gt,
        CmpOp::Le => CmpOp::Ge,
        CmpOp::Gt => CmpOp::Lt,
        CmpOp::Ge => CmpOp::Le,
    }
}
