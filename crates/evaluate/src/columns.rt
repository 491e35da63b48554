//! Operators over columns, place by place.

ghost use Rattle.std.specs.Prelude.{◌≡◌, true, length, is_some, IfOk, IfErr};
ghost use Rattle.arrays.specs.Slot.{item_at};
ghost use Rattle.query.specs.Sorts as sorts;
ghost use Rattle.query.specs.Sorts.{sort_of_kind};
ghost use Rattle.query.specs.declared.expr.Op.TheVariants as op;
ghost use Rattle.evaluate.specs.Value.{of_one, of_two};
ghost use Rattle.evaluate.specs.Making.{AreMade, Gives, StopsMaking, comparison_of};

use crate::made::values_of;
use crate::stop::Stop;
use crate::values::Values;
use arrays::{Array, View};
use kernels::{CmpOp, KernelFault};
use query::Op;
use std::alloc::Global;

/// What an operator makes of two columns of one length.
pub(crate) fn of_two<'a>(
    alloc: Global,
    op: Op,
    a: &View<'_>,
    b: &View<'_>,
) -> Result<Values<'a>, Stop>
    requires sorts { is_some (sorts.of_two op (sort_of_kind a.now.kind) (sort_of_kind b.now.kind)) ≡ true }
    requires lengths { length a.now.items ≡ length b.now.items }
    ensures ok { IfOk result (AreMade (sorts.of_two op (sort_of_kind a.now.kind) (sort_of_kind b.now.kind))
        (λ i. of_two op (item_at a.now.items i) (item_at b.now.items i)) (length a.now.items)) }
    ensures err { IfErr result (StopsMaking (sorts.of_two op (sort_of_kind a.now.kind) (sort_of_kind b.now.kind))
        (λ i. of_two op (item_at a.now.items i) (item_at b.now.items i)) (length a.now.items)) }
{
    values_of(computed(alloc, op, a, b))
}

/// The array of what an operator makes of two columns of one length.
fn computed(alloc: Global, op: Op, a: &View<'_>, b: &View<'_>) -> Result<Array, KernelFault>
    requires sorts { is_some (sorts.of_two op (sort_of_kind a.now.kind) (sort_of_kind b.now.kind)) ≡ true }
    requires lengths { length a.now.items ≡ length b.now.items }
    ensures { Gives (sorts.of_two op (sort_of_kind a.now.kind) (sort_of_kind b.now.kind))
        (λ i. of_two op (item_at a.now.items i) (item_at b.now.items i)) (length a.now.items) result }
{
    match op {
        Op::Add => kernels::add(alloc, a, b),
        Op::Sub => kernels::sub(alloc, a, b),
        Op::Mul => kernels::mul(alloc, a, b),
        Op::And => kernels::kleene_and(alloc, a, b),
        Op::Or => kernels::kleene_or(alloc, a, b),
        _ => match comparison_of(op) {
            Some(comparison) => kernels::compare(alloc, comparison, a, b),
            None => unreachable!(),
        },
    }
}

/// The truth values that aren't so.
pub(crate) fn not<'a>(alloc: Global, column: &View<'_>) -> Result<Values<'a>, Stop>
    requires { is_some (sorts.of_one op.Not (sort_of_kind column.now.kind)) ≡ true }
    ensures ok { IfOk result (AreMade (sorts.of_one op.Not (sort_of_kind column.now.kind))
        (λ i. of_one op.Not (item_at column.now.items i)) (length column.now.items)) }
    ensures err { IfErr result (λ e. e ≡ Stop.NoMemory) }
{
    values_of(kernels::kleene_not(alloc, column))
}

/// Where there is no item.
pub(crate) fn is_null<'a>(alloc: Global, column: &View<'_>) -> Result<Values<'a>, Stop>
    ensures ok { IfOk result (AreMade (sorts.of_one op.IsNull (sort_of_kind column.now.kind))
        (λ i. of_one op.IsNull (item_at column.now.items i)) (length column.now.items)) }
    ensures err { IfErr result (λ e. e ≡ Stop.NoMemory) }
{
    values_of(kernels::is_null(alloc, column))
}

/// The comparison that an operator is.
pub(crate) fn comparison_of(op: Op) -> Option<CmpOp>
    ensures { result ≡ comparison_of op }
{
    match op {
        Op::Eq => Some(CmpOp::Eq),
        Op::Ne => Some(CmpOp::Ne),
        Op::Lt => Some(CmpOp::Lt),
        Op::Le => Some(CmpOp::Le),
        Op::Gt => Some(CmpOp::Gt),
        Op::Ge => Some(CmpOp::Ge),
        _ => None,
    }
}
