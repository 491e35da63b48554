//! Expressions at the rows of a slice.

ghost use Rattle.std.specs.Prelude.{◌≡◌, true, is_ok, IfOk, IfErr};
ghost use Rattle.query.specs.Prelude.{checked, sort_at, tree_of};
ghost use Rattle.evaluate.specs.Making.{IsColumn, StopsAt};
ghost use Rattle.evaluate.specs.Slices.{AreValues};

use crate::operators::{of_one, of_two};
use crate::slice::Slice;
use crate::stop::Stop;
use crate::values::{Operand, Slots, Values};
use query::Expr;
use std::alloc::Global;

/// The values of an expression at the rows of a slice, or one of them where it is bad.
pub(crate) fn evaluate<'a>(
    alloc: Global,
    expr: &'a Expr<u32>,
    slice: Slice<'a>,
) -> Result<Values<'a>, Stop>
    requires { is_ok (checked (sort_at slice.batch.now.fields) (tree_of expr.now)) ≡ true }
    ensures ok { IfOk result (AreValues slice.entry.batch.now slice.entry.start slice.entry.len (tree_of expr.now)) }
    ensures err { IfErr result (StopsAt slice.entry.batch.now slice.entry.start slice.entry.len (tree_of expr.now)) }
{
    match expr {
        Expr::Column(place) => Ok(Values::Column(column(*place, slice))),
        Expr::Int(number) => Ok(Values::Number(*number)),
        Expr::Text(text) => Ok(Values::Text(text)),
        Expr::Op(op, operands) => match operands.as_slice() {
            [operand] => {
                let operand = evaluate(alloc, operand, slice)?;
                of_one(alloc, *op, operand, slice.len)
            }
            [left, right] => {
                let left = evaluate(alloc, left, slice)?;
                let right = evaluate(alloc, right, slice)?;
                of_two(alloc, *op, left, right, slice.len)
            }
            _ => unreachable!(),
        },
    }
}

/// The column at the place.
fn column<'a>(place: u32, slice: Slice<'a>) -> Operand<'a>
    requires { is_ok (sort_at slice.batch.now.fields place) ≡ true }
    ensures { IsColumn slice.entry.batch.now slice.entry.start slice.entry.len place result }
{
    let columns = slice.batch.columns();
    Operand::Borrowed(Slots {
        array: &columns[place as usize],
        start: slice.start,
        len: slice.len,
    })
}
