//! The walk through an expression that gives each part its sort.

ghost use Rattle.std.specs.Prelude.{◌≡◌, map};
ghost use Rattle.std.specs.Result.{result_err};
ghost use Rattle.query.specs.Checked.{checked, all_checked};
ghost use Rattle.query.specs.Tree as tree;
ghost use Rattle.query.specs.Tree.{tree_of, trees};

use crate::expr::{Expr, Op};
use crate::fault::QueryFault;
use crate::sort::{Sort, sort_of_one, sort_of_two};
use types::Schema;

/// What calls a column of a schema: its name, or its position.
pub(crate) trait Column {
    ghost use Rattle.std.specs.Prelude.{List, Result};
    ghost use Rattle.types.specs.Shape.{FieldShape};
    ghost use Rattle.query.specs.declared.fault.QueryFault.{QueryFault};
    ghost use Rattle.query.specs.declared.sort.Sort.{Sort};

    // The sort of the column that it calls, or why it calls none.
    ghost sort_in: { List FieldShape → Self → Result Sort QueryFault };

    /// The sort of the column that it calls, or why it calls none.
    fn sort_in(&self, schema: &Schema) -> Result<Sort, QueryFault>
        ensures { result ≡ sort_in schema.now self.now };
}

/// The sort of an expression, or the first fault that the walk through it meets: operands before their operator, from left
/// to right.
#[cycle(check)]
#[tactic(auto, using(crate::proofs::CheckLemmas::operands))]
pub(crate) fn checked<C: Column>(expr: &Expr<C>, schema: &Schema) -> Result<Sort, QueryFault>
    ensures { result ≡ checked (C.sort_in schema.now) (tree_of expr.now) }
{
    match expr {
        Expr::Column(column) => column.sort_in(schema),
        Expr::Int(number) => Ok(Sort::Literal(*number)),
        Expr::Text(_) => Ok(Sort::Text),
        Expr::Op(op, operands) => checked_operator(*op, operands, schema),
    }
}

/// The sort of an operator over operands, or the first fault: theirs, before the operator's.
#[cycle(check)]
#[tactic(auto, using(crate::proofs::CheckLemmas::operands))]
fn checked_operator<C: Column>(
    op: Op,
    operands: &[Expr<C>],
    schema: &Schema,
) -> Result<Sort, QueryFault>
    ensures { result ≡ checked (C.sort_in schema.now) (tree.op op (trees (map tree_of operands.now))) }
{
    match operands {
        [operand] => {
            let sort = checked(operand, schema)?;
            sort_of_one(op, sort).ok_or(QueryFault::WrongKind)
        }
        [left, right] => {
            let left = checked(left, schema)?;
            let right = checked(right, schema)?;
            sort_of_two(op, left, right).ok_or(QueryFault::WrongKind)
        }
        others => {
            walk(others, schema)?;
            Err(QueryFault::WrongKind)
        }
    }
}

/// Walks through operands whose sorts don't matter.
#[cycle(check)]
#[tactic(auto, using(crate::proofs::CheckLemmas::operands))]
fn walk<C: Column>(operands: &[Expr<C>], schema: &Schema) -> Result<(), QueryFault>
    ensures { result_err result
        ≡ result_err (all_checked (C.sort_in schema.now) (trees (map tree_of operands.now))) }
{
    for operand in operands {
        checked(operand, schema)?;
    }
    Ok(())
}
