//! The objects of expressions.

ghost use Rattle.std.specs.Prelude.{◌≡◌, ◌≤◌, ℕ, suc, Ok, IfOk, IfErr, map};
ghost use Rattle.json_base.specs.Prelude.{IsObject, Tells, depth, items_depth, items_view, view};
ghost use Rattle.json_base.specs.declared.path.Member.TheVariants as member;
ghost use Rattle.json_base.specs.declared.fault.JsonFaultKind.TheVariants.{BadNumber};
ghost use Rattle.json_query.specs.Reading.{MayReport, required};
ghost use Rattle.json_query.specs.QueryExpr.{expr_within, named_tree, operands, operator_of};
ghost use Rattle.json_query.specs.QueryForm.{literal_of};

use crate::form::{Form, form_of, literal, op_of, operand_count};
use crate::text::read_text;
use json_base::member::{array_member, check_object, push, required, text_member, unlike};
use json_base::{JsonFault, JsonFaultKind, Member, Step, Value};
use query::{Expr, Op};
use std::alloc::Global;

/// A whole number.
#[tactic(auto, using(crate::proofs::Readings::reading))]
fn read_int(alloc: Global, object: &Value) -> Result<i128, JsonFault>
    requires { IsObject (view object.now) }
    ensures ok { IfOk result (λ number. required member.Int BadNumber literal_of (view object.now) ≡ Ok number) }
    ensures err { IfErr result (Tells (MayReport (required member.Int BadNumber literal_of (view object.now)))) }
{
    match literal(required(alloc, object, Member::Int)?) {
        Some(number) => Ok(number),
        None => {
            let place = [Step::Member(Member::Int)];
            Err(JsonFault::at(alloc, JsonFaultKind::BadNumber, &place))
        }
    }
}

/// An operator's name.
#[tactic(auto, using(crate::proofs::Readings::reading))]
fn read_op(alloc: Global, object: &Value) -> Result<Op, JsonFault>
    requires { IsObject (view object.now) }
    ensures ok { IfOk result (λ op. operator_of (view object.now) ≡ Ok op) }
    ensures err { IfErr result (Tells (MayReport (operator_of (view object.now)))) }
{
    match op_of(text_member(alloc, object, Member::Op)?) {
        Some(op) => Ok(op),
        None => Err(unlike(alloc, Member::Op)),
    }
}

/// The expression that a value spells. It goes down as deep as the value is.
#[cycle(exprs)]
#[tactic(auto, using(crate::proofs::Readings::reading))]
pub(crate) fn read_expr(alloc: Global, value: &Value) -> Result<Expr<String>, JsonFault>
    ensures ok { IfOk result (λ e. (n : ℕ) → depth (view value.now) ≤ n → expr_within (suc n) (view value.now) ≡ Ok (named_tree e)) }
    ensures err { IfErr result (λ fault. (n : ℕ) → depth (view value.now) ≤ n → Tells (MayReport (expr_within (suc n) (view value.now))) fault) }
{
    check_object(alloc, value)?;
    match form_of(value) {
        Some(Form::Column) => Ok(Expr::Column(read_text(alloc, value, Member::Column)?)),
        Some(Form::Int) => Ok(Expr::Int(read_int(alloc, value)?)),
        Some(Form::Text) => Ok(Expr::Text(read_text(alloc, value, Member::Text)?)),
        Some(Form::Op) => {
            let op = read_op(alloc, value)?;
            let args = array_member(alloc, value, Member::Args)?;
            match read_operands(alloc, op, args) {
                Ok(operands) => Ok(Expr::Op(op, operands)),
                Err(fault) => Err(fault.under(alloc, Step::Member(Member::Args))),
            }
        }
        None => Err(JsonFault::at(alloc, JsonFaultKind::WrongMember, &[])),
    }
}

/// The operands of an operator, which are to be as many as it has.
#[cycle(exprs)]
#[tactic(auto, using(crate::proofs::Readings::loops))]
fn read_operands(alloc: Global, op: Op, args: &[Value]) -> Result<Vec<Expr<String>>, JsonFault>
    ensures ok { IfOk result (λ exprs. (n : ℕ) → items_depth (items_view args.now) ≤ n →
        operands (expr_within (suc n)) (Ok op) (items_view args.now) ≡ Ok (map named_tree exprs.items)) }
    ensures err { IfErr result (λ fault. (n : ℕ) → items_depth (items_view args.now) ≤ n →
        Tells (MayReport (operands (expr_within (suc n)) (Ok op) (items_view args.now))) fault) }
{
    if args.len() != operand_count(op) {
        return Err(JsonFault::at(alloc, JsonFaultKind::WrongMember, &[]));
    }
    let mut exprs = Vec::new(alloc);
    for (index, value) in args.iter().enumerate() {
        match read_expr(alloc, value) {
            Ok(expr) => push(alloc, &mut exprs, expr)?,
            Err(fault) => return Err(fault.under(alloc, Step::Item(index))),
        }
    }
    Ok(exprs)
}
