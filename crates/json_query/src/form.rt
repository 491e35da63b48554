//! What an expression's object is.

ghost use Rattle.std.specs.Prelude.{◌≡◌};
ghost use Rattle.json_base.specs.Prelude.{view};
ghost use Rattle.json_query.specs.QueryForm.{form_of, has, literal_of, op_named, operand_count};

use arrays::{INT64, IntType, Width};
use json_base::number::integer;
use json_base::{Member, Value};
use query::Op;

const UINT64: IntType = IntType {
    bits: Width::W64,
    signed: false,
};

/// What an expression's object is: which of the four members it has.
#[derive(Clone, Copy, Debug)]
pub enum Form {
    Column,
    Int,
    Text,
    Op,
}

fn has(object: &Value, member: Member) -> bool
    ensures { result ≡ has member (view object.now) }
{
    object.get(member.name()).is_some()
}

/// The form of an object that has exactly one of the four members.
pub(crate) fn form_of(object: &Value) -> Option<Form>
    ensures { result ≡ form_of (view object.now) }
{
    let column = has(object, Member::Column);
    let int = has(object, Member::Int);
    let text = has(object, Member::Text);
    let op = has(object, Member::Op);
    match (column, int, text, op) {
        (true, false, false, false) => Some(Form::Column),
        (false, true, false, false) => Some(Form::Int),
        (false, false, true, false) => Some(Form::Text),
        (false, false, false, true) => Some(Form::Op),
        _ => None,
    }
}

/// A whole number from -2^63 to 2^64 - 1, as a number or as a text.
#[tactic(auto, unfolding(crate::specs::QueryForm::literal_of))]
pub(crate) fn literal(value: &Value) -> Option<i128>
    ensures { result ≡ literal_of (view value.now) }
{
    match integer(INT64, value) {
        Some(number) => Some(number),
        None => integer(UINT64, value),
    }
}

/// The operator of the name.
pub(crate) fn op_of(name: &str) -> Option<Op>
    ensures { result ≡ op_named name.now }
{
    match name {
        "add" => Some(Op::Add),
        "sub" => Some(Op::Sub),
        "mul" => Some(Op::Mul),
        "eq" => Some(Op::Eq),
        "ne" => Some(Op::Ne),
        "lt" => Some(Op::Lt),
        "le" => Some(Op::Le),
        "gt" => Some(Op::Gt),
        "ge" => Some(Op::Ge),
        "and" => Some(Op::And),
        "or" => Some(Op::Or),
        "not" => Some(Op::Not),
        "is_null" => Some(Op::IsNull),
        _ => None,
    }
}

/// How many operands an operator has.
pub(crate) fn operand_count(op: Op) -> usize
    ensures { result ≡ operand_count op }
{
    match op {
        Op::Not | Op::IsNull => 1,
        Op::Add
        | Op::Sub
        | Op::Mul
        | Op::Eq
        | Op::Ne
        | Op::Lt
        | Op::Le
        | Op::Gt
        | Op::Ge
        | Op::And
        | Op::Or => 2,
    }
}
