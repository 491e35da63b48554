//! What kind of value an expression has.

ghost use Rattle.std.specs.Prelude.{◌≡◌};
ghost use Rattle.types.specs.Kind.{kind_of};
ghost use Rattle.query.specs.Sorts.{sort_of_kind, sort_of_one, sort_of_two, of_one, of_two};

use crate::expr::Op;
use types::{DataType, INT64, IntType};

/// What is known of an expression's value before a row is looked at.
#[derive(Clone, Copy, Debug, PartialEq, Eq)]
pub enum Sort {
    /// A number as it is written. Its type is that of what stands beside it, or signed with 64 bits.
    Literal(i128),
    Int(IntType),
    Truth,
    /// A text, in a dictionary or not.
    Text,
    List,
}

/// The sort of a column of the type.
pub(crate) fn sort_of_type(ty: &DataType) -> Sort
    ensures { result ≡ sort_of_kind (kind_of ty.now) }
{
    match ty {
        DataType::Int(int) => Sort::Int(*int),
        DataType::Bool => Sort::Truth,
        DataType::Utf8 | DataType::LargeUtf8 | DataType::Dict => Sort::Text,
        DataType::List(_) | DataType::LargeList(_) => Sort::List,
    }
}

impl Sort {
    ghost use Rattle.query.specs.Sorts.{is_int, is_plain, is_truth, is_alike, type_beside, settled};

    /// Whether it is of an integer type and no literal.
    pub(crate) fn is_int(self) -> bool
        ensures { result ≡ is_int self }
    {
        matches!(self, Sort::Int(_))
    }

    /// Whether it is a truth value.
    pub(crate) fn is_truth(self) -> bool
        ensures { result ≡ is_truth self }
    {
        matches!(self, Sort::Truth)
    }

    /// Whether it is of an integer type, a truth value or a text, as keys are.
    pub(crate) fn is_plain(self) -> bool
        ensures { result ≡ is_plain self }
    {
        matches!(self, Sort::Int(_) | Sort::Truth | Sort::Text)
    }

    /// Whether both are of one integer type, both truth values, or both texts.
    fn is_alike(self, other: Sort) -> bool
        ensures { result ≡ is_alike self other }
    {
        match self {
            Sort::Int(int) => match other {
                Sort::Int(other) => int == other,
                _ => false,
            },
            Sort::Truth => matches!(other, Sort::Truth),
            Sort::Text => matches!(other, Sort::Text),
            Sort::Literal(_) | Sort::List => false,
        }
    }

    /// The type of a literal directly beside it.
    fn type_beside(self) -> IntType
        ensures { result ≡ type_beside self }
    {
        match self {
            Sort::Int(int) => int,
            _ => INT64,
        }
    }

    /// The sort where literals are of this type; none, where one doesn't fit it.
    fn settled(self, ty: IntType) -> Option<Sort>
        ensures { result ≡ settled ty self }
    {
        match self {
            Sort::Literal(number) => {
                if ty.holds(number) {
                    Some(Sort::Int(ty))
                } else {
                    None
                }
            }
            _ => Some(self),
        }
    }
}

/// The sort of an operator over one operand.
pub(crate) fn sort_of_one(op: Op, operand: Sort) -> Option<Sort>
    ensures { result ≡ sort_of_one op operand }
{
    of_one(op, operand.settled(INT64)?)
}

/// The sort of an operator over two operands.
pub(crate) fn sort_of_two(op: Op, left: Sort, right: Sort) -> Option<Sort>
    ensures { result ≡ sort_of_two op left right }
{
    let settled_left = left.settled(right.type_beside())?;
    let settled_right = right.settled(left.type_beside())?;
    of_two(op, settled_left, settled_right)
}

/// The same where a literal has its type already.
fn of_one(op: Op, operand: Sort) -> Option<Sort>
    ensures { result ≡ of_one op operand }
{
    match op {
        Op::Not => operand.is_truth().then_some(Sort::Truth),
        Op::IsNull => Some(Sort::Truth),
        _ => None,
    }
}

/// The same where literals have their types already.
fn of_two(op: Op, left: Sort, right: Sort) -> Option<Sort>
    ensures { result ≡ of_two op left right }
{
    match op {
        Op::Add | Op::Sub | Op::Mul => (left.is_int() && left.is_alike(right)).then_some(left),
        Op::Eq | Op::Ne | Op::Lt | Op::Le | Op::Gt | Op::Ge => {
            left.is_alike(right).then_some(Sort::Truth)
        }
        Op::And | Op::Or => (left.is_truth() && right.is_truth()).then_some(Sort::Truth),
        Op::Not | Op::IsNull => None,
    }
}
