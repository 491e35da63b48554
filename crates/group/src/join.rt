//! The statistics of two columns, one behind the other.

ghost use Rattle.std.specs.Prelude.{◌≡◌, ◌+◌, ◌^◌, ◌≤◌, ◌++◌, ◌≤ℤ◌, IfOk, List, neg_ℤ, option_map, pos, ◌*◌};
ghost use Rattle.std.specs.Option.{ForSome};
ghost use Rattle.std.specs.Ordering.{is_gt};
ghost use Rattle.arrays.specs.Prelude.{Item, Kind, order};
ghost use Rattle.group.specs.Joined.{better, both_sums};
ghost use Rattle.group.specs.Stats.{greater, lesser};
ghost use Rattle.group.specs.Summary.{AreStats, scalar_item};

use crate::copy::copied;
use crate::stats::{ColumnStats, Scalar};
use arrays::NoMemory;
use std::alloc::Global;

/// The statistics of a column of the slots of one column and then those of another of the same kind: so those of a
/// table follow from those of its batches. What only one of the two has is kept.
pub fn joined(alloc: Global, a: &ColumnStats, b: &ColumnStats) -> Result<ColumnStats, NoMemory>
    requires { a.now.rows + b.now.rows ≤ 2 ^ 40 }
    ensures { IfOk result (λ s. (k : Kind) (xs ys : List Item) → AreStats a.now k xs → AreStats b.now k ys
        → AreStats s k (xs ++ ys)) }
{
    Ok(ColumnStats {
        rows: a.rows + b.rows,
        nulls: a.nulls + b.nulls,
        sum: sum(a, b),
        least: lesser(alloc, &a.least, &b.least)?,
        greatest: greater(alloc, &a.greatest, &b.greatest)?,
    })
}

/// The sum of both, where both have one.
fn sum(a: &ColumnStats, b: &ColumnStats) -> Option<i128>
    requires { a.now.rows + b.now.rows ≤ 2 ^ 40 }
    ensures value { result ≡ both_sums a.now.sum b.now.sum }
    ensures low { ForSome result (λ z. neg_ℤ (pos (2 ^ 64 * (a.now.rows + b.now.rows))) ≤ℤ z) }
    ensures high { ForSome result (λ z. z ≤ℤ pos (2 ^ 64 * (a.now.rows + b.now.rows))) }
{
    match (a.sum, b.sum) {
        (Some(x), Some(y)) => Some(x + y),
        _ => None,
    }
}

/// A copy of the lesser of two values, either of which may be missing.
fn lesser(alloc: Global, a: &Option<Scalar>, b: &Option<Scalar>) -> Result<Option<Scalar>, NoMemory>
    ensures { IfOk result (λ s. option_map scalar_item s ≡ better lesser (option_map scalar_item a.now) (option_map scalar_item b.now)) }
{
    match (a, b) {
        (Some(x), Some(y)) => copied(alloc, if x.exceeds(y) { b } else { a }),
        (None, _) => copied(alloc, b),
        _ => copied(alloc, a),
    }
}

/// A copy of the greater of two values, either of which may be missing.
fn greater(
    alloc: Global,
    a: &Option<Scalar>,
    b: &Option<Scalar>,
) -> Result<Option<Scalar>, NoMemory>
    ensures { IfOk result (λ s. option_map scalar_item s ≡ better greater (option_map scalar_item a.now) (option_map scalar_item b.now)) }
{
    match (a, b) {
        (Some(x), Some(y)) => copied(alloc, if y.exceeds(x) { b } else { a }),
        (None, _) => copied(alloc, b),
        _ => copied(alloc, a),
    }
}

impl Scalar {
    /// Whether it comes behind the other: of two kinds of values neither does.
    fn exceeds(&self, other: &Scalar) -> bool
        ensures { result ≡ is_gt (order (scalar_item self.now) (scalar_item other.now)) }
    {
        match (self, other) {
            (Scalar::Int(x), Scalar::Int(y)) => *x > *y,
            (Scalar::Bool(x), Scalar::Bool(y)) => *x & !*y,
            (Scalar::Text(x), Scalar::Text(y)) => x.as_str().cmp(y.as_str()).is_gt(),
            _ => false,
        }
    }
}
