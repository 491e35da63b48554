//! Statistics of a column.

ghost use Rattle.std.specs.Prelude.{◌*◌, ◌^◌, ◌≤◌, ◌≤ℤ◌, neg_ℤ, pos};
ghost use Rattle.std.specs.Option.{ForSome};

use arrays::ViewType;

/// A value of a column whose values come before or behind one another.
#[derive(Drop, Debug, PartialEq, Eq)]
pub enum Scalar {
    Int(i128),
    Bool(bool),
    Text(String),
}

/// How many rows a column has and how many of them are null, the sum of a column of numbers, and the least and the
/// greatest value of one of numbers, truth values or texts.
#[derive(Drop, Debug, PartialEq, Eq)]
pub struct ColumnStats {
    pub rows: u64,
    pub nulls: u64,
    /// Of columns of numbers alone: 0 where each of them is null.
    pub sum: Option<i128>,
    /// None where each row is null, and of lists.
    pub least: Option<Scalar>,
    pub greatest: Option<Scalar>,
    ghost few: { rows ≤ 2 ^ 40 },
    ghost counted: { nulls ≤ rows },
    ghost low: { ForSome sum (λ z. neg_ℤ (pos (2 ^ 64 * rows)) ≤ℤ z) },
    ghost high: { ForSome sum (λ z. z ≤ℤ pos (2 ^ 64 * rows)) },
}

impl ColumnStats {
    ghost use Rattle.std.specs.Prelude.{[], replicate};
    ghost use Rattle.arrays.specs.Prelude.{null, view_kind};
    ghost use Rattle.group.specs.Summary.{AreStats};

    /// The statistics of a column of a type without slots.
    pub fn empty(ty: ViewType<'_>) -> ColumnStats
        ensures { AreStats result (view_kind ty.entry) [] }
    {
        ColumnStats::all_null(ty, 0)
    }

    /// The statistics of a column of a type whose rows are all null.
    pub fn all_null(ty: ViewType<'_>, rows: u64) -> ColumnStats
        requires { rows ≤ 2 ^ 40 }
        ensures { AreStats result (view_kind ty.entry) (replicate rows null) }
    {
        let sum = match ty {
            ViewType::Int(_) => Some(0),
            _ => None,
        };
        ColumnStats {
            rows,
            nulls: rows,
            sum,
            least: None,
            greatest: None,
        }
    }
}
