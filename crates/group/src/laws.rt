//! What holds of the least and the greatest of any column.

ghost use Rattle.std.specs.Prelude.{◌≡◌, ◌↔◌, ℤ, List, [], None, IfSome, Contains, option_map};
ghost use Rattle.arrays.specs.Prelude.{IntType, Item, Kind, int};
ghost use Rattle.arrays.specs.Kind as kind;
ghost use Rattle.group.specs.Bounds.{IsGreatestOf, IsLeastOf};
ghost use Rattle.group.specs.Numbers.{IsGreatest, IsLeast, greatest_number, least_number};
ghost use Rattle.group.specs.Stats.{greatest_of, least_of, ordered};

/// The least and the greatest value of a column of integers are its least and its greatest number.
pub fn values_of_integers_are_numbers()
    ensures least { (t : IntType) (column : List Item) →
        least_of (kind.int t) column ≡ option_map int (least_number column) }
    ensures greatest { (t : IntType) (column : List Item) →
        greatest_of (kind.int t) column ≡ option_map int (greatest_number column) }
{}

/// The least of a column is one of its numbers and at most each of them. There is none exactly where
/// the column has no number.
pub fn least_is_at_most_each()
    ensures least { (column : List Item) → IfSome (least_number column) (IsLeast column) }
    ensures none { (column : List Item) → (least_number column ≡ None) ↔ ((z : ℤ) → ¬ Contains column (int z)) }
{}

/// The greatest of a column is one of its numbers and at least each of them. There is none exactly where
/// the column has no number.
pub fn greatest_is_at_least_each()
    ensures greatest { (column : List Item) → IfSome (greatest_number column) (IsGreatest column) }
    ensures none { (column : List Item) → (greatest_number column ≡ None) ↔ ((z : ℤ) → ¬ Contains column (int z)) }
{}

/// The least value of a column of numbers, truth values or texts is one of its values and behind none of them: numbers
/// go by value, false before true, texts byte by byte. There is none exactly where the column has no value.
pub fn least_is_behind_none()
    ensures least { (k : Kind) (column : List Item) → IfSome (least_of k column) (IsLeastOf k column) }
    ensures none { (k : Kind) (column : List Item) → (least_of k column ≡ None) ↔ (ordered k column ≡ []) }
{}

/// The greatest value of a column of numbers, truth values or texts is one of its values and before none of them. There
/// is none exactly where the column has no value.
pub fn greatest_is_before_none()
    ensures greatest { (k : Kind) (column : List Item) → IfSome (greatest_of k column) (IsGreatestOf k column) }
    ensures none { (k : Kind) (column : List Item) → (greatest_of k column ≡ None) ↔ (ordered k column ≡ []) }
{}
