//! What holds of the columns that any query names.

ghost use Rattle.std.specs.Prelude.{◌≡◌, ◌==◌, ℕ, List, Ok, Err, true, count_by, length, map, nat_lt};
ghost use Rattle.std.specs.List.{list_all, list_any};
ghost use Rattle.types.specs.Shape.{FieldShape};
ghost use Rattle.query.specs.QueryShape.{QueryShape};
ghost use Rattle.query.specs.CalledColumns.{has_name, place_of};
ghost use Rattle.query.specs.FirstFault.{fits};
ghost use Rattle.query.specs.Named.{columns};
ghost use Rattle.query.specs.Resolved.{resolved};
ghost use Rattle.query.specs.declared.fault.QueryFault.TheVariants.{AmbiguousColumn, NoColumn};

/// Each position of a query that fits is that of a field.
pub fn positions_are_within_the_fields()
    ensures { (fields : List FieldShape) (q : QueryShape ℕ) → fits fields q ≡ true →
        list_all (λ place. nat_lt place (length fields)) (columns q) ≡ true }
{}

/// Each name of a query that is resolved is that of exactly one field, and becomes the position of the first field of
/// that name.
pub fn names_are_of_one_field()
    ensures once { (fields : List FieldShape) (q : QueryShape (List ℕ)) (r : QueryShape ℕ) → resolved fields q ≡ Ok r →
        list_all (λ name. count_by (has_name name) fields == 1) (columns q) ≡ true }
    ensures placed { (fields : List FieldShape) (q : QueryShape (List ℕ)) (r : QueryShape ℕ) → resolved fields q ≡ Ok r →
        columns r ≡ map (place_of fields) (columns q) }
{}

/// That there is no column is reported only where the query names one that no field has; that a column is ambiguous only
/// where it names one that several fields have.
pub fn faults_of_names()
    ensures missing { (fields : List FieldShape) (q : QueryShape (List ℕ)) → resolved fields q ≡ Err NoColumn →
        list_any (λ name. count_by (has_name name) fields == 0) (columns q) ≡ true }
    ensures ambiguous { (fields : List FieldShape) (q : QueryShape (List ℕ)) → resolved fields q ≡ Err AmbiguousColumn →
        list_any (λ name. nat_lt 1 (count_by (has_name name) fields)) (columns q) ≡ true }
{}
