//! What holds of all histories.

ghost use Rattle.std.specs.Prelude.{◌≡◌, ◌∷◌, ◌++◌, ◌+◌, [], ℕ, All, List, length, true};
ghost use Rattle.arrays.specs.Prelude.{FieldShape, Table, is_nullable};
ghost use Rattle.table.specs.Cause.{IsLegal, IsTableOf};
ghost use Rattle.table.specs.History.{History, book, history_from, rows};
ghost use Rattle.table.specs.Lawful.{book_rows};
ghost use Rattle.table.specs.Widened.{widened};

/// The history that a book cuts out of a table has this book and these rows, where the book counts as many.
pub fn a_cut_has_its_book_and_rows()
    ensures book { (entries : List (ℕ × ℕ)) (t : Table) → book_rows entries ≡ length t → book (history_from entries t) ≡ entries }
    ensures rows { (entries : List (ℕ × ℕ)) (t : Table) → book_rows entries ≡ length t → rows (history_from entries t) ≡ t }
{}

/// Each history is the one that its book cuts out of its rows.
pub fn a_history_is_cut_out_of_its_rows()
    ensures { (h : History) → history_from (book h) (rows h) ≡ h }
{}

/// A legal history, widened by a column that may hold nulls, is legal: what was admitted would be so with the column.
pub fn a_legal_history_widened_is_legal()
    ensures { (fields : List FieldShape) (h : History) (f : FieldShape) → is_nullable f ≡ true → IsLegal fields h
        → IsLegal (fields ++ f ∷ []) (widened (length fields + 1) h) }
{}

/// A history of the fields is legal where it is so with a column more, which may hold nulls.
pub fn a_history_legal_when_widened_is_legal()
    ensures { (fields : List FieldShape) (h : History) (f : FieldShape) → is_nullable f ≡ true → All (λ e. IsTableOf fields e.1) h
        → IsLegal (fields ++ f ∷ []) (widened (length fields + 1) h) → IsLegal fields h }
{}
