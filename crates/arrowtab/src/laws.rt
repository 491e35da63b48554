//! What holds of all histories to which files are loaded, and of what is printed of them.
ghost use Rattle.std.specs.Prelude.{◌≡◌, ℕ, List, Option, map};
ghost use Rattle.std.specs.List.{flat_map};
ghost use Rattle.arrays.specs.Prelude.{FieldShape};
ghost use Rattle.table.specs.History.{History};
ghost use Rattle.arrowtab.specs.Column.{fields_with, history_with};
ghost use Rattle.arrowtab.specs.Loaded.{IsLoaded};
ghost use Rattle.reports.specs.Prelude.{FileBatch, stats_text};

/// What `stats` prints doesn't show whose batches came first: it is one text for all histories to which so many workers
/// load the same files, with a column behind them or without.
pub fn stats_are_of_the_files_alone()
    ensures { (column : Option FieldShape) (workers : ℕ) (files : List (List FileBatch)) (fields : List FieldShape) (h k : History) →
        IsLoaded workers files fields h → IsLoaded workers files fields k
        → stats_text workers (fields_with column fields) (history_with column fields h) ≡ stats_text workers (fields_with column fields) (history_with column fields k) }
{}

/// There is one history to which one worker loads the files: all their batches, in order.
pub fn one_worker_has_one_history()
    ensures batches { (files : List (List FileBatch)) (fields : List FieldShape) (h : History) →
        IsLoaded 1 files fields h → h ≡ map (λ b. (0, b.rows)) (flat_map (λ batches. batches) files) }
    ensures one { (files : List (List FileBatch)) (fields : List FieldShape) (h k : History) →
        IsLoaded 1 files fields h → IsLoaded 1 files fields k → h ≡ k }
{}
