//! What holds of the answers of shards: of tables whose rows, one table's after the other's, are all rows.

ghost use Rattle.std.specs.Prelude.{◌≡◌, ◌≤◌, ◌+◌, ◌∷◌, ◌++◌, ℕ, List, All, Err, filter, flat_map, length};
ghost use Rattle.std.specs.List.{AllZip};
ghost use Rattle.arrays.specs.Prelude.{FieldShape, Item, Kind, Row, Table};
ghost use Rattle.group.specs.Summary.{AreStats};
ghost use Rattle.group.specs.declared.stats.ColumnStats.{ColumnStats};
ghost use Rattle.query.specs.QueryShape.{QueryShape};
ghost use Rattle.query.specs.declared.expr.Agg.{Agg};
ghost use Rattle.tallies.specs.Kinds.{AreComparable};
ghost use Rattle.answers.specs.Groups.{GroupShape, groups, is_kept};
ghost use Rattle.answers.specs.Merging.{AreAnswers, AreJoinedInTurn, AreMergeable, merging, rows_of_answers, rows_of_shards};

/// Where each shard answers a query, the merging query over all answers, whose groups are rows in the order of the
/// shards, answers what the query answers over the rows of all shards. There is at least one shard; any of them may be
/// without rows. The values whose least or greatest is sought are of one kind in each column, at least those of the
/// rows that the filter keeps. The merging query has no filter, so the fields of the answers may be any.
pub fn merged_groups_are_the_groups_of_all()
    ensures { (fields others : List FieldShape) (q : QueryShape ℕ) (kinds : ℕ → Kind) (shards : List Table)
        (answers : List (List GroupShape)) → 1 ≤ length shards
        → All (AreMergeable kinds q.aggs) (filter (is_kept fields q.filter) (rows_of_shards shards))
        → AreAnswers fields q shards answers
        → groups others (merging q) (rows_of_answers answers) ≡ groups fields q (rows_of_shards shards) }
{}

/// Rows whose items can be compared, as those of batches that a query fits can, are such rows.
pub fn comparable_rows_can_be_merged()
    ensures { (kinds : ℕ → Kind) (aggs : List (Agg ℕ)) (row : Row) → AreComparable kinds aggs row
        → AreMergeable kinds aggs row }
{}

/// Where shards answer a query and the one behind them is refused at its row n, the query over the rows of all shards is
/// refused at that row, n rows behind those of the shards in front, whatever comes behind it.
pub fn the_least_bad_row_of_shards()
    ensures { (fields : List FieldShape) (q : QueryShape ℕ) (front rest : List Table)
        (answers : List (List GroupShape)) (rows : Table) (n : ℕ) → AreAnswers fields q front answers
        → groups fields q rows ≡ Err n
        → groups fields q (rows_of_shards (front ++ rows ∷ rest)) ≡ Err (length (rows_of_shards front) + n) }
{}

/// Answers that were merged are merged further by the same query.
pub fn merging_twice_is_merging()
    ensures { (q : QueryShape ℕ) → merging (merging q) ≡ merging q }
{}

/// The statistics of a column's parts, joined one after the other, are those of the column.
pub fn joined_statistics_are_those_of_all()
    ensures { (k : Kind) (column : List Item) (parts : List (List Item)) (first all : ColumnStats)
        (stats : List ColumnStats) → AreStats first k column → AllZip (λ items s. AreStats s k items) parts stats
        → AreJoinedInTurn first stats all → AreStats all k (column ++ flat_map (λ items. items) parts) }
{}
