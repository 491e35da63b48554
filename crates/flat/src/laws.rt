//! What holds of all nodes.

ghost use Rattle.std.specs.Prelude.{◌≡◌, List, [], ℕ};
ghost use Rattle.arrays.specs.Batch.{Batch, rows_of};
ghost use Rattle.flat.specs.Batch.{IsBatchOf};
ghost use Rattle.flat.specs.Lent.{LendsColumns};
ghost use Rattle.flat.specs.declared.node.Node.{Node};

/// Nodes are one batch of so many rows at most: they determine its fields and all that its columns show.
pub fn nodes_are_one_batch()
    ensures { (rows : ℕ) (nodes : List Node) (b c : Batch) → IsBatchOf rows nodes b → IsBatchOf rows nodes c → b ≡ c }
{}

/// What is lent of a batch is read as that batch: its fields, and its rows.
pub fn what_is_lent_is_read_again()
    ensures { (nodes : List Node) (b c : Batch) → LendsColumns nodes b.fields b.columns [] → IsBatchOf b.rows nodes c
        → (c.fields ≡ b.fields) × (rows_of c ≡ rows_of b) }
{}
