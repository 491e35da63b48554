//! What holds of queries whatever program reads them.
ghost use Rattle.std.specs.Prelude.{◌≡◌, List, Ok, ℕ};
ghost use Rattle.query.specs.QueryShape.{QueryShape};
ghost use Rattle.json_query.specs.QueryData.{IsWithinLimits, query_data};
ghost use Rattle.json_query.specs.QueryDocument.{query_of};

/// Each query within the limits can be written, and what is written is read as the query.
#[tactic(auto, using(crate::proofs::QueryDataLemmas::query_again))]
pub fn each_query_is_read_as_itself()
    ensures { (q : QueryShape (List ℕ)) → IsWithinLimits q → query_of (query_data q) ≡ Ok q }
{}
