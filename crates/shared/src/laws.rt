//! What follows of histories.

ghost use Rattle.std.specs.Prelude.{◌≡◌, ◌<◌, ℕ, length};
ghost use Rattle.shared.specs.Balance.{IsOfWorkers};
ghost use Rattle.shared.specs.Parts.{InOrder, sum_below};
ghost use Rattle.table.specs.History.{History, of};

/// Where the pairs of each of so many workers stand in its part of a history in their order, each entry is of one of them, and
/// they are together as many as the history has entries, the pairs of each worker are its part.
#[tactic(auto, using(crate::proofs::PartLemmas::each_owns))]
pub fn each_owns_its_part()
    ensures { (count : ℕ) (h : History) (m : ℕ → History) → IsOfWorkers count h
        → ((w : ℕ) → w < count → InOrder (m w) (of h w))
        → sum_below count (λ w. length (m w)) ≡ length h
        → (w : ℕ) → w < count → m w ≡ of h w }
{}
