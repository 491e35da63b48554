//! How many operators of an expression stand in one another.

ghost use Rattle.std.specs.Prelude.{◌≡◌, nat_lt};
ghost use Rattle.query.specs.Tree.{tree_of, depth};

use crate::expr::Expr;

impl<C> Expr<C> {
    /// Whether a path from the outermost expression down has more than `levels` expressions on it. It goes down one more
    /// level than that at most.
    #[tactic(auto, using(crate::proofs::DepthLemmas::depths))]
    pub fn is_deeper_than(&self, levels: u8) -> bool
        ensures { result ≡ nat_lt levels (depth (tree_of self.now)) }
    {
        if levels == 0 {
            return true;
        }
        let Expr::Op(_, operands) = self else {
            return false;
        };
        for operand in operands {
            if operand.is_deeper_than(levels - 1) {
                return true;
            }
        }
        false
    }
}
