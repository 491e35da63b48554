//! What is known of neighbouring pieces.

ghost use Rattle.std.specs.Prelude.{ℕ, List};
ghost use Rattle.arrays.specs.Prelude.{FieldShape, Table};
ghost use Rattle.answers.specs.Pieces.{AreLooked, AreNeighbours};

use crate::grouping::Grouping;
use query::{Query, QueryFault};
use std::alloc::Global;

/// What is known of pieces once they are looked at.
pub(crate) type Looked<'a> = Result<Grouping<'a>, QueryFault>;

/// What is known of some pieces, and of those right behind them.
#[derive(Drop)]
pub(crate) struct Neighbours<'a> {
    pub(crate) early: Looked<'a>,
    pub(crate) late: Looked<'a>,
}

impl<'a> Neighbours<'a> {
    /// What is known of all of them.
    pub(crate) fn put_together(self, alloc: Global) -> Looked<'a>
        requires { (fields : List FieldShape) × (q : Query) × (rows : Table) × (pieces : ℕ) × (from : ℕ) × (middle : ℕ) × (to : ℕ)
            × AreNeighbours fields q rows pieces from middle to self }
        ensures { (fields : List FieldShape) (q : Query) (rows : Table) (pieces from middle to : ℕ)
            → AreNeighbours fields q rows pieces from middle to self.entry → AreLooked fields q rows pieces from to result }
    {
        let Neighbours { early, late } = self;
        let mut whole = early?;
        whole.merge(alloc, late?)?;
        Ok(whole)
    }
}
