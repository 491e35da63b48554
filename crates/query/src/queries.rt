//! Whole queries, by name and by position.

ghost use Rattle.std.specs.Prelude.{◌≡◌};
ghost use Rattle.query.specs.QueryShape.{query_shape};
ghost use Rattle.query.specs.FirstFault.{fits};

use crate::expr::{Agg, Expr};
use crate::kinds::{check_parts, is_too_deep};
use arrayvec::ArrayVec;
use std::alloc::Global;
use types::Schema;

/// A query as it is written: columns are called by name.
#[derive(Debug)]
pub struct QueryText {
    /// Which rows are looked at: those where it is true. Every row, where it is none.
    pub filter: Option<Expr<String>>,
    /// The columns whose items together are the key of a group.
    pub by: ArrayVec<String, 4, Global>,
    /// The aggregates of each group.
    pub aggs: Vec<Agg<String>>,
}

/// A query over the fields of one schema: columns are called by position.
#[derive(Debug)]
pub struct Query {
    /// Which rows are looked at: those where it is true. Every row, where it is none.
    pub filter: Option<Expr<u32>>,
    /// The columns whose items together are the key of a group.
    pub by: ArrayVec<u32, 4>,
    /// The aggregates of each group.
    pub aggs: Vec<Agg<u32>>,
}

impl Query {
    /// Whether it is a query over the fields of the schema: each position is that of a field, all kinds are right, and no path
    /// of the filter has more than 32 expressions. It takes no memory, and goes down 33 levels at most.
    pub fn fits(&self, schema: &Schema) -> bool
        ensures { result ≡ fits schema.now (query_shape self.now) }
    {
        !is_too_deep(&self.filter)
            && check_parts(&self.filter, &self.by, &self.aggs, schema).is_ok()
    }
}

impl Drop for QueryText {
    fn drop(self) {
        let QueryText { filter, by, aggs } = self;
        drop(by);
        drop(aggs);
        release(filter);
    }
}

impl Drop for Query {
    fn drop(self) {
        let Query { filter, by, aggs } = self;
        drop(by);
        drop(aggs);
        release(filter);
    }
}

/// Lets go of an expression with all that stands in it, in a loop: what is still to be let go stands on a list. Where the
/// list can't grow, the operands that have no room there go as any value does.
fn release<C: Drop>(filter: Option<Expr<C>>) {
    let Some(expr) = filter else {
        return;
    };
    let Some(mut open) = operands(expr) else {
        return;
    };
    for _expr in 0..u64::MAX {
        let Some(expr) = open.pop() else {
            return;
        };
        if let Some(mut inner) = operands(expr) {
            let _ = open.append(&mut inner);
        }
    }
}

/// The operands of an operator; the rest of the expression is let go.
fn operands<C: Drop>(expr: Expr<C>) -> Option<Vec<Expr<C>>> {
    match expr {
        Expr::Op(_op, operands) => Some(operands),
        Expr::Column(_column) => None,
        Expr::Int(_number) => None,
        Expr::Text(_text) => None,
    }
}
