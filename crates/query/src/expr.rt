//! Expressions and aggregates over columns of any name.

/// An operator of an expression.
#[derive(Clone, Copy, Debug, PartialEq, Eq)]
pub enum Op {
    Add,
    Sub,
    Mul,
    Eq,
    Ne,
    Lt,
    Le,
    Gt,
    Ge,
    And,
    Or,
    Not,
    IsNull,
}

/// An expression over the columns of a row; `C` is what calls a column, its name or its position.
///
/// One from a stranger may have more operators in one another than the stack has room for. The queries that own such an
/// expression let it go in a loop; one outside a query goes as any value does.
#[derive(Debug, Drop)]
pub enum Expr<C> {
    Column(C),
    /// A whole number, whose type is that of what stands beside it.
    Int(i128),
    Text(String),
    /// An operator and its operands, from left to right.
    Op(Op, Vec<Expr<C>>),
}

/// An aggregate over a group of rows.
#[derive(Clone, Copy, Debug, Drop, PartialEq, Eq)]
pub enum Agg<C> {
    /// How many rows there are.
    Rows,
    /// How many items of the column there are.
    Count(C),
    /// The exact sum of a column of integers.
    Sum(C),
    /// The least item of the column.
    Least(C),
    /// The greatest item of the column.
    Greatest(C),
}
