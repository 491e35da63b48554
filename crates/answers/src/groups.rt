//! What a query answers.

use group::Scalar;

/// What a query answers: a group for each key, in order of first appearance.
#[derive(Drop, Debug, PartialEq, Eq)]
pub struct Answer {
    pub groups: Vec<Group>,
}

/// The rows of one key.
#[derive(Drop, Debug, PartialEq, Eq)]
pub struct Group {
    /// The items of the key, in the order of the query's columns; none is null, which is a key like another.
    pub keys: Vec<Option<Scalar>>,
    /// The aggregates of the rows, in the order of the query's aggregates; none is null.
    pub cells: Vec<Option<Scalar>>,
}
