//! What is requested, and of which rows.

use crate::cuts::Cuts;
use arrays::RecordBatch;
use crews::Gate;
use keys::TextSet;
use query::Query;
use std::alloc::Global;
use std::sync::Arc;

/// The rows of all batches, one batch after the other, which are looked at in pieces, and the query that is answered over them.
#[derive(Drop)]
pub(crate) struct Scan<'a, 's, G: Gate> {
    pub(crate) alloc: Global,
    pub(crate) batches: &'s [Arc<RecordBatch>],
    pub(crate) query: &'s Query,
    /// Texts that are likely to be among the keys of all pieces.
    pub(crate) common: &'a TextSet,
    pub(crate) cuts: Cuts,
    /// What each piece passes before its first row.
    pub(crate) gate: &'s G,
}
