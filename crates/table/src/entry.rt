/// What one accepted call added: the worker that made it, and how many rows.
#[derive(Clone, Copy, Debug, PartialEq, Eq)]
pub struct Entry {
    pub worker: u32,
    pub rows: u32,
}
