//! What a piece of work passes before it begins.

use std::thread::yield_now;

/// Where values at work together may be made to wait for one another. It promises only that it returns.
pub trait Gate: Sync {
    /// Called by the value at `place` before its work number `call`.
    fn pass(&self, place: u32, call: u32);

    /// Called by a value in the midst of its work, where others may have their turn first. Unless a gate says otherwise, they do.
    fn turn(&self) {
        yield_now();
    }
}

/// A gate at which nothing waits.
#[derive(Clone, Copy, Debug)]
pub struct OpenGate;

impl Gate for OpenGate {
    fn pass(&self, _place: u32, _call: u32) {}
}
