//! The leave to start threads and to wait.

use std::marker::PhantomData;
use std::sync::Wait;
use std::thread::Threads;

/// The leave to start threads and to wait, where R has it. It holds nothing, so a trait's method can show that threads may
/// share it, which it can't of an R.
#[derive(Drop)]
pub(crate) struct Permit<R>(PhantomData<R>);

impl<R> Permit<R> {
    /// What R may.
    pub(crate) fn of(_rt: &R) -> Permit<R> {
        Permit(PhantomData)
    }
}

impl<R: Threads> Threads for Permit<R> {}

impl<R: Wait> Wait for Permit<R> {}
