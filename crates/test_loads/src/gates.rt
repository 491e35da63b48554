//! A gate that counts who passes, and at which one worker may wait for another.

use crate::scenes::Passed;
use loads::Gate;
use std::hint::spin_loop;
use std::sync::atomic::{AtomicBool, AtomicU64, Ordering};

/// A gate that counts how often two workers pass it, the first behind the second where it is held.
#[derive(Drop)]
pub(crate) struct Counting {
    is_held: bool,
    first: AtomicU64,
    second: AtomicU64,
    /// How often anybody else passed, or a worker before another append than the one that it was to make.
    others: AtomicU64,
    /// The first has waited for long, and went on alone.
    is_late: AtomicBool,
}

/// How often the first worker looks whether the second has passed.
const TURNS: u32 = 100_000_000;

impl Counting {
    pub(crate) fn new(passed: Passed) -> Counting {
        Counting {
            is_held: matches!(passed, Passed::Held(_, _)),
            first: AtomicU64::new(0),
            second: AtomicU64::new(0),
            others: AtomicU64::new(0),
            is_late: AtomicBool::new(false),
        }
    }

    /// Whether the workers passed so often, each before its appends from 0 on, and the first didn't go on without the second.
    pub(crate) fn has_let_in(&self, passed: Passed) -> bool {
        let (Passed::Free(first, second) | Passed::Held(first, second)) = passed;
        self.first.load(Ordering::SeqCst) == first
            && self.second.load(Ordering::SeqCst) == second
            && self.others.load(Ordering::SeqCst) == 0
            && !self.is_late.load(Ordering::SeqCst)
    }

    /// Returns once the second worker has passed.
    fn wait(&self) {
        for _turn in 0..TURNS {
            if self.second.load(Ordering::SeqCst) > 0 {
                return;
            }
            spin_loop();
        }
        self.is_late.store(true, Ordering::SeqCst);
    }
}

impl Gate for Counting {
    fn pass(&self, place: u32, call: u32) {
        if place == 0 && self.is_held {
            self.wait();
        }
        let before = match place {
            0 => self.first.fetch_add(1, Ordering::SeqCst),
            1 => self.second.fetch_add(1, Ordering::SeqCst),
            _ => u64::from(call),
        };
        if before != u64::from(call) {
            self.others.fetch_add(1, Ordering::SeqCst);
        }
    }
}
