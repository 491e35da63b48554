//! A gate that tells which pieces passed it, one at which a piece waits for another, and one that tells which rows a piece has.

use answers::Gate;
use std::hint::spin_loop;
use std::sync::atomic::{AtomicBool, AtomicU32, AtomicU64, Ordering};

/// A gate that counts.
#[derive(Drop)]
pub(crate) struct Counting {
    /// A bit for each place that passed.
    passed: AtomicU64,
    /// How often a place passed again, or passed that is none of a piece, or passed before another work than its first.
    others: AtomicU64,
}

impl Counting {
    pub(crate) fn new() -> Counting {
        Counting {
            passed: AtomicU64::new(0),
            others: AtomicU64::new(0),
        }
    }

    /// Whether each of so many places has passed once, before its first work, and no other has.
    pub(crate) fn has_let_in(&self, pieces: u32) -> bool {
        self.others.load(Ordering::SeqCst) == 0
            && self.passed.load(Ordering::SeqCst).trailing_ones() == pieces
            && self.passed.load(Ordering::SeqCst).count_ones() == pieces
    }
}

impl Gate for Counting {
    fn pass(&self, place: u32, call: u32) {
        let is_new = match 1u64.checked_shl(place) {
            Some(bit) => self.passed.fetch_or(bit, Ordering::SeqCst) & bit == 0,
            None => false,
        };
        if !is_new || call != 0 {
            self.others.fetch_add(1, Ordering::SeqCst);
        }
    }
}

/// A gate at which one piece waits for another.
#[derive(Drop)]
pub(crate) struct Holding {
    /// The place of the one that waits, and of the one that it waits for.
    holder: u32,
    awaited: u32,
    /// The other has passed.
    is_open: AtomicBool,
    /// The one that waits has waited for long, and went on alone.
    is_late: AtomicBool,
}

/// How often the one that waits looks whether the other has passed.
const TURNS: u32 = 100_000_000;

impl Holding {
    pub(crate) fn new(holder: u32, awaited: u32) -> Holding {
        Holding {
            holder,
            awaited,
            is_open: AtomicBool::new(false),
            is_late: AtomicBool::new(false),
        }
    }

    /// Whether the other has passed, and the one that waits didn't go on without it.
    pub(crate) fn has_waited(&self) -> bool {
        self.is_open.load(Ordering::SeqCst) && !self.is_late.load(Ordering::SeqCst)
    }

    fn wait(&self) {
        for _turn in 0..TURNS {
            if self.is_open.load(Ordering::SeqCst) {
                return;
            }
            spin_loop();
        }
        self.is_late.store(true, Ordering::SeqCst);
    }
}

impl Gate for Holding {
    fn pass(&self, place: u32, _call: u32) {
        if place == self.holder {
            self.wait();
        } else if place == self.awaited {
            self.is_open.store(true, Ordering::SeqCst);
        }
    }
}

/// A gate that lets pieces in from the last on, each once the one behind it has let others go first as often as its number says. So
/// it tells which rows the thread looks at that passes with a number, where these make it give so many turns.
#[derive(Drop)]
pub(crate) struct Ordered {
    /// How many pieces are still outside.
    outside: AtomicU32,
    /// How many turns the piece has given that came in last.
    given: AtomicU32,
    /// A piece gave a turn that was not in, or more than its number says, or one waited for long and went on.
    is_wrong: AtomicBool,
}

impl Ordered {
    pub(crate) fn new(pieces: u32) -> Ordered {
        Ordered {
            outside: AtomicU32::new(pieces),
            given: AtomicU32::new(pieces),
            is_wrong: AtomicBool::new(false),
        }
    }

    /// Whether all pieces came in, in order, and each gave as many turns as its number says.
    pub(crate) fn was_kept(&self) -> bool {
        self.outside.load(Ordering::SeqCst) == 0
            && self.given.load(Ordering::SeqCst) == 0
            && !self.is_wrong.load(Ordering::SeqCst)
    }

    /// Whether it is the turn of the piece to come in.
    fn lets_in(&self, place: u32) -> bool {
        let outside = self.outside.load(Ordering::SeqCst);
        outside == place.wrapping_add(1) && self.given.load(Ordering::SeqCst) == outside
    }

    fn wait(&self, place: u32) {
        for _turn in 0..TURNS {
            if self.lets_in(place) {
                return;
            }
            spin_loop();
        }
        self.is_wrong.store(true, Ordering::SeqCst);
    }
}

impl Gate for Ordered {
    fn pass(&self, place: u32, _call: u32) {
        self.wait(place);
        self.given.store(0, Ordering::SeqCst);
        self.outside.store(place, Ordering::SeqCst);
    }

    fn turn(&self) {
        let before = self.given.fetch_add(1, Ordering::SeqCst);
        if before >= self.outside.load(Ordering::SeqCst) {
            self.is_wrong.store(true, Ordering::SeqCst);
        }
    }
}
