//! Values that do a task, all of them at once.

ghost use Rattle.std.specs.Prelude.{◌≡◌, ◌<◌, ℕ, length, slice_index_or};

use crate::task::Task;
use std::thread::{Threads, for_each_mut};

/// Has each value do its part of the task, all of them at once, each in a thread of its own. Where no thread can be made, its
/// part is done before or behind another's.
pub fn run_all<H: Send, T: Threads + Sync, J: Task<H> + Sync>(
    threads: &T,
    hands: &mut [H],
    task: &J,
)
    requires { length hands.old ≡ J.count task.now }
    ensures { (place : ℕ) (d : H) → place < length hands.old
        → J.does task.now place (slice_index_or hands.old place d) (slice_index_or hands.new place d) }
{
    let count = hands.len();
    if count == 0 {
        return;
    }
    for_each_mut(
        threads,
        hands,
        count,
        &|place: usize, hand: &mut H|
            requires { place < J.count task.now }
            ensures { J.does task.entry.now place hand.old hand.new }
        { task.work(place, hand) },
    );
}
