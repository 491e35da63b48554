//! Whether all workers of a table are there.

ghost use Rattle.std.specs.Prelude.{◌≡◌, ◌≤◌, IfNone, MatchOption, length};
ghost use Rattle.shared.specs.Missing.{AllThere, IsMissing, is_there};

use crate::naming::Naming;
use crate::worker::Worker;

/// The least number below the count that none of the workers has. Where there is none, there are as many workers.
#[tactic(auto, using(crate::proofs::HandLemmas::enough))]
pub(crate) fn first_missing<N: Naming>(workers: &[Worker<N>], count: u32) -> Option<u32>
    ensures reported { MatchOption result (AllThere count workers.now) (IsMissing count workers.now) }
    ensures enough { IfNone result (count ≤ length workers.now) }
{
    for number in 0..count {
        if !is_there(workers, number) {
            return Some(number);
        }
    }
    None
}

/// Whether one of the workers has the number.
fn is_there<N: Naming>(workers: &[Worker<N>], number: u32) -> bool
    ensures { result ≡ is_there workers.now number }
{
    for worker in workers {
        if worker.number() == number {
            return true;
        }
    }
    false
}
