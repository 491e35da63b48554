//! How work in parts is shared out to threads.

ghost use Rattle.std.specs.Prelude.{◌≤◌, ◌*◌};

/// Of so many parts at most, one thread starts the threads of all: where several start some at once, systems often put two of
/// these on one processor while another is idle.
const FEW_PARTS: u32 = 4;

/// How many of so many parts, the last ones, go to a new thread, which shares them out again. The first ones stay with the one that
/// starts it, which puts what comes behind to what it has.
pub(crate) fn back_of(parts: u32) -> u32
    requires { 2 ≤ parts }
    ensures some { 1 ≤ result }
    ensures half { 2 * result ≤ parts }
{
    if parts <= FEW_PARTS { 1 } else { parts / 2 }
}

/// How many of so many things are for the parts that go to a new thread.
pub(crate) fn share_of(count: usize, parts: u32) -> usize
    requires { 2 ≤ parts }
    ensures { result ≤ count }
{
    if parts <= FEW_PARTS {
        count / parts as usize
    } else {
        count / 2
    }
}
