//! Statuses of calls, and what they leave in the caller's buffer.
ghost use Rattle.std.specs.Prelude.{◌≡◌, ◌⊎◌, ◌≤◌, Err, IfErr, IfOk, map, string_bytes};
ghost use Rattle.embed.specs.Refused.{StopsTexts};
ghost use Rattle.selqumar.specs.Status.{IsLine, IsTextOf, IsTooShort, IsValid, IsWritten, Leaves};

use embed::{RunFault, line_of, validate};
use std::alloc::Global;

/// All of the text is in the buffer, or all of the nodes.
pub(crate) const GIVEN: u32 = 0;

/// The line of a fault is in the buffer.
pub(crate) const FAULT: u32 = 1;

/// The buffer is too short.
const SHORT: u32 = 2;

/// A growth was refused.
pub(crate) const NO_MEMORY: u32 = 3;

/// No table is open, or no snapshot.
pub(crate) const NOT_OPEN: u32 = 4;

/// There is no such batch.
pub(crate) const NO_BATCH: u32 = 5;

/// Puts the text of an answer, or the line of its fault, into a buffer, and answers the status.
pub(crate) fn put(
    alloc: Global,
    answered: Result<String, RunFault>,
    out: &mut [u8],
    needed: &mut usize,
) -> u32
    ensures status { result ≤ 3 }
    ensures leaves { Leaves (IsTextOf answered) (IsLine (λ fault. answered ≡ Err fault)) result out.old out.new needed.old needed.new }
{
    match answered {
        Ok(text) => put_items(text.as_bytes(), GIVEN, out, needed),
        Err(RunFault::NoMemory) => NO_MEMORY,
        Err(fault) => match line_of(alloc, &fault) {
            Ok(line) => put_items(line.as_bytes(), FAULT, out, needed),
            Err(_) => NO_MEMORY,
        },
    }
}

/// Puts items at the front of a buffer, and answers the status, or that the buffer is too short.
pub(crate) fn put_items<T: Copy>(items: &[T], status: u32, out: &mut [T], needed: &mut usize) -> u32
    requires { status ≤ 1 }
    ensures status { result ≡ status ⊎ (result ≡ 2) }
    ensures written { result ≤ 1 → IsWritten items.now out.old out.new needed.new }
    ensures short { result ≡ 2 → IsTooShort items.now out.old out.new needed.new }
{
    let len = items.len();
    *needed = len;
    if out.len() < len {
        return SHORT;
    }
    out[..len].copy_from_slice(items);
    status
}

/// Puts nothing into a buffer, and answers the status.
pub(crate) fn done(needed: &mut usize) -> u32
    ensures status { result ≡ 0 }
    ensures count { needed.new ≡ 0 }
{
    *needed = 0;
    GIVEN
}

/// An empty text, where all files can be loaded into one table.
pub(crate) fn validity(alloc: Global, files: &[&[u8]]) -> Result<String, RunFault>
    ensures ok { IfOk result (λ text. IsValid (map (λ f. f.now) files.now) (string_bytes text)) }
    ensures err { IfErr result (λ e. (e ≡ RunFault.NoMemory) ⊎ StopsTexts (map (λ f. f.now) files.now) e) }
{
    validate(alloc, files)?;
    Ok(String::new(alloc))
}
