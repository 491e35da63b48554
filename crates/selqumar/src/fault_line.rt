//! Faults of tables that are filled, as lines in the caller's buffer.
ghost use Rattle.std.specs.Prelude.{◌≡◌, ◌≢◌, ◌≤◌, Err, IfOk, IsErr, IsOk, OnOk, false, string_bytes};
ghost use Rattle.embed.specs.Prelude.{message};
ghost use Rattle.selqumar.specs.Status.{IsNothing, Leaves, Never};
ghost use Rattle.selqumar.specs.FaultLine.{IsFaultLine, wants_memory};
ghost use Rattle.selqumar.specs.FaultText.{intake_fault_text};

use crate::fault_text::line_of;
use crate::status::{FAULT, NO_MEMORY, done, put_items};
use arrays::NoMemory;
use embed::{AddFault, Refusal};
use intake::{FlatFault, IntakeFault};
use std::alloc::Global;

/// Puts nothing into a buffer, or the line of a fault, and answers the status.
pub(crate) fn put_outcome<T: Drop>(
    alloc: Global,
    outcome: Result<T, IntakeFault>,
    out: &mut [u8],
    needed: &mut usize,
) -> u32
    ensures status { result ≤ 3 }
    ensures done { result ≡ 0 → IsOk outcome }
    ensures leaves { Leaves IsNothing (IsFaultLine (λ fault. outcome ≡ Err fault)) result out.old out.new needed.old needed.new }
    ensures refused { result ≢ 0 → IsErr outcome }
{
    match outcome {
        Ok(_) => done(needed),
        Err(fault) => put_fault(alloc, fault, out, needed),
    }
}

/// Puts the line of a fault into a buffer, and answers the status.
pub(crate) fn put_fault(
    alloc: Global,
    fault: IntakeFault,
    out: &mut [u8],
    needed: &mut usize,
) -> u32
    ensures status { result ≤ 3 }
    ensures refused { result ≢ 0 }
    ensures leaves { Leaves Never (IsFaultLine (λ f. f ≡ fault)) result out.old out.new needed.old needed.new }
{
    match told_line(alloc, fault) {
        Ok(line) => put_items(line.as_bytes(), FAULT, out, needed),
        Err(NoMemory) => NO_MEMORY,
    }
}

/// The line of a fault, if it isn't want of memory, which takes none.
fn told_line(alloc: Global, fault: IntakeFault) -> Result<String, NoMemory>
    ensures line { IfOk result (λ text. string_bytes text ≡ message (intake_fault_text fault)) }
    ensures other { OnOk result (wants_memory fault ≡ false) }
{
    if wants_memory(fault) {
        return Err(NoMemory);
    }
    line_of(alloc, fault)
}

/// Whether a fault is want of memory.
fn wants_memory(fault: IntakeFault) -> bool
    ensures { result ≡ wants_memory fault }
{
    match fault {
        IntakeFault::Flat { fault } => matches!(fault, FlatFault::NoMemory),
        IntakeFault::Refused { refusal } => matches!(refusal, Refusal::NoMemory),
        IntakeFault::NotOneColumn { columns: _ } => false,
        IntakeFault::Column { fault } => matches!(fault, AddFault::NoMemory),
    }
}
