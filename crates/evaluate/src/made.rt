//! What kernels make of operands that they take.

ghost use Rattle.std.specs.Prelude.{◌≡◌, false, IfErr};
ghost use Rattle.evaluate.specs.Making.{is_of_operands, stop_of, values_of};

use crate::stop::Stop;
use crate::values::{Operand, Values};
use arrays::Array;
use kernels::KernelFault;

/// The values that a kernel made, where types and lengths are right: all that it refuses is a row.
pub(crate) fn values_of<'a>(made: Result<Array, KernelFault>) -> Result<Values<'a>, Stop>
    requires { IfErr made (λ fault. is_of_operands fault ≡ false) }
    ensures { result ≡ values_of made }
{
    match made {
        Ok(array) => Ok(Values::Column(Operand::Made(array))),
        Err(fault) => Err(stop_of(fault)),
    }
}

/// What a kernel's fault says of the rows.
fn stop_of(fault: KernelFault) -> Stop
    requires { is_of_operands fault ≡ false }
    ensures { result ≡ stop_of fault }
{
    match fault {
        KernelFault::Overflow { row } => Stop::Bad(row),
        KernelFault::NoMemory => Stop::NoMemory,
        KernelFault::TypesDiffer | KernelFault::LengthsDiffer => unreachable!(),
    }
}
