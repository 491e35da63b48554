//! Kernels over views of Arrow arrays: views in, arrays out, checked.
#![tactic(auto)]

pub mod arithmetic;
pub mod comparison;
pub mod fault;
pub mod kleene;
pub mod nulls;
mod side;

pub use arithmetic::{add, add_number, mul, mul_number, sub, sub_from_number, sub_number};
pub use colbits::{Both, Places};
pub use comparison::{CmpOp, compare, compare_number};
pub use fault::KernelFault;
pub use kleene::{kleene_and, kleene_not, kleene_or};
pub use nulls::is_null;
pub use truths::{Items, Valid, array_of};
