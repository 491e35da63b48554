//! That the library gives what the program prints.
#![tactic(auto)]

pub mod laws;
