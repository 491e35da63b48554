//! Arrays of truth values given place by place, and the validity of two views together. Users name `kernels`; this is for the
//! crates that compute on views.
#![tactic(auto)]

pub mod array;
pub mod validity;

pub use array::array_of;
pub use validity::{Items, Valid, both_valid};
