//! What holds of the texts of files. Users name `arrow_json`, which passes this on.
#![tactic(auto)]

pub mod laws;
pub mod whole;
