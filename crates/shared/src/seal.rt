//! What no other crate can name.

/// That a call is made by this crate.
#[derive(Drop)]
pub struct Seal;
