//! Texts each once, and columns of texts recoded into their places.
#![tactic(auto)]

mod coded_view;
pub mod fault;
mod placing;
pub mod recoding;
pub mod text_pool;
pub mod unifying;

pub use fault::PoolFault;
pub use recoding::recode;
pub use text_pool::TextPool;
pub use unifying::unify;
