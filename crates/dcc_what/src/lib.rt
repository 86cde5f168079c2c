//! The operation `what`, which says in a sentence what an input is.
#![tactic(auto)]

mod kind;
mod lines;
mod reading;
mod sentence;
mod source;
mod what_call;

pub use kind::Kind;
pub use what_call::what;
