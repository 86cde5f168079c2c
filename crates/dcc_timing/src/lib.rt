//! Statistics of a list of half-bits, which show how near a track is to the limits of NMRA S-9.1.
//!
//! Each statistic covers the whole list. A caller can pass the list half-bit by half-bit or run by
//! run.
//!
//! This crate does not allocate memory.
#![tactic(auto)]

mod bits;
mod classes;
mod covered;
mod gaps;
mod outcomes;
mod packets;
mod recent;
mod tally;
mod timings;

pub use bits::Bits;
pub use classes::Classes;
pub use outcomes::Outcomes;
pub use recent::LastNumbers;
pub use tally::{Mean, Tally};
pub use timings::Timings;
