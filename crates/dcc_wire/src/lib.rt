//! The electrical layer and the packet layer of Digital Command Control (NMRA S-9.1, S-9.2;
//! RCN-210, RCN-211). The crate finds the packets in half-bits, and computes the half-bits of a
//! packet that is sent.
//!
//! This crate does not allocate memory.
#![tactic(auto)]

mod byte_bits;
mod bytes;
mod frame;
mod framer;
mod half;
mod halves;
mod kept;
pub mod laws;
mod many;
mod run;
mod seen;
mod timing;

pub use frame::{Frame, FrameFault};
pub use framer::Framer;
pub use half::Half;
pub use halves::Halves;
pub use kept::KeptFramer;
pub use many::ManySeen;
pub use run::RunSeen;
pub use seen::{Body, Fault, Seen};
pub use timing::{Timing, TimingFault};
