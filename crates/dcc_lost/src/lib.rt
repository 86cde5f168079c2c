//! Packets that a decoder does not hear, and their causes (NMRA S-9.1, S-9.2; RCN-210, RCN-211).
//!
//! A framer returns no outcome while it looks for a preamble. So the framer says nothing about a
//! packet with a short preamble, or with half-bits of ones outside 52 to 64 microseconds. A
//! [`LostFinder`] finds such packets by the nearest classes of half-bits, and returns their causes.
//!
//! This crate does not allocate memory.
#![tactic(auto)]

mod bodies;
mod causes;
mod figures;
mod finder;
mod heard;
mod joined;
pub mod laws;
mod nearest;
mod rings;

pub use causes::{LostPacket, OffLimits, ShortPreamble};
pub use figures::TrackFigures;
pub use finder::{LostFinder, LostRun};
pub use joined::{SpikeFinder, SpikedPacket};
