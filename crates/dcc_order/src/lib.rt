//! Decoders that hear a track, lists of packets that are alike for a decoder, and the first
//! difference of two lists of packets.
#![tactic(auto)]

mod alike_tracks;
mod comparer;
mod comparing;
mod comparison;
mod fleet;
mod frame_number;
mod given_list;
mod hearing;
mod held_blocks;
mod last_heard;
pub mod laws;
mod no_memory;
mod numbered_blocks;
mod single;
mod turns;
mod verdict;
mod wants;

pub use alike_tracks::{hear_track, hear_two_tracks};
pub use comparer::Comparer;
pub use comparing::compare;
pub use hearing::{hear, hear_half, hear_half_run, hear_piece, hear_run};
pub use no_memory::NoMemory;
pub use single::{hear_one, hear_two};
pub use verdict::Verdict;
pub use wants::Wants;
