//! One decoder on the main track and on the programming track (NMRA S-9.2.3; RCN-214). The decoder
//! hears the frames of both tracks, and changes between them as the frames ask for it.
//!
//! This crate does not allocate memory.
#![tactic(auto)]

mod answer;
mod board;
mod board_steps;
mod both_tracks;
mod in_parts;
pub mod laws;
mod loco;
mod main_track;
mod packed_loco;
mod programmable;
mod serving;
mod track;

pub use answer::TrackAnswer;
pub use board::BoardWithCvs;
pub use board_steps::{board_after_packet, board_after_power_up, board_with_cvs};
pub use in_parts::{end_service_in_parts, hear_in_parts};
pub use programmable::Programmable;
pub use track::TrackDecoder;
