//! Service mode: configuration variables (CVs) that are read and written on the programming track,
//! in direct mode (NMRA S-9.2.3). A station sends questions, and a decoder acknowledges each
//! question or stays silent.
//!
//! This crate does not allocate memory.
#![tactic(auto)]

mod decoder;
mod from_frame;
pub mod laws;
mod packet;
mod progress;
mod question;
mod reader;
mod state;
mod stored_cvs;
mod to_frame;
mod writer;

pub use decoder::ServiceDecoder;
pub use packet::ServicePacket;
pub use progress::ServiceProgress;
pub use question::{ask, question_frames};
pub use reader::{CvReader, Reading};
pub use writer::{CvWriter, Writing};
