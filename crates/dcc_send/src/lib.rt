//! The operations that send packets: `encode` for packet lines, with or without a station, and
//! `readcv`, which reads a CV on a programming track.
#![tactic(auto)]

mod encode_call;
mod encoded_line;
mod encoding;
mod next_line;
mod programming_track_decoder;
mod programming_track_line;
mod readcv_call;
mod station_encoding;

pub use encode_call::encode;
pub use encoding::Encode;
pub use programming_track_decoder::programming_track;
pub use readcv_call::readcv;
