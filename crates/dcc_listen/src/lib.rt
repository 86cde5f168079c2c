//! The operations on captures, except `show`. The operation `show_plain` lists a capture in plain
//! words. The operation `lost` lists the packets that a decoder
//! does not hear, and `lost_with_spikes` also those with spikes in them. The operation `timing` writes
//! the statistics of a capture, and `run` lets a fleet hear a capture.
//! The operations `same` and `same_input` compare two captures for a decoder.
#![tactic(auto)]

mod first_capture;
mod gathering;
mod in_step;
pub mod laws;
mod lost_call;
mod lost_line;
mod pending;
mod plain_call;
mod run_call;
mod same_call;
mod same_input_call;
mod side;
mod spiked_call;
mod spiked_line;
mod taking;
mod timing_call;
mod timing_text;
mod verdict_line;

/// The number of half-bits that an operation reads at once.
const AT_ONCE: usize = 256;

pub use lost_call::lost;
pub use plain_call::show_plain;
pub use run_call::run;
pub use same_call::same;
pub use same_input_call::{compare_both, same_input};
pub use spiked_call::lost_with_spikes;
pub use timing_call::{measure, timing};
