//! Functions that read the runs of a capture, or of the first of two captures in one input, and
//! functions that write the listing of a capture.
#![tactic(auto)]

mod first_capture;
pub mod laws;
mod listed_runs;
mod listing;
mod runs;
mod show_call;

pub use first_capture::next_of_first;
pub use listed_runs::{next_listed_run, write_rest};
pub use listing::{append_frame, outcome_line};
pub use runs::read_run;
pub use show_call::{LineForm, list_outcomes, show};
