//! Input and output of the operations: readers and writers, and the words, lines and packets of an
//! input.
#![tactic(auto)]

mod buffered;
mod digits;
mod fault;
mod front_run;
mod held_lines;
mod input;
pub mod inputs;
pub mod laws;
mod line_end;
mod said_line;
mod short_words;
mod station_line;
mod stream;
mod text;
mod text_line;
mod word;
mod writing;

pub use fault::{KeptFault, ToolFault, Usage};
pub use held_lines::HeldLines;
pub use input::{Input, Limits};
pub use station_line::StationLine;
pub use stream::{Counted, Failed, Sink, Source};
pub use text::{Line, append, append_decimal, append_hex};
pub use text_line::TextLine;
pub use word::{Run, RunWord};
pub use writing::write_all;
