//! The plain words of packets: speed steps, functions, turnouts and CVs in a text for people. The
//! packets of the standard that the toolkit does not obey have words too, for example those of a
//! consist.
//!
//! This crate does not allocate memory.
#![tactic(auto)]

mod any_bytes;
mod bits;
mod functions;
pub mod laws;
mod packet_from_bytes;
mod packet_to_bytes;
mod standard;
mod standard_words;
mod text;
mod what_from_bytes;
mod words;

pub use any_bytes::put_plain_text_of_bytes;
pub use packet_from_bytes::standard_read;
pub use packet_to_bytes::{StandardFrame, standard_frame};
pub use standard::{FewBytes, StandardPacket, StandardWhat};
pub use text::PlainText;
pub use words::{plain_text, put_plain_text};
