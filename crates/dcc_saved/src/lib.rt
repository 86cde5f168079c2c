//! Functions that read and write decoder texts, the theorem that a written text is read back, and
//! the word that names a decoder.
#![tactic(auto)]

mod decoder_fields;
mod decoder_line;
mod decoder_rows;
mod decoder_text;
mod decoder_words;
mod fleet_text;
mod head_forms;
pub mod laws;
mod saved;
mod saved_decoders;
mod saved_line;
mod who_word;

pub use fleet_text::write_fleet;
pub use saved::Saved;
pub use saved_decoders::read_decoders;
pub use who_word::read_who;
