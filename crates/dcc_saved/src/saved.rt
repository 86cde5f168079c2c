//! The type of the state of a decoder in a decoder text.

use dcc_regs::{BoardState, LocoState};

/// The state of a decoder in a decoder text. `LocoDecoder::restore` or `BoardDecoder::restore`
/// creates the decoder with this state.
#[derive(Clone, Copy)]
pub enum Saved {
    /// The state of a locomotive decoder.
    Loco(LocoState),
    /// The state of an accessory decoder.
    Board(BoardState),
}
