//! The registers of decoders, and the effects of packets on them (NMRA S-9.2.1; RCN-212 to
//! RCN-214).
//!
//! This crate does not allocate memory.
#![tactic(auto)]

mod applying;
mod aspects;
mod board;
mod board_state;
mod boxed;
mod conflicts;
mod cvs;
mod decoder;
mod effects;
mod function_bits;
mod heard;
mod hearers;
mod hears_frame;
mod last_note;
pub mod laws;
mod loco;
mod loco_registers;
mod loco_state;
mod masked;
mod masked_byte;
mod notify;
mod outputs;
mod packed_board;
mod packed_loco;
mod register;
mod same;
mod speeds;
mod states;
mod stored_cvs;
mod writes;

pub use applying::{apply_all, apply_and_announce};
pub use aspects::Aspects;
pub use board::BoardDecoder;
pub use board_state::BoardState;
pub use conflicts::{conflict, sets_nothing};
pub use cvs::{execute_write, mode_of};
pub use decoder::Decoder;
pub use effects::Effects;
pub use function_bits::{first_function, functions_set};
pub use heard::{address_of, frame_address, hears};
pub use hears_frame::loco_hears_frame;
pub use last_note::LastNote;
pub use loco::LocoDecoder;
pub use loco_registers::{LocoRegisters, is_speed};
pub use loco_state::{LocoState, functions_in};
pub use masked::Masked;
pub use masked_byte::MaskedByte;
pub use notify::{Notify, announce};
pub use packed_board::PackedBoard;
pub use packed_loco::PackedLoco;
pub use register::{Register, Speed, SpeedMode, Value, Who};
pub use same::same_registers;
pub use speeds::{direction_set, speed_set};
pub use states::states_set;
pub use writes::is_own_write;
