//! The toolkit for programs in C. The functions find packets and lost packets in half-bits, compute
//! the statistics of a track, read and send packets, and implement decoders, command stations, the
//! programming track, and the reading and writing of CVs. The caller owns the memory of all objects,
//! and no function allocates. `include/dcc.h` declares these functions and lists the duties of a
//! caller.
#![tactic(auto)]

mod board;
mod board_decoder;
mod decoder;
mod frame;
mod framer;
mod functions;
mod halves;
mod kept_packet;
pub mod laws;
mod line;
mod loco;
mod loco_numbers;
mod loco_setting;
mod lost;
mod lost_packet;
mod meter;
mod outcome;
mod packet;
mod packet_fields;
mod plain;
mod possible_board;
mod possible_loco;
mod push_many;
mod reader;
mod sender;
mod service;
mod service_packet;
mod small_loco;
mod small_service;
mod station;
mod station_forget;
mod station_numbers;
mod station_ring;
mod timing;
mod track_answer;
mod track_part;
mod writer;

pub use board::DccBoard;
pub use board_decoder::DccBoardDecoder;
pub use decoder::DccDecoder;
pub use frame::DccFrame;
pub use functions::DccFunctions;
pub use loco_numbers::{DccLoco, DccLocoRegisters};
pub use lost_packet::{DccLostPacket, DccOffLimits, DccShortPreamble};
pub use meter::DccStatistics;
pub use outcome::DccOutcome;
pub use packet::DccPacket;
pub use reader::DccReader;
pub use service::{DccService, DccSmallService};
pub use service_packet::DccServicePacket;
pub use small_loco::DccSmallLoco;
pub use station_numbers::DccStation;
pub use timing::DccTiming;
pub use track_answer::DccAnswer;
pub use writer::DccWriter;
