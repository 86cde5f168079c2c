//! A command station with a queue of commands, and with entries that it sends again and again.
#![tactic(auto)]

mod commands;
mod entries;
mod fault;
mod fixed_ring;
mod forget;
mod functions;
pub mod laws;
mod left;
mod machine;
mod ring;
mod station;
mod stop;

pub use commands::can_move;
pub use entries::{displaces, displaces_by_registers, displaces_loco};
pub use fault::{Refused, StationFault};
pub use fixed_ring::FixedRing;
pub use forget::forget_address;
pub use functions::Functions;
pub use machine::{hand_out, take_command};
pub use ring::PacketRing;
pub use station::{FixedStation, Station, StationOver, are_within_limits};
pub use stop::stop_all;
