//! A command that a station accepts directly before a stop.

ghost use Rattle.std.specs.Prelude.{◌≡◌, ◌↔◌, false, None, IfOk, IfSome};
ghost use Rattle.dcc_regs.specs.Safety.{can_move};
ghost use Rattle.dcc_station.specs.Commands.{is_sendable};
ghost use Rattle.dcc_station.specs.LaterStops.{ComesWithin};

use dcc_packet::Packet;
use dcc_station::{Station, StationFault, laws};
use std::alloc::Global;

/// Passes a command to a new station with two copies of each packet, stops the station, and returns
/// the next three packets. If the command sets no speed to a step, it is among these packets. Returns
/// `None` if a station does not send the command.
pub fn send_through_stop(
    alloc: Global,
    command: Packet,
) -> Result<Option<[Packet; 3]>, StationFault>
    ensures accepted { IfOk result (λ sent. (sent ≡ None) ↔ (is_sendable command ≡ false)) }
    ensures comes { IfOk result (λ sent. IfSome sent (λ packets.
        can_move command ≡ false → ComesWithin 2 command packets)) }
{
    laws::commands_are_sent_between_stops();
    let mut station = Station::new(alloc, 4, 8, 2)?;
    let Ok(()) = station.command(command) else {
        return Ok(None);
    };
    station.stop();
    let packets = [station.next(), station.next(), station.next()];
    Ok(Some(packets))
}
