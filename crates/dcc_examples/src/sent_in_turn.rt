//! A function that passes two commands to a station. The second command is sent directly after the
//! copies of the first command.

ghost use Rattle.std.specs.Prelude.{◌≡◌, ◌↔◌, ◌++◌, ◌∷◌, [], ◌&&◌, false, None, List, IfOk, IfSome};
ghost use Rattle.dcc_station.specs.Commands.{is_sendable};
ghost use Rattle.dcc_station.specs.WaitingTimes.{all_copies};

use dcc_packet::Packet;
use dcc_station::{Station, StationFault, laws};
use std::alloc::Global;

/// Passes two commands to a new station whose number of copies is 1, and returns the next three
/// packets of the station. The first packets are the copies of the first command, and the next
/// packet is the second command. The station sends an own write twice, so the second command is the
/// second or the third packet. Returns `None` if a station does not send one of the two commands.
pub fn send_two(
    alloc: Global,
    first: Packet,
    second: Packet,
) -> Result<Option<[Packet; 3]>, StationFault>
    ensures accepted { IfOk result (λ sent. (sent ≡ None) ↔ ((is_sendable first && is_sendable second) ≡ false)) }
    ensures in_turn { IfOk result (λ sent. IfSome sent (λ packets.
        (rest : List Packet) × (packets ≡ all_copies 1 (first ∷ []) ++ second ∷ rest))) }
{
    laws::runs_go_on();
    laws::commands_are_sent_in_time();
    let mut station = Station::new(alloc, 4, 8, 1)?;
    let (Ok(()), Ok(())) = (station.command(first), station.command(second)) else {
        return Ok(None);
    };
    let packets = [station.next(), station.next(), station.next()];
    Ok(Some(packets))
}
