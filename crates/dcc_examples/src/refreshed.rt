//! A function that lets a decoder hear all copies of a command of a station. The decoder then has
//! the result of the command.

ghost use Rattle.std.specs.Prelude.{◌≡◌, ◌≢◌, ◌∷◌, [], Ok, true, IfOk};
ghost use Rattle.dcc_regs.specs.Result.{result as after};
ghost use Rattle.dcc_regs.specs.declared.register.Register.{Register};
ghost use Rattle.dcc_regs.specs.declared.register.Register.TheVariants as registers;
ghost use Rattle.dcc_station.specs.Commands.{is_sendable};
ghost use Rattle.dcc_station.specs.Refresh.{intended};

use dcc_packet::Packet;
use dcc_regs::Decoder;
use dcc_station::{Station, StationFault, laws};
use std::alloc::Global;

/// Passes one command to a new station, and lets a decoder hear the packets of the station until
/// the queue is empty. Returns false if the station refuses the command, because a station does not
/// send this packet.
pub fn send_one<D: Decoder>(
    alloc: Global,
    decoder: &mut D,
    command: Packet,
) -> Result<bool, StationFault>
    ensures sent { IfOk result (λ sent. sent ≡ is_sendable command) }
    ensures holds { result ≡ Ok true → (r : Register) → r ≢ registers.Pending
        → D.registers decoder.new r ≡ after (D.who decoder.old) (D.registers decoder.old) (intended (command ∷ [])) r }
{
    laws::stations_are_heard();
    let mut station = Station::new(alloc, 16, 32, 2)?;
    if station.command(command).is_err() {
        return Ok(false);
    }
    'copies: while station.waiting() > 0 {
        decoder.apply(&station.next());
    }
    Ok(true)
}
