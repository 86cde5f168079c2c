//! A station that sends packets. The next packet of the station becomes half-bits, and a framer
//! finds the packet in these half-bits.

ghost use Rattle.std.specs.Prelude.{◌≡◌, ◌++◌, ◌∷◌, [], List, IfOk, length};
ghost use Rattle.dcc_wire.specs.Frames.{IsFrame};
ghost use Rattle.dcc_wire.specs.HalvesLeft.{halves_left};
ghost use Rattle.dcc_wire.specs.NominalTimings.{main_timing};
ghost use Rattle.dcc_wire.specs.Sending.{Sent, sent};
ghost use Rattle.dcc_packet.specs.Spelling.{spelling};
ghost use Rattle.dcc_station.specs.Sending.{Next};
ghost use Rattle.dcc_order.specs.SentHalves.{HasHeardAll};
ghost use Rattle.dcc_examples.specs.Rails.{sent_as};

use crate::Fault;
use dcc_order::laws;
use dcc_packet::Packet;
use dcc_station::Station;
use dcc_wire::{Framer, Halves, Seen, Timing};
use std::alloc::Global;

/// Sends the next packet of a station, half-bit by half-bit. Returns the packet, and the last
/// outcome of a framer that hears the rails.
pub fn send_next(station: &mut Station, rails: &mut Framer) -> (Packet, Seen)
    ensures next { Next station.old result.0 station.new }
    // If the framer has heard only whole packets before, the outcome is this packet.
    ensures heard { (before : List Sent) → HasHeardAll before rails.old → result.1 ≡ Seen.Packet (spelling result.0) }
    // If the framer has heard only whole packets before, it has heard only whole packets after the
    // call.
    ensures rails { (before : List Sent) → HasHeardAll before rails.old
        → HasHeardAll (before ++ sent_as result.0 ∷ []) rails.new }
{
    laws::frames_are_sent();
    let packet = station.next();
    let mut heard = Seen::Nothing;
    for us in halves_of(&packet) {
        // here a booster would change the polarity of the rails for `us` microseconds
        match rails.push(us) {
            Seen::Nothing => (),
            seen => heard = seen,
        }
    }
    (packet, heard)
}

/// Returns the half-bits of a packet in the timing of the main track.
fn halves_of(packet: &Packet) -> Halves
    ensures frame { IsFrame (spelling packet.now) }
    ensures halves { halves_left result ≡ sent (spelling packet.now) main_timing }
{
    let frame = packet.frame();
    let _bytes = frame.bytes(); // What a booster would be given that takes bytes.
    Halves::new(frame, Timing::main())
}

/// Creates a station with two commands. The queue has capacity for four commands, the station
/// refreshes up to eight entries, and it sends each command twice.
pub fn with_two_commands(alloc: Global) -> Result<Station, Fault>
    ensures { IfOk result (λ station. length station.waiting ≡ 2) }
{
    let (queue, slots, repeats) = (4, 8, 2);
    let mut station = Station::new(alloc, queue, slots, repeats)?;
    for line in ["loco s3 speed28 f 4", "loco s3 functions 0 16"] {
        let command = Packet::from_line(line)?;
        station
            .command(command)
            .map_err(|(refused, _packet)| refused)?;
    }
    Ok(station)
}
