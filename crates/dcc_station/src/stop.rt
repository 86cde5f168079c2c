//! Functions that stop all locomotives.

ghost use Rattle.std.specs.Prelude.{◌≡◌, ◌≤◌, ◌++◌, ℕ, length, filter, take, drop};
ghost use Rattle.circular_buffer.specs.Buffer.{Buffer, buffer};
ghost use Rattle.dcc_regs.specs.Safety as safety;
ghost use Rattle.dcc_station.specs.Rings.{sending_over};
ghost use Rattle.dcc_station.specs.Sending as sending;
ghost use Rattle.dcc_station.specs.Sending.{not_withdrawn, stopped};

use crate::ring::PacketRing;
use dcc_packet::{Address, Packet, SpeedBits28, What};

/// Returns the packet of a stop, `loco all speed28 f 3`: the emergency stop of all locomotives. The
/// packet leaves the directions of the locomotives unchanged (NMRA S-9.2.1, RCN-212).
pub fn stop_packet() -> Packet
    ensures { result ≡ sending.stop_packet }
{
    match SpeedBits28::new(3) {
        Ok(bits) => Packet::Loco {
            to: Address::Broadcast,
            what: What::Speed28 {
                forward: true,
                bits,
            },
        },
        Err(_) => unreachable!(),
    }
}

/// Stops a station with the commands `waiting`, as `Station::stop` does. The parameter `stopping`
/// is true while a stop waits. The parameter `sent` is the number of copies of the next packet that
/// were sent. Returns the number of withdrawn commands.
pub fn stop_all<Q: PacketRing>(waiting: &mut Q, stopping: &mut bool, sent: &mut u8) -> usize
    ensures stops { (entries : Buffer Packet) (repeats : ℕ) →
        sending_over (Q.buffer waiting.new) stopping.new sent.new entries repeats
        ≡ stopped (sending_over (Q.buffer waiting.old) stopping.old sent.old entries repeats) }
    ensures withdrawn { result ≡ length (filter safety.can_move (Q.buffer waiting.old).items) }
    ensures within { result ≤ (Q.buffer waiting.old).capacity }
    ensures none_sent { sent.new ≡ 0 }
{
    *stopping = true;
    *sent = 0;
    withdraw_steps(waiting)
}

/// Removes the commands that set the speed of a locomotive to a step, and returns their number. The
/// other commands keep their order. The function moves each other command once.
fn withdraw_steps<Q: PacketRing>(waiting: &mut Q) -> usize
    ensures left { Q.buffer waiting.new
        ≡ buffer (not_withdrawn (Q.buffer waiting.old).items) (Q.buffer waiting.old).capacity }
    ensures withdrawn { result ≡ length (filter safety.can_move (Q.buffer waiting.old).items) }
    ensures within { result ≤ (Q.buffer waiting.old).capacity }
{
    let all = waiting.len();
    for _at in 0..all {
        pass_first(waiting);
    }
    all - waiting.len()
}

/// Moves the first command to the end, or removes it if it sets the speed of a locomotive to a
/// step.
fn pass_first<Q: PacketRing>(waiting: &mut Q)
    ensures { Q.buffer waiting.new ≡ buffer
        (drop 1 (Q.buffer waiting.old).items ++ not_withdrawn (take 1 (Q.buffer waiting.old).items))
        (Q.buffer waiting.old).capacity }
{
    if waiting.front_can_move() {
        waiting.pop_front();
    } else {
        waiting.rotate();
    }
}
