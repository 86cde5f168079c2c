//! A receiver whose clock has steps of 4 microseconds. The receiver measures a half-bit as the
//! difference of two readings of this clock.

ghost use Rattle.std.specs.Prelude.{◌≡◌, ◌≤◌, List, IfOk};
ghost use Rattle.dcc_wire.specs.Framing.{seen};
ghost use Rattle.dcc_wire.specs.Jitter.{IsWithin};
ghost use Rattle.dcc_wire.specs.Sending.{Sent, sent_all, at_last_halves, AllFrames};

use dcc_wire::laws;
use std::alloc::Global;
use std::io;

/// Returns half-bits as the clock measures them. If a station sent packets, a framer sees each of
/// these packets in the result, and nothing else.
pub fn measured(alloc: Global, halves: &[u16]) -> io::Result<Vec<u16>>
    ensures { IfOk result (λ measured. (packets : List Sent) → AllFrames packets
        → halves.now ≡ sent_all packets → seen measured.items ≡ at_last_halves 0 packets) }
{
    laws::measured_packets_are_seen();
    let mut measured = Vec::new(alloc);
    let mut since_step = 0;
    for us in halves {
        measured.push(in_steps(*us, since_step))?;
        since_step = (*us % 4 + since_step) % 4;
    }
    Ok(measured)
}

/// Returns a duration as the clock measures it, which rounds both readings down to a multiple of 4
/// microseconds. The first reading is `since_step` microseconds after a step of the clock.
fn in_steps(us: u16, since_step: u16) -> u16
    requires { since_step ≤ 3 }
    ensures { IsWithin 3 us result }
{
    ((u32::from(us) + u32::from(since_step)) / 4 * 4).min(65535) as u16
}
