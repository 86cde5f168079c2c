//! Functions that read the packets of a capture one by one.
ghost use Rattle.std.specs.Prelude.{◌≡◌, ◌<◌, ◌≤◌, ◌+◌, List, None, IfOk, length};
ghost use Rattle.std.specs.Option.{option_to_list};
ghost use Rattle.dcc_packet.specs.declared.packet.Packet.{Packet};
ghost use Rattle.dcc_order.specs.Fleets.{AreShownBy};
ghost use Rattle.dcc_io.specs.InputState.{InputState};
ghost use Rattle.dcc_listen.specs.Taking.{Gathering, ReadsPacket};
ghost use Rattle.dcc_listen.specs.Inner.Pushing.{PushesNext};

use crate::pending::Pending;
use dcc_capture::read_run;
use dcc_io::{Input, KeptFault, Source};
use dcc_packet::Packet;
use dcc_wire::{Framer, Seen};

/// Returns the next packet of the capture. Returns `None` at the end of the capture. The half-bits
/// `pending` were read from the input, and the framer has not taken them yet.
pub(crate) fn next_packet<R: Source>(
    input: &mut Input<R>,
    pending: &mut Pending,
    framer: &mut Framer,
) -> Result<Option<Packet>, KeptFault>
    requires { input.old.fault ≡ None }
    ensures takes { (start : InputState) (packets : List Packet) → start.fault ≡ None
        → Gathering start input.old pending.old framer.old packets
        → ReadsPacket start packets result input.new pending.new framer.new }
    ensures fault { IfOk result (λ _. input.new.fault ≡ None) }
    ensures bytes { IfOk result (λ item. input.new.bytes + length pending.new + length (option_to_list item)
        ≤ input.old.bytes + length pending.old) }
{
    'runs: loop {
        match push_next(input, pending, framer)? {
            Some(seen) => match packet_in(&seen) {
                Some(packet) => return Ok(Some(packet)),
                None => (),
            },
            None => return Ok(None),
        }
    }
}

/// Pushes pending half-bits to the framer, up to the next outcome, and returns this outcome. If no
/// half-bit is pending, the function pushes the next run of the capture.
#[inline(always)]
fn push_next<R: Source>(
    input: &mut Input<R>,
    pending: &mut Pending,
    framer: &mut Framer,
) -> Result<Option<Seen>, KeptFault>
    requires { input.old.fault ≡ None }
    ensures { PushesNext input.old pending.old framer.old result input.new pending.new framer.new }
{
    pending.refill(input);
    let halves = pending.as_slice();
    if !halves.is_empty() {
        let shown = framer.push_many(halves);
        pending.skip(shown.at);
        return Ok(Some(shown.seen));
    }
    match read_run(input)? {
        Some(run) => Ok(Some(framer.push_run(run.us, run.n).seen)),
        None => Ok(None),
    }
}

/// Returns the packet of the outcome `seen`. Returns `None` if the outcome is no packet.
fn packet_in(seen: &Seen) -> Option<Packet>
    ensures { AreShownBy (option_to_list result) seen.now }
{
    match seen {
        Seen::Packet(frame) => Some(Packet::read(frame)),
        Seen::Nothing => None,
        Seen::Refused(_) => None,
    }
}
