//! Functions that let a fleet hear half-bits.

ghost use Rattle.std.specs.Prelude.{◌++◌, ◌∷◌, [], ℕ, List, replicate};
ghost use Rattle.dcc_wire.specs.Framing.{StandsFor};
ghost use Rattle.dcc_wire.specs.Runs.{PushesRun};
ghost use Rattle.dcc_order.specs.Fleets.{EachHearsSeen, HearMore};
ghost use Rattle.dcc_order.specs.OneMoreHalf.{PushesHalf};

use crate::fleet::hear_packet;
use dcc_packet::Packet;
use dcc_regs::Decoder;
use dcc_wire::{Framer, RunSeen, Seen};

/// Applies the packet of the outcome `seen` to each decoder. If the outcome is no packet, no
/// decoder changes.
#[inline(always)]
fn hear_seen<D: Decoder>(decoders: &mut [D], seen: &Seen)
    ensures { EachHearsSeen D.who D.registers seen.now decoders.old decoders.new }
{
    match seen {
        Seen::Packet(frame) => hear_packet(decoders, &Packet::read(frame)),
        Seen::Nothing => (),
        Seen::Refused(_) => (),
    }
}

/// A fleet hears a half-bit of `us` microseconds. If a packet ends with this half-bit, each decoder
/// hears the packet. If no packet ends, no decoder changes. Returns the outcome that the framer
/// returns.
///
/// `hear_half` does what [`hear`] does, for decoders of one type, which can be `Box<dyn Decoder>`.
#[inline(always)]
pub fn hear_half<D: Decoder>(decoders: &mut [D], framer: &mut Framer, us: u16) -> Seen
    // The framer takes the half-bit, and the result is the outcome that ends with this half-bit.
    ensures history { (halves : List ℕ) × StandsFor framer.old halves }
    ensures pushes { PushesHalf framer.old us result framer.new }
    // Each decoder hears the packet of the outcome, if it is a packet.
    ensures hears { EachHearsSeen D.who D.registers result decoders.old decoders.new }
    // Decoders that have heard a list of half-bits before the call have heard the list with this
    // half-bit at its end after the call.
    ensures since { HearMore D.who D.registers framer.old (us ∷ []) decoders.old decoders.new }
{
    // (most half-bits have no outcome, and then no outcome has to be in memory)
    match framer.push(us) {
        Seen::Nothing => {
            hear_seen(decoders, &Seen::Nothing);
            Seen::Nothing
        }
        seen => {
            hear_seen(decoders, &seen);
            seen
        }
    }
}

/// A fleet hears `n` half-bits of `us` microseconds, as `n` calls of [`hear_half`] do. At most one
/// packet ends in these half-bits. If a packet ends, each decoder hears the packet. If no packet
/// ends, no decoder changes. Returns the outcome that the framer returns.
///
/// `hear_half_run` does what [`hear_run`] does, for decoders of one type, which can be `Box<dyn
/// Decoder>`.
pub fn hear_half_run<D: Decoder>(
    decoders: &mut [D],
    framer: &mut Framer,
    us: u16,
    n: u32,
) -> RunSeen
    // The framer takes the half-bits, and the result is the outcome that ends in them.
    ensures history { (halves : List ℕ) × StandsFor framer.old halves }
    ensures pushes { PushesRun framer.old us n result framer.new }
    // Each decoder hears the packet of the outcome, if it is a packet.
    ensures hears { EachHearsSeen D.who D.registers result.seen decoders.old decoders.new }
    // Decoders that have heard a list of half-bits before the call have heard the list with these
    // half-bits at its end after the call.
    ensures since { HearMore D.who D.registers framer.old (replicate n us) decoders.old decoders.new }
{
    let run = framer.push_run(us, n);
    hear_seen(decoders, &run.seen);
    run
}

/// A fleet hears a half-bit of `us` microseconds. If a packet ends with this half-bit, each decoder
/// hears the packet. If no packet ends, no decoder changes. Returns the outcome that the framer
/// returns.
pub fn hear(decoders: &mut [Box<dyn Decoder>], framer: &mut Framer, us: u16) -> Seen
    // The framer takes the half-bit, and the result is the outcome that ends with this half-bit.
    ensures history { (halves : List ℕ) × StandsFor framer.old halves }
    ensures pushes { PushesHalf framer.old us result framer.new }
    // Each decoder hears the packet of the outcome, if it is a packet.
    ensures hears { EachHearsSeen who registers result decoders.old decoders.new }
    // Decoders that have heard a list of half-bits before the call have heard the list with this
    // half-bit at its end after the call.
    ensures since { HearMore who registers framer.old (us ∷ []) decoders.old decoders.new }
{
    hear_half(decoders, framer, us)
}

/// A fleet hears `n` half-bits of `us` microseconds, as `n` calls of [`hear`] do. At most one
/// packet ends in these half-bits. If a packet ends, each decoder hears the packet. If no packet
/// ends, no decoder changes. Returns the outcome that the framer returns.
pub fn hear_run(decoders: &mut [Box<dyn Decoder>], framer: &mut Framer, us: u16, n: u32) -> RunSeen
    // The framer takes the half-bits, and the result is the outcome that ends in them.
    ensures history { (halves : List ℕ) × StandsFor framer.old halves }
    ensures pushes { PushesRun framer.old us n result framer.new }
    // Each decoder hears the packet of the outcome, if it is a packet.
    ensures hears { EachHearsSeen who registers result.seen decoders.old decoders.new }
    // Decoders that have heard a list of half-bits before the call have heard the list with these
    // half-bits at its end after the call.
    ensures since { HearMore who registers framer.old (replicate n us) decoders.old decoders.new }
{
    hear_half_run(decoders, framer, us, n)
}

/// A fleet hears a piece of a track, which can have any length. If the decoders have heard a list
/// of half-bits before the call, they have then heard this list with the piece at its end.
pub fn hear_piece<D: Decoder>(decoders: &mut [D], framer: &mut Framer, durations: &[u16])
    ensures stands { (halves : List ℕ) → StandsFor framer.old halves → StandsFor framer.new (halves ++ durations.now) }
    ensures since { HearMore D.who D.registers framer.old durations.now decoders.old decoders.new }
{
    let mut at = 0;
    'pieces: while at < durations.len() {
        let shown = framer.push_many(&durations[at..]);
        hear_seen(decoders, &shown.seen);
        at += shown.at;
    }
}
