//! A locomotive that loses contact with the rails during a packet. The locomotive misses at most this
//! packet and the next one.

ghost use Rattle.std.specs.Prelude.{◌≡◌, ◌≤◌, ◌+◌, ◌∷◌, ◌++◌, ℕ, List, length, take, drop, IfOk};
ghost use Rattle.dcc_wire.specs.Framing.{seen};
ghost use Rattle.dcc_wire.specs.Sending.{Sent, sent_all, sent, at_last_halves, AllFrames};
ghost use Rattle.dcc_wire.specs.declared.seen.Seen.{Seen};

use dcc_wire::laws;
use std::alloc::Global;
use std::io;

/// Returns the half-bits of a track without the half-bits with the numbers `from` to `to - 1`. If
/// the missing half-bits belong to one packet, a framer sees all packets before it, and all packets
/// after the next packet. The framer sees each of these packets at the last half-bit of the packet.
pub fn with_gap(alloc: Global, track: &[u16], from: usize, to: usize) -> io::Result<Vec<u16>>
    requires { (from ≤ to) × (to ≤ length track.now) }
    ensures { IfOk result (λ heard. (earlier : List Sent) (packet next : Sent) (others : List Sent)
        → AllFrames earlier → AllFrames (next ∷ others)
        → track.now ≡ sent_all earlier ++ sent_all (packet ∷ next ∷ others)
        → length (sent_all earlier) ≤ from
        → to ≤ length (sent_all earlier) + length (sent packet.bytes packet.timing)
        → (between : List (ℕ × Seen)) × (place : ℕ) × (place + length (sent_all others) ≡ length heard.items)
        × (seen heard.items ≡ at_last_halves 0 earlier ++ between ++ at_last_halves place others)) }
{
    laws::sent_packets_are_seen();
    laws::more_halves_only_add();
    laws::noise_costs_at_most_the_first_packet();
    let heard = without(alloc, track, from, to)?;
    Ok(heard)
}

/// Returns the half-bits of a track before number `from`, and then the half-bits from number `to`
/// on.
fn without(alloc: Global, track: &[u16], from: usize, to: usize) -> io::Result<Vec<u16>>
    requires { (from ≤ to) × (to ≤ length track.now) }
    ensures { IfOk result (λ left. left.items ≡ take from track.now ++ drop to track.now) }
{
    let mut left = Vec::new(alloc);
    left.extend_from_slice(track.split_at(from).0)?;
    left.extend_from_slice(track.split_at(to).1)?;
    Ok(left)
}
