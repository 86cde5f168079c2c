//! Functions on finders of lost packets, in memory that the caller owns.

ghost use Rattle.std.specs.Prelude.{◌≡◌, ◌≢◌, ◌≤◌, ◌+◌, ◌-◌, ◌++◌, ◌∷◌, [], ◌==◌, ℕ, List, None, Some, length};
ghost use Rattle.std.specs.Prelude.{replicate, take, if◌then◌else◌};
ghost use Rattle.dcc_lost.specs.declared.causes.LostPacket.{LostPacket as Lost};
ghost use Rattle.dcc_lost.specs.Causes.{packet_at_end, packet_lost, packets_lost};
ghost use Rattle.dcc_lost.specs.Reads.{Follows};
ghost use Rattle.dcc_c.specs.LostPackets.{lost_numbers};

use crate::lost_packet::{DccLostPacket, lost_numbers};
use dcc_lost::{LostFinder, LostRun};

/// Makes a finder new: the finder has then read no half-bit.
#[unsafe(no_mangle)]
pub extern "C" fn dcc_lost_new(finder: &mut LostFinder)
    ensures { Follows finder.new [] }
{
    finder.clear();
}

/// Takes a half-bit of `us` microseconds, as `LostFinder::push` does. If a packet is lost at this
/// half-bit, the function writes the packet with its causes and returns 1. If no packet is lost
/// there, the function returns 0.
#[unsafe(no_mangle)]
pub extern "C" fn dcc_lost_push(finder: &mut LostFinder, us: u16, packet: &mut DccLostPacket) -> u8
    ensures history { ∥ ((halves : List ℕ) × Follows finder.old halves) ∥₁ }
    ensures reads { (halves : List ℕ) → Follows finder.old halves → Follows finder.new (halves ++ us ∷ []) }
    ensures none { (halves : List ℕ) → Follows finder.old halves → result ≡ 0 → packet_lost halves us ≡ None }
    ensures some { (halves : List ℕ) → Follows finder.old halves → result ≢ 0
        → (lost : Lost) × (packet_lost halves us ≡ Some lost) × (packet.new ≡ lost_numbers lost) }
    ensures bit { result ≤ 1 }
    ensures kept { result ≡ 0 → packet.new ≡ packet.old }
{
    if !finder.take(us) {
        return 0;
    }
    write_packet_at_end(finder, packet)
}

/// Writes the longest packet whose body ends with the last half-bit that the finder has read, and
/// returns 1. Returns 0 if there is no such packet. This function is separate from the code that
/// runs for each half-bit.
#[inline(never)]
fn write_packet_at_end(finder: &LostFinder, packet: &mut DccLostPacket) -> u8
    ensures none { (halves : List ℕ) → Follows finder.now halves → result ≡ 0 → packet_at_end halves ≡ None }
    ensures some { (halves : List ℕ) → Follows finder.now halves → result ≢ 0
        → (lost : Lost) × (packet_at_end halves ≡ Some lost) × (packet.new ≡ lost_numbers lost) }
    ensures bit { result ≤ 1 }
    ensures kept { result ≡ 0 → packet.new ≡ packet.old }
{
    match finder.packet_at_end() {
        None => 0,
        Some(lost) => {
            *packet = lost_numbers(&lost);
            1
        }
    }
}

/// Takes half-bits of `us` microseconds, as calls of `dcc_lost_push` do, up to the first half-bit at
/// which a packet is lost, and at most `n`.
///
/// If a packet is lost, the function writes the packet with its causes. It returns the number of the
/// half-bit, counted from 1, at which the packet is lost. If no packet is lost, the function takes
/// all `n` half-bits and returns 0.
#[unsafe(no_mangle)]
pub extern "C" fn dcc_lost_push_run(
    finder: &mut LostFinder,
    us: u16,
    n: u32,
    packet: &mut DccLostPacket,
) -> u32
    ensures history { ∥ ((halves : List ℕ) × Follows finder.old halves) ∥₁ }
    ensures reads { (halves : List ℕ) → Follows finder.old halves
        → Follows finder.new (halves ++ replicate (if result == 0 then n else result) us) }
    ensures none { (halves : List ℕ) → Follows finder.old halves → result ≡ 0
        → packets_lost (halves ++ replicate n us) ≡ packets_lost halves }
    ensures some { (halves : List ℕ) → Follows finder.old halves → result ≢ 0 → (lost : Lost)
        × (packets_lost (halves ++ replicate result us)
        ≡ packets_lost halves ++ (length halves + result - 1, lost) ∷ [])
        × (packet.new ≡ lost_numbers lost) }
    ensures within { result ≤ n }
    ensures kept { result ≡ 0 → packet.new ≡ packet.old }
{
    let LostRun { lost, at } = finder.push_run(us, n);
    match lost {
        None => 0,
        Some(lost) => {
            *packet = lost_numbers(&lost);
            at
        }
    }
}

/// Takes half-bits of an array, as calls of `dcc_lost_push` do, up to the first half-bit at which a
/// packet is lost. The function writes to `taken` how many half-bits it took.
///
/// If a packet is lost, the function writes the packet with its causes and returns 1. If no packet
/// is lost, the function takes all half-bits and returns 0.
#[unsafe(no_mangle)]
pub extern "C" fn dcc_lost_push_many(
    finder: &mut LostFinder,
    halves: &[u16],
    packet: &mut DccLostPacket,
    taken: &mut u64,
) -> u8
    ensures history { ∥ ((track : List ℕ) × Follows finder.old track) ∥₁ }
    ensures reads { (track : List ℕ) → Follows finder.old track
        → Follows finder.new (track ++ take taken.new halves.now) }
    ensures none { (track : List ℕ) → Follows finder.old track → result ≡ 0
        → packets_lost (track ++ take taken.new halves.now) ≡ packets_lost track }
    ensures some { (track : List ℕ) → Follows finder.old track → result ≢ 0 → (lost : Lost)
        × (packets_lost (track ++ take taken.new halves.now)
        ≡ packets_lost track ++ (length track + taken.new - 1, lost) ∷ [])
        × (packet.new ≡ lost_numbers lost) }
    ensures within { taken.new ≤ length halves.now }
    ensures something { result ≢ 0 → 1 ≤ taken.new }
    ensures nothing { result ≡ 0 → taken.new ≡ length halves.now }
    ensures bit { result ≤ 1 }
    ensures kept { result ≡ 0 → packet.new ≡ packet.old }
{
    let mut at = 0;
    'halves: while at < halves.len() {
        let lost = finder.push(halves[at]);
        at += 1;
        if let Some(lost) = lost {
            *packet = lost_numbers(&lost);
            *taken = at as u64;
            return 1;
        }
    }
    *taken = at as u64;
    0
}
