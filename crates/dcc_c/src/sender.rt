//! Functions that send a packet half-bit by half-bit.

ghost use Rattle.std.specs.Prelude.{◌≡◌, ◌≢◌, ◌≤◌, ℕ, List, [], ◌∷◌, MatchResult};
ghost use Rattle.dcc_wire.specs.declared.timing.Timing.{Timing};
ghost use Rattle.dcc_wire.specs.Frames.{IsFrame};
ghost use Rattle.dcc_wire.specs.HalvesLeft.{halves_left};
ghost use Rattle.dcc_wire.specs.Sending.{sent};
ghost use Rattle.dcc_c.specs.Senders.{HasLeft, sending_answer};
ghost use Rattle.dcc_c.specs.Timings.{timing_numbers};

use crate::frame::check_frame;
use crate::timing::{DccTiming, timing_of};
use dcc_wire::Halves;

/// Begins to send the frame `frame` with the timing `timing`. Returns 0 on success, and 6 (H6), 7
/// (H7) or 8 (H8) if the timing has an error. Returns 1 (L1) or 2 (L2) if the timing has no error,
/// but `frame` is no frame. If the result is not 0, nothing is written.
#[unsafe(no_mangle)]
pub extern "C" fn dcc_sender_start(sender: &mut Halves, frame: &[u8], timing: &DccTiming) -> u8
    ensures answer { result ≡ sending_answer frame.now timing.now }
    ensures starts { result ≡ 0 →
        (made : Timing) × (timing.now ≡ timing_numbers made) × HasLeft sender.new (sent frame.now made) }
    ensures frame { result ≡ 0 → IsFrame frame.now }
    ensures kept { result ≢ 0 → sender.new ≡ sender.old }
{
    match started(frame, timing) {
        Ok(halves) => {
            *sender = halves;
            0
        }
        Err(number) => number,
    }
}

/// Returns all half-bits of the frame `frame` with the timing `timing`, or the number of the first
/// error.
fn started(frame: &[u8], timing: &DccTiming) -> Result<Halves, u8>
    ensures { MatchResult result
        (λ s. (sending_answer frame.now timing.now ≡ 0)
        × ((made : Timing) × (timing.now ≡ timing_numbers made) × HasLeft s (sent frame.now made)) × IsFrame frame.now)
        (λ number. (number ≡ sending_answer frame.now timing.now) × (1 ≤ number)) }
{
    let timing = timing_of(timing)?;
    check_frame(frame)?;
    Ok(Halves::of_bytes(frame, &timing))
}

/// Removes the next half-bit of the packet and returns its duration in microseconds. Returns 0, and
/// changes nothing, if no half-bit is left. A sender whose bytes are all zero has no half-bit left.
#[unsafe(no_mangle)]
pub extern "C" fn dcc_sender_half(sender: &mut Halves) -> u16
    ensures half { (us : ℕ) (later : List ℕ) → HasLeft sender.old (us ∷ later)
        → (result ≡ us) × HasLeft sender.new later }
    ensures end { HasLeft sender.old [] → result ≡ 0 }
    ensures ended { result ≡ 0 → HasLeft sender.old [] }
    ensures next { result ≢ 0 → halves_left sender.old ≡ result ∷ halves_left sender.new }
    ensures kept { result ≡ 0 → sender.new ≡ sender.old }
{
    match sender.take_half() {
        Some(us) => us,
        None => 0,
    }
}
