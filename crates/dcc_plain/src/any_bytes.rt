//! The plain words of packets of up to 15 bytes, of which a `Frame` has only six.
ghost use Rattle.std.specs.Prelude.{◌≡◌, ◌≤◌, ◌<◌, MatchResult, None, Some, length};
ghost use Rattle.dcc_wire.specs.Frames.{xor_of};
ghost use Rattle.dcc_plain.specs.PlainText.{IsPlainText, packet_bytes_fault};

use crate::packet_from_bytes::standard_read;
use crate::text::PlainText;
use crate::words::{append_other, put_plain_text};
use dcc_wire::{Frame, FrameFault};

/// Replaces `text` by the plain words of the packet of 3 to 15 bytes, with the error byte last. A packet
/// of more than six bytes can be a standard packet, for example an instruction with the functions F0
/// to F31.
///
/// Errors: L1 if there are fewer than 3 or more than 15 bytes. L2 if their exclusive or is not zero.
pub fn put_plain_text_of_bytes(text: &mut PlainText, bytes: &[u8]) -> Result<(), FrameFault>
    ensures { MatchResult result
        (λ _. (packet_bytes_fault bytes.now ≡ None) × IsPlainText bytes.now text.new.items)
        (λ fault. packet_bytes_fault bytes.now ≡ Some fault) }
{
    match Frame::of(bytes) {
        Ok(frame) => {
            put_plain_text(text, &frame);
            Ok(())
        }
        Err(FrameFault::XorNotZero) => Err(FrameFault::XorNotZero),
        Err(FrameFault::Length) => put_long_text(text, bytes),
    }
}

/// Replaces `text` by the plain words of the packet of more than six bytes, or returns the error of
/// its bytes.
fn put_long_text(text: &mut PlainText, bytes: &[u8]) -> Result<(), FrameFault>
    ensures { MatchResult result
        (λ _. (packet_bytes_fault bytes.now ≡ None) × IsPlainText bytes.now text.new.items)
        (λ fault. (6 < length bytes.now → packet_bytes_fault bytes.now ≡ Some fault)
        × (length bytes.now ≤ 6 → fault ≡ FrameFault.Length)) }
{
    if bytes.len() < 7 || bytes.len() > 15 {
        return Err(FrameFault::Length);
    }
    if xor(bytes) != 0 {
        return Err(FrameFault::XorNotZero);
    }
    let standard = standard_read(&bytes[..bytes.len() - 1]);
    text.clear();
    append_other(text, bytes, &standard);
    Ok(())
}

/// Returns the exclusive or of all bytes.
pub(crate) fn xor(bytes: &[u8]) -> u8
    ensures { result ≡ xor_of bytes.now }
{
    bytes.iter().fold(0, |sum, byte| sum ^ byte)
}
