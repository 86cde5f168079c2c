//! The part of a decoder on both tracks that hears the main track.

ghost use Rattle.std.specs.Prelude.{◌≡◌, option_map};
ghost use Rattle.dcc_regs.specs.AccessedCv.{changed_cv};
ghost use Rattle.dcc_regs.specs.Writes.{change_of};
ghost use Rattle.dcc_track.specs.DecoderState.{HasChanged, after_packet};
ghost use Rattle.dcc_track.specs.Track.{HearsOnMain};

use crate::programmable::Programmable;
use dcc_packet::{CvNumber, Packet, What};
use dcc_wire::Frame;

/// Applies the packet of a frame to a decoder. Returns the CV whose value changed.
pub(crate) fn hear_on_main<D: Programmable>(decoder: &mut D, frame: &Frame) -> Option<CvNumber>
    ensures hears { HearsOnMain frame.now (D.state decoder.old) (D.state decoder.new) }
    ensures changed { HasChanged (D.state decoder.old).cvs (D.state decoder.new).cvs result }
{
    let packet = Packet::read(frame);
    apply(decoder, &packet)
}

/// Applies a packet to a decoder. Returns the CV whose value changed.
fn apply<D: Programmable>(decoder: &mut D, packet: &Packet) -> Option<CvNumber>
    ensures after { D.state decoder.new ≡ after_packet (D.state decoder.old) packet.now }
    ensures changed { HasChanged (D.state decoder.old).cvs (D.state decoder.new).cvs result }
{
    let Some(cv) = written_cv(packet) else {
        decoder.apply_packet(packet);
        return None;
    };
    let before = decoder.read_cv(cv);
    decoder.apply_packet(packet);
    if decoder.read_cv(cv) == before {
        None
    } else {
        Some(cv)
    }
}

/// Returns the CV that the packet writes. Returns `None` if the packet is no CV write.
fn written_cv(packet: &Packet) -> Option<CvNumber>
    ensures { result ≡ option_map changed_cv (change_of packet.now) }
{
    match packet {
        Packet::Loco {
            what: What::CvWrite { cv, .. } | What::CvBitWrite { cv, .. },
            ..
        } => Some(*cv),
        _ => None,
    }
}
