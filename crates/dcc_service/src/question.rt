//! Functions that send questions, which are service packets after resets.

ghost use Rattle.std.specs.Prelude.{◌≡◌};
ghost use Rattle.dcc_service.specs.Machine.{reset_bytes, is_acknowledged};
ghost use Rattle.dcc_packet.specs.Cvs.{IsCvs};
ghost use Rattle.dcc_service.specs.Question.{question_bytes, after_question};

use crate::{ServiceDecoder, ServicePacket};
use dcc_wire::Frame;

/// Returns the eight frames of a question: three resets, which enter service mode, and then five
/// copies of the packet (NMRA S-9.2.3).
pub fn question_frames(question: &ServicePacket) -> [Frame; 8]
    ensures { result ≡ question_bytes question.now }
{
    let reset = reset_frame();
    let copy = question.frame();
    [reset, reset, reset, copy, copy, copy, copy, copy]
}

/// Returns the frame of the broadcast reset `00 00 00`.
fn reset_frame() -> Frame
    ensures { result ≡ reset_bytes }
{
    match Frame::of(&[0, 0, 0]) {
        Ok(frame) => frame,
        Err(_) => unreachable!(),
    }
}

/// Sends a question to a decoder. Returns true if the decoder acknowledges one of the eight frames.
pub fn ask(decoder: &mut ServiceDecoder, question: &ServicePacket) -> bool
    ensures answer { result ≡ is_acknowledged question.now decoder.old.cvs }
    ensures after { decoder.new ≡ after_question decoder.old question.now }
    ensures cvs { IsCvs decoder.old.cvs }
{
    let _ = decoder.cvs();
    let frames = question_frames(question);
    let mut yes = false;
    for frame in &frames {
        yes |= decoder.apply(frame);
    }
    yes
}
