//! Tests of framers and of decoders in service mode that are saved and restored.

use crate::checks::{check, check_at};
use dcc_packet::CvNumber;
use dcc_service::{ServiceDecoder, ServicePacket};
use dcc_wire::{Frame, Framer, Halves, KeptFramer, Timing};

/// Checks that a framer that is saved and restored after each half-bit returns the same outcomes as
/// a framer that is not. One list of half-bits has no bad half-bit. In another list the hundredth
/// half-bit is bad.
#[test]
fn a_framer_is_taken_up_behind_each_half(rt: HostRuntime) {
    let frame = Frame::of(&[0xC3, 0xE8, 0x3F, 0x7F, 0x6B]).expect(&rt, "a frame");
    for bad in [0, 100] {
        let mut running = Framer::new();
        let mut kept = Framer::new().keep();
        let mut count = 0u32;
        for _ in 0..4 {
            for us in Halves::new(frame, Timing::main()) {
                count = count.wrapping_add(1);
                let us = if count == bad { 70 } else { us };
                check_at(&rt, is_alike(&mut running, &mut kept, us), count);
            }
        }
    }
}

/// Pushes a half-bit to a framer and to a saved framer. Returns true if the outcomes are equal.
fn is_alike(running: &mut Framer, kept: &mut KeptFramer, us: u16) -> bool {
    let mut framer = kept.framer();
    let seen = framer.push(us);
    *kept = framer.keep();
    seen == running.push(us)
}

#[test]
fn a_decoder_in_service_acts_on_what_was_pending(rt: HostRuntime) {
    let write = ServicePacket::Write {
        cv: CvNumber::new(1).expect(&rt, "a CV"),
        value: 10,
    };
    let mut decoder = ServiceDecoder::restore(true, Some(write), &[3; 1024]);
    check(&rt, decoder.is_in_service(), "in service");
    check(&rt, decoder.pending() == Some(write), "pending");
    check(&rt, decoder.apply(&write.frame()), "acknowledged");
    check(&rt, decoder.cvs()[0] == 10, "written");
}
