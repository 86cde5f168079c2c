//! Tests of a fleet after a failed read, of a decoder text without a locomotive, and of a decoder
//! text with an error.

use crate::calls::{TEXT, fleet_of};
use crate::checks::check;
use crate::fakes::Giving;
use dcc_packet::PacketFault;
use dcc_regs::{Decoder, Register, Speed, Value};
use dcc_tool::{
    Counted, Encode, Input, Limits, Saved, ToolFault, encode, programming_track, read_decoders, run,
};
use std::alloc::Global;
use std::process::Abort;

/// Returns the decoder text `TEXT`, followed by the half-bits of the packets of these lines.
fn played(rt: &impl Abort, alloc: Global, lines: &[u8]) -> Vec<u8> {
    let mut input = Input::new(Counted::new(lines), Limits::full());
    let mut writer = Counted::new(Vec::new(alloc));
    let how = Encode {
        hex: false,
        service: false,
        station: None,
    };
    writer.inner.extend_from_slice(TEXT).expect(rt, "memory");
    encode(alloc, &mut input, &mut writer, how).expect(rt, "packet lines");
    writer.inner
}

/// Checks `run` with a reader that fails after the second of four packets. The fleet has heard two
/// packets, nothing is written, and a second call returns the same error.
#[test]
fn packets_before_a_failed_read_are_heard(rt: HostRuntime) {
    let two = played(&rt, rt.alloc(), b"frame 036261\nframe 039093\n");
    let lines = b"frame 036261\nframe 039093\nframe 03ec1c06f5\nframe 8cfd71\n";
    let text = played(&rt, rt.alloc(), lines);
    let calls = u32::try_from(two.len()).unwrap_or(0).wrapping_add(1);
    let reader = Giving::new(text.as_slice(), 1, calls, false);
    let mut input = Input::new(reader, Limits::full());
    let saved = saved_in(&rt, rt.alloc(), &mut input);
    let mut fleet = fleet_of(&rt, rt.alloc(), saved.as_slice());
    for _ in 0..2u32 {
        fails(&rt, rt.alloc(), fleet.as_mut_slice(), &mut input);
    }
    match fleet.as_slice().first() {
        Some(decoder) => has_heard_two(&rt, &**decoder),
        None => check(&rt, false, "no decoder"),
    }
}

fn saved_in(rt: &impl Abort, alloc: Global, input: &mut Input<Giving>) -> Vec<Saved> {
    read_decoders(alloc, input).expect(rt, "decoders")
}

/// Asserts that `run` returns the error of a failed read, and writes nothing.
fn fails(
    rt: &impl Abort,
    alloc: Global,
    fleet: &mut [Box<dyn Decoder>],
    input: &mut Input<Giving>,
) {
    let mut writer = Counted::new(Vec::new(alloc));
    let answer = run(fleet, input, &mut writer);
    check(rt, answer == Err(ToolFault::Read), "another error");
    check(rt, writer.inner.is_empty(), "an output");
}

/// Asserts that the decoder has heard the first two packets and not the third.
fn has_heard_two(rt: &impl Abort, decoder: &dyn Decoder) {
    let step_1 = Some(Value::Speed(Speed::Step28(1)));
    check(rt, decoder.get(Register::Speed) == step_1, "step 1");
    let on = Some(Value::Flag(true));
    check(rt, decoder.get(Register::Function(0)) == on, "F0");
    let nothing = Some(Value::Pending(None));
    check(
        rt,
        decoder.get(Register::Pending) == nothing,
        "a pending packet",
    );
}

/// A decoder text of six lines with a board and without a locomotive.
const BOARD: &[u8] = b"dcc-decoders 1\nboard 12\nout\nposition 0 0 0 0\naspect 0 0 0 0\nend\n";

#[test]
fn a_text_without_a_locomotive_gives_no_programming_track(rt: HostRuntime) {
    let (fault, lines) = track_fault(&rt, rt.alloc(), BOARD);
    check(&rt, lines == 6, "six lines");
    let fault_at_6 = ToolFault::Line {
        line: 6,
        fault: PacketFault::Word,
    };
    check(&rt, fault == Some(fault_at_6), "an error in line 6");
    let (fault, lines) = track_fault(&rt, rt.alloc(), TEXT);
    check(&rt, fault == None && lines == 13, "thirteen lines");
}

/// Returns the error of `programming_track` for a decoder text, or `None`, and the number of lines
/// of the text. Without an error, the decoder in service mode must be that of `TEXT`.
fn track_fault(rt: &impl Abort, alloc: Global, text: &[u8]) -> (Option<ToolFault>, u32) {
    let mut input = Input::new(Counted::new(text), Limits::full());
    let saved = read_decoders(alloc, &mut input).expect(rt, "decoders");
    let lines = input.lines();
    match programming_track(saved.as_slice(), lines) {
        Ok(track) => {
            check(
                rt,
                saved.len() == 2 && !track.is_in_service(),
                "two decoders",
            );
            check(
                rt,
                track.cvs()[0] == 3 && track.cvs()[28] == 2,
                "CV1 and CV29",
            );
            (None, lines)
        }
        Err(fault) => {
            check(rt, saved.len() == 1, "one decoder");
            (Some(fault), lines)
        }
    }
}

/// Checks that a second call returns the same error for a decoder text with an error in its second
/// line.
#[test]
fn a_refused_text_is_refused_again(rt: HostRuntime) {
    let text = b"dcc-decoders 1\nloco s0\n".as_slice();
    let mut input = Input::new(Counted::new(text), Limits::full());
    for _ in 0..2u32 {
        let refused = ToolFault::Line {
            line: 2,
            fault: PacketFault::Short,
        };
        match read_decoders(rt.alloc(), &mut input) {
            Ok(_) => check(&rt, false, "no error"),
            Err(fault) => check(&rt, fault == refused, "another error"),
        }
    }
}
