//! Tests of `readcv`, with a decoder in service mode and with writers that fail.

use crate::checks::check;
use crate::fakes::Taking;
use dcc_packet::CvNumber;
use dcc_service::{ServiceDecoder, ServicePacket, ask};
use dcc_tool::{ToolFault, readcv};
use std::alloc::Global;
use std::process::Abort;

const TEN: &[u8] =
    b"7800e890 no\n7800e991 yes\n7800ea92 no\n7800eb93 yes\n7800ec94 no\n7800ed95 no\n\
    7800ee96 no\n7800ef97 no\n74000a7e yes\nvalue 10\n";

/// Returns a new decoder with `value` in CV1 and 0 in all other CVs.
fn with_cv1(value: u8) -> ServiceDecoder {
    let mut cvs = [0; 1024];
    cvs[0] = value;
    ServiceDecoder::new(&cvs)
}

/// Checks that each reading returns the value that was written to a CV before, if the decoder is in
/// service mode. On an empty track the reading returns no value.
#[test]
fn a_decoder_in_service_tells_its_value(rt: HostRuntime) {
    let mut decoder = with_cv1(3);
    let cv = cv1(&rt);
    let write = ServicePacket::Write { cv, value: 10 };
    check(&rt, ask(&mut decoder, &write), "a write");
    for _ in 0..2u32 {
        reads_ten(&rt, rt.alloc(), &mut decoder);
    }
    let mut writer = Taking::new(rt.alloc(), 1000, 1000);
    check(
        &rt,
        readcv(None, cv, &mut writer) == Ok(None),
        "an empty track",
    );
}

fn cv1(rt: &impl Abort) -> CvNumber {
    CvNumber::new(1).expect(rt, "a CV")
}

/// Asserts that a reading of CV1 writes `TEN` and returns 10.
fn reads_ten(rt: &impl Abort, alloc: Global, decoder: &mut ServiceDecoder) {
    let mut writer = Taking::new(alloc, 1000, 1000);
    let answer = readcv(Some(decoder), cv1(rt), &mut writer);
    check(rt, answer == Ok(Some(10)), "another value");
    check(rt, writer.taken.as_slice() == TEN, "another text");
}

/// Checks a reading with writers that fail after 0 to 199 writes. The decoder keeps the value of
/// its CV, and a failed reading has written a prefix of its text.
#[test]
fn each_write_of_a_reading_fails_in_turn(rt: HostRuntime) {
    for each in [1, 1000] {
        for calls in 0..200u32 {
            read_to(&rt, rt.alloc(), each, calls);
        }
    }
    let mut writer = Taking::new(rt.alloc(), 0, 1);
    let answer = readcv(None, cv1(&rt), &mut writer);
    check(&rt, answer == Err(ToolFault::Write), "no byte is taken");
    check(&rt, writer.taken.is_empty(), "no byte is taken");
}

/// Reads CV1 with a writer that fails after `calls` writes, and checks the result.
fn read_to(rt: &impl Abort, alloc: Global, each: usize, calls: u32) {
    let mut writer = Taking::new(alloc, each, calls);
    let mut decoder = with_cv1(10);
    let answer = readcv(Some(&mut decoder), cv1(rt), &mut writer);
    check(rt, decoder.cvs()[0] == 10, "another value");
    let taken = writer.taken.as_slice();
    check(rt, TEN.starts_with(taken), "no part of the text");
    if answer == Ok(Some(10)) {
        check(rt, taken.len() == TEN.len(), "no whole text");
    } else {
        check(rt, answer == Err(ToolFault::Write), "another error");
        check(rt, taken.len() < TEN.len(), "a whole text");
        check(
            rt,
            each > 1 || taken.len() == calls as usize,
            "another length",
        );
    }
}
