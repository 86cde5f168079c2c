//! Tests of the operations of the program. Each function returns true if an allocation failed and
//! nothing was written, false if no allocation failed, and `None` if a result is wrong.

use crate::page::Page;
use dcc_order::Verdict;
use dcc_packet::{Address, Board, CvNumber};
use dcc_regs::{Decoder, LocoDecoder, Who};
use dcc_service::ServiceDecoder;
use dcc_tool::{
    Counted, Encode, Ending, Input, Limits, Request, ToolFault, encode, perform, readcv, run, same,
    same_input, show,
};
use std::alloc::Global;

/// A capture of the packet `03 62 61`.
const SLOW: &[u8] = b"58*28 100*14 58*4 100*4 58*4 100*6 58*2 100*6 58*4 100*8 58*4\n";

/// A capture of an idle packet, `03 62 61`, and `03 62 60`, whose error byte is wrong.
const AMONG_OTHERS: &[u8] = b"58*28 100*2 58*16 100*20 58*18\n\
    58*28 100*14 58*4 100*4 58*4 100*6 58*2 100*6 58*4 100*8 58*4\n\
    58*28 100*14 58*4 100*4 58*4 100*6 58*2 100*6 58*4 100*10 58*2\n";

/// The captures `SLOW` and `AMONG_OTHERS` in one input.
const BOTH: &[u8] = b"58*28 100*14 58*4 100*4 58*4 100*6 58*2 100*6 58*4 100*8 58*4\n---\n\
    58*28 100*2 58*16 100*20 58*18\n\
    58*28 100*14 58*4 100*4 58*4 100*6 58*2 100*6 58*4 100*8 58*4\n\
    58*28 100*14 58*4 100*4 58*4 100*6 58*2 100*6 58*4 100*10 58*2\n";

/// The decoder text of a locomotive decoder at short address 3 and board 12, and a capture of `03
/// 62 61`.
const FLEET: &[u8] =
    b"dcc-decoders 2\nloco s3\nspeed stop f\non\nstates\npending none\ncv 1 3\ncv 29 2\n\
    board 12\nout\nposition 0 0 0 0\naspect 0 0 0 0\nend\n\
    58*28 100*14 58*4 100*4 58*4 100*6 58*2 100*6 58*4 100*8 58*4\n";

/// The decoder text of the decoders of `FLEET` after the packet `03 62 61`.
const FLEET_AFTER: &[u8] =
    b"dcc-decoders 2\nloco s3\nspeed 28 1 f\non\nstates\npending none\ncv 1 3\ncv 29 2\n\
    board 12\nout\nposition 0 0 0 0\naspect 0 0 0 0\nend\n";

/// The output of `readcv` for a CV with the value 0.
const ZERO: &[u8] =
    b"7800e890 no\n7800e991 no\n7800ea92 no\n7800eb93 no\n7800ec94 no\n7800ed95 no\n\
    7800ee96 no\n7800ef97 no\n74000074 yes\nvalue 0\n";

fn input(text: &[u8]) -> Input<Counted<&[u8]>> {
    Input::new(Counted::new(text), Limits::full())
}

/// Returns false if the operation succeeded and wrote `text`, and true if an allocation failed and
/// nothing was written. Returns `None` for any other result.
pub fn all_or_nothing(answer: Result<bool, ToolFault>, page: &Page, text: &[u8]) -> Option<bool> {
    match answer {
        Ok(true) if page.is(text) => Some(false),
        Err(ToolFault::NoMemory) if page.is(b"") => Some(true),
        _ => None,
    }
}

/// Returns false if `right` is true and an operation that does not allocate has written `text`.
/// Returns `None` for any other result.
fn all(right: bool, page: &Page, text: &[u8]) -> Option<bool> {
    if right && page.is(text) {
        Some(false)
    } else {
        None
    }
}

/// Reads a decoder text and creates its decoders, which hear the capture after the text.
pub fn fleet(alloc: Global) -> Option<bool> {
    let mut input = input(FLEET);
    let mut page = Page::new();
    let answer = perform(alloc, Request::Run, &mut input, &mut page).map(|end| end == Ending::Done);
    all_or_nothing(answer, &page, FLEET_AFTER)
}

/// The decoder text of a locomotive decoder with CV1 = 3 and CV29 = 2 after the packet `03 62 61`.
const LOCO_AFTER: &[u8] =
    b"dcc-decoders 2\nloco s3\nspeed 28 1 f\non\nstates\npending none\ncv 1 3\ncv 29 2\nend\n";

/// Creates a fleet of one decoder in a `Box`, lets this fleet hear a capture, and writes the
/// decoder text of the fleet. Only the creation of the `Box` allocates.
pub fn made_before(alloc: Global) -> Option<bool> {
    let mut cvs = [0; 1024];
    cvs[0] = 3;
    cvs[28] = 2;
    let loco: Box<dyn Decoder> = match Box::new(alloc, LocoDecoder::new(&cvs)) {
        Ok(loco) => loco,
        Err(_) => return Some(true),
    };
    let mut page = Page::new();
    let right = run(&mut [loco], &mut input(SLOW), &mut page).is_ok();
    all(right, &page, LOCO_AFTER)
}

pub fn driven(alloc: Global) -> Option<bool> {
    let how = Encode {
        hex: true,
        service: false,
        station: Some((16, 32, 1)),
    };
    let mut input = input(b"loco s3 speed28 f 4\nsend 2\nidle\n");
    let mut page = Page::new();
    let answer = encode(alloc, &mut input, &mut page, how).map(|_| true);
    all_or_nothing(answer, &page, b"036261\n036261\n# refused C3\n")
}

pub fn two_captures(alloc: Global) -> Option<bool> {
    let s3 = Who::Loco(Some(Address::short(3).ok()?));
    let (mut first, mut second) = (input(SLOW), input(AMONG_OTHERS));
    let mut page = Page::new();
    let answer = same(alloc, &mut first, &mut second, &mut page, s3);
    all_or_nothing(answer.map(|v| v == Verdict::Alike), &page, b"alike\n")
}

pub fn both_captures(alloc: Global) -> Option<bool> {
    let s3 = Who::Loco(Some(Address::short(3).ok()?));
    let mut both = input(BOTH);
    let mut page = Page::new();
    let answer = same_input(alloc, &mut both, &mut page, s3);
    all_or_nothing(answer.map(|v| v == Verdict::Alike), &page, b"alike\n")
}

/// Compares two captures for a decoder that hears no packet. The comparison does not allocate.
pub fn unheard(alloc: Global) -> Option<bool> {
    let b13 = Who::Board(Board::new(13).ok()?);
    let (mut first, mut second) = (input(SLOW), input(AMONG_OTHERS));
    let mut page = Page::new();
    let answer = same(alloc, &mut first, &mut second, &mut page, b13);
    all(answer == Ok(Verdict::Alike), &page, b"alike\n")
}

pub fn listing() -> Option<bool> {
    let mut page = Page::new();
    let right = show(&mut input(AMONG_OTHERS), &mut page, false).is_ok();
    all(
        right,
        &page,
        b"84 ff00ff\n168 036261\n252 refused H5 036260\n",
    )
}

pub fn lines(alloc: Global) -> Option<bool> {
    let how = Encode {
        hex: true,
        service: false,
        station: None,
    };
    let mut page = Page::new();
    let mut lines = input(b"loco s3 speed28 f 4\nidle\n");
    let right = encode(alloc, &mut lines, &mut page, how).is_ok();
    all(right, &page, b"036261\nff00ff\n")
}

pub fn reading() -> Option<bool> {
    let mut decoder = ServiceDecoder::new(&[0; 1024]);
    let mut page = Page::new();
    let answer = readcv(Some(&mut decoder), CvNumber::new(1).ok()?, &mut page);
    all(answer == Ok(Some(0)), &page, ZERO)
}
