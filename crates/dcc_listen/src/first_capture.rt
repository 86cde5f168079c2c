//! A function that reads the packets of the first of two captures in one input.
ghost use Rattle.std.specs.Prelude.{◌<◌, ◌^◌, IfOk, IfErr, length};
ghost use Rattle.dcc_listen.specs.GatheredBoth.{BothFail, GatheredFirst};

use crate::AT_ONCE;
use crate::gathering::{hold_halves, hold_seen};
use dcc_capture::next_of_first;
use dcc_io::inputs::take_buffered_halves;
use dcc_io::{Input, Source, ToolFault};
use dcc_packet::Packet;
use dcc_wire::Framer;
use std::alloc::Global;

/// Reads the first of two captures, up to the end of the line `---`, and returns its packets.
pub fn gather_first<R: Source>(
    alloc: Global,
    input: &mut Input<R>,
) -> Result<Vec<Packet>, ToolFault>
    ensures gathers { IfOk result (λ v. GatheredFirst input.old v.items input.new) }
    ensures few { IfOk result (λ v. length v.items < 2 ^ 32) }
    ensures fails { IfErr result (λ fault. BothFail input.old fault input.new) }
{
    if let Some(fault) = input.fault() {
        return Err(ToolFault::from(fault));
    }
    // the first capture has fewer than 2^32 half-bits
    let most = input.halves_left();
    let mut framer = Framer::new();
    let mut packets = Vec::new(alloc);
    let mut before = 0;
    let mut halves = [0; AT_ONCE];
    'runs: loop {
        let count = take_buffered_halves(input, &mut halves);
        if count > 0 {
            before = u64::from(input.lines());
            hold_halves(&mut packets, &mut framer, &halves[..count])?;
            continue;
        }
        match next_of_first(input, before)? {
            Some((line, run)) => {
                before = line;
                let shown = framer.push_run(run.us, run.n);
                hold_seen(&mut packets, &shown.seen)?;
            }
            None => return Ok(packets),
        }
    }
}
