//! The operation `run`, in which a fleet hears a capture.
ghost use Rattle.std.specs.Prelude.{◌≡◌, None, IfSome, map};
ghost use Rattle.dcc_io.specs.Faults.{as_tool_fault};
ghost use Rattle.dcc_listen.specs.FleetRun.{Runs};
ghost use Rattle.dcc_io.specs.InputState.{ReadHasFailure};

use crate::AT_ONCE;
use dcc_capture::read_run;
use dcc_io::inputs::take_buffered_halves;
use dcc_io::{Input, Sink, Source, ToolFault};
use dcc_order::{hear_half_run, hear_piece};
use dcc_regs::Decoder;
use dcc_saved::write_fleet;
use dcc_wire::Framer;

/// Lets a fleet hear a capture, and then writes the decoder text of the fleet.
///
/// Each decoder hears each packet of the capture (NMRA S-9.2, RCN-211). The text is written after
/// the fleet has heard the whole capture.
///
/// Errors: U2 at a word that is no run. U4 if a read fails. U7 if the input exceeds a limit. U5 if
/// a write fails. After U2, U4 or U7 the decoders have heard the packets before the error, nothing
/// was written, and `input` stores the error. After U5 a prefix of the text was written.
pub fn run<R: Source, W: Sink>(
    decoders: &mut [Box<dyn Decoder>],
    input: &mut Input<R>,
    writer: &mut W,
) -> Result<(), ToolFault>
    // If an error is stored, the function returns this error, and no packet is read, heard or
    // written.
    ensures kept { IfSome input.old.fault
        (λ fault. (result ≡ Err (as_tool_fault fault)) × (input.new ≡ input.old) × (decoders.new ≡ decoders.old)
        × (writer.new ≡ writer.old)) }
    ensures cause { ReadHasFailure input.old.fault input.old.failures }

    // If no error is stored, the fleet hears the capture up to the first error. If there is no
    // error, the decoder text of the fleet is written.
    ensures runs { input.old.fault ≡ None
        → Runs (map (λ decoder. (who decoder, registers decoder)) decoders.old) input.old (W.state writer.old) result
        (map (λ decoder. (who decoder, registers decoder)) decoders.new) input.new (W.state writer.new) }
{
    if let Some(fault) = input.fault() {
        return Err(ToolFault::from(fault));
    }
    play(decoders, input, writer)
}

/// Lets the fleet hear the capture, and writes the decoder text of the fleet.
fn play<R: Source, W: Sink>(
    decoders: &mut [Box<dyn Decoder>],
    input: &mut Input<R>,
    writer: &mut W,
) -> Result<(), ToolFault>
    requires { input.old.fault ≡ None }
    ensures { Runs (map (λ decoder. (who decoder, registers decoder)) decoders.old) input.old
        (W.state writer.old) result
        (map (λ decoder. (who decoder, registers decoder)) decoders.new) input.new (W.state writer.new) }
{
    let mut framer = Framer::new();
    let mut halves = [0; AT_ONCE];
    'runs: loop {
        let count = take_buffered_halves(input, &mut halves);
        if count > 0 {
            hear_piece(decoders, &mut framer, &halves[..count]);
            continue;
        }
        match read_run(input)? {
            Some(run) => {
                let _ = hear_half_run(decoders, &mut framer, run.us, run.n);
            }
            None => break,
        }
    }
    Ok(write_fleet(decoders, writer)?)
}
