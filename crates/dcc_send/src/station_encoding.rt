//! Functions of the operation `encode` with a station.
ghost use Rattle.std.specs.Prelude.{◌≡◌, ◌≤◌, length, None, Some, [], ◌∷◌, replicate, IfSome};
ghost use Rattle.dcc_packet.specs.Spelling.{spelling};
ghost use Rattle.dcc_io.specs.Faults.{as_tool_fault};
ghost use Rattle.dcc_io.specs.InputState.{ReadHasFailure};
ghost use Rattle.dcc_send.specs.declared.encoding.Encode.{Encode};
ghost use Rattle.dcc_io.specs.StationLines.{asked_by, Command, Next};
ghost use Rattle.dcc_send.specs.StationEncoded.{StationText, refusal_line};
ghost use Rattle.dcc_send.specs.Inner.Held.{HoldsAnswersOrFails};

use crate::encoded_line::FrameLines;
use crate::encoding::Encode;
use crate::next_line::next_line;
use dcc_io::{Failed, HeldLines, Input, Sink, Source, StationLine, ToolFault};
use dcc_packet::Packet;
use dcc_station::{Refused, Station};

/// Passes the commands of the lines to a station, and writes the packets that the lines request. At
/// the end of the input the station sends no further packet.
pub(crate) fn encode_by_station<R: Source, W: Sink>(
    station: &mut Station,
    input: &mut Input<R>,
    writer: &mut W,
    how: Encode,
) -> Result<(), ToolFault>
    ensures kept { IfSome input.old.fault
        (λ fault. (result ≡ Err (as_tool_fault fault)) × (input.new ≡ input.old) × (writer.new ≡ writer.old)) }
    ensures cause { ReadHasFailure input.old.fault input.old.failures }
    ensures answers { input.old.fault ≡ None
        → StationText how station.old input.old (W.state writer.old) result
        input.new (W.state writer.new) }
{
    if let Some(fault) = input.fault() {
        return Err(ToolFault::from(fault));
    }
    let mut written = FrameLines::new(how);
    let mut held = HeldLines::new();
    'lines: loop {
        match next_line::<R, W, StationLine>(input, &mut held, writer)?? {
            Some(line) => answer(station, &mut held, &mut written, line, writer)?,
            None => return Ok(()),
        }
    }
}

/// Executes the request of a line: a command to the station, or a number of packets to send.
fn answer<W: Sink>(
    station: &mut Station,
    held: &mut HeldLines,
    written: &mut FrameLines,
    line: StationLine,
    writer: &mut W,
) -> Result<(), Failed>
    ensures answers { HoldsAnswersOrFails written.old.how station.old (asked_by line) (W.state writer.old)
        held.old result
        station.new held.new (W.state writer.new) }
    ensures how { written.new.how ≡ written.old.how }
{
    match line {
        StationLine::Command(packet) => take_command(station, held, packet, writer),
        StationLine::Send(count) => send(station, held, written, count, writer),
    }
}

/// Passes a command to the station. If the station refuses the command, the function appends the
/// line with the error to the buffered lines.
fn take_command<W: Sink>(
    station: &mut Station,
    held: &mut HeldLines,
    packet: Packet,
    writer: &mut W,
) -> Result<(), Failed>
    ensures { (how : Encode)
        → HoldsAnswersOrFails how station.old (Command (spelling packet) ∷ []) (W.state writer.old) held.old result
        station.new held.new (W.state writer.new) }
{
    match station.command(packet) {
        Ok(()) => Ok(()),
        Err((refused, _)) => held.hold(refusal_line(refused), writer),
    }
}

/// Appends the lines of the next `count` packets of the station to the buffered lines.
fn send<W: Sink>(
    station: &mut Station,
    held: &mut HeldLines,
    written: &mut FrameLines,
    count: u16,
    writer: &mut W,
) -> Result<(), Failed>
    ensures answers { HoldsAnswersOrFails written.old.how station.old (replicate count Next) (W.state writer.old)
        held.old result
        station.new held.new (W.state writer.new) }
    ensures how { written.new.how ≡ written.old.how }
{
    for _ in 0..count {
        send_next(station, held, written, writer)?;
    }
    Ok(())
}

/// Appends the line of the next packet of the station to the buffered lines.
fn send_next<W: Sink>(
    station: &mut Station,
    held: &mut HeldLines,
    written: &mut FrameLines,
    writer: &mut W,
) -> Result<(), Failed>
    ensures answers { HoldsAnswersOrFails written.old.how station.old (Next ∷ []) (W.state writer.old) held.old
        result
        station.new held.new (W.state writer.new) }
    ensures how { written.new.how ≡ written.old.how }
{
    let packet = station.next();
    written.hold(held, &packet.frame(), writer)
}

/// Returns the line for a command that the station refused: `# refused C3` or `# refused C4`.
fn refusal_line(refused: Refused) -> &'static [u8]
    ensures line { result.now ≡ refusal_line refused }
    ensures short { length result.now ≤ 4096 }
{
    match refused {
        Refused::NotSendable => b"# refused C3\n".as_slice(),
        Refused::QueueFull => b"# refused C4\n".as_slice(),
    }
}
