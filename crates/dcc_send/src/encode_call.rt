//! The operation `encode`, which writes the half-bits of packet lines, with or without a station.
ghost use Rattle.std.specs.Prelude.{◌≡◌, ◌↔◌, None, true, false, IfSome};
ghost use Rattle.dcc_station.specs.Sending.{idle_sending};
ghost use Rattle.dcc_io.specs.Faults.{as_tool_fault};
ghost use Rattle.dcc_io.specs.InputState.{ReadHasFailure};
ghost use Rattle.dcc_send.specs.Encoded.{EncodesText};
ghost use Rattle.dcc_send.specs.EncodeStation.{is_past_limits, has_begun};
ghost use Rattle.dcc_send.specs.StationEncoded.{StationText};

use crate::encoded_line::FrameLines;
use crate::encoding::Encode;
use crate::next_line::next_line;
use crate::station_encoding::encode_by_station;
use dcc_io::{HeldLines, Input, Sink, Source, ToolFault, Usage};
use dcc_packet::Packet;
use dcc_station::{Station, StationFault};
use std::alloc::Global;

/// Writes a line for each packet line of the input. The line has the half-bits of the packet in
/// microseconds, with one space between them, or the bytes of the packet in hex.
///
/// If `how` has a station, the packets are commands to this station. The line `send N`, with N from
/// 1 to 1000, requests N packets, and `encode` writes a line for each packet that the station
/// sends. If the station refuses a command, `encode` writes the line `# refused C3` or `# refused
/// C4`, and reads the next line. At the end of the input the station sends no further packet. The
/// station is created before anything is read.
///
/// Blank lines and lines that begin with `#` are skipped.
///
/// Errors: U1 if a size is out of the limits of `Station::new`. U6 if the allocation of the station
/// fails. U3 with the first error of the words of a line. Without a station a line `send N` has the
/// error P10. U3 with P10 at the 513th byte of a line or at its first byte that is not ASCII, even
/// in a skipped line. U4 if a read fails. U7 if the input exceeds its limit. U5 if a write fails.
pub fn encode<R: Source, W: Sink>(
    alloc: Global,
    input: &mut Input<R>,
    writer: &mut W,
    how: Encode,
) -> Result<(), ToolFault>
    // A requested station is created first. Before its creation nothing is read or written.
    ensures past_limits { (result ≡ Err (ToolFault.Usage Usage.BadStation)) ↔ (is_past_limits how.station ≡ true) }
    ensures begins { how.station ≡ None → has_begun result ≡ true }
    ensures nothing_done { has_begun result ≡ false → (input.new ≡ input.old) × (writer.new ≡ writer.old) }

    // If an error is stored, the function returns this error, and reads and writes nothing.
    ensures kept { has_begun result ≡ true
        → IfSome input.old.fault
        (λ fault. (result ≡ Err (as_tool_fault fault)) × (input.new ≡ input.old) × (writer.new ≡ writer.old)) }
    ensures cause { has_begun result ≡ true → ReadHasFailure input.old.fault input.old.failures }

    // If no error is stored, the lines of the packets are written up to the first error.
    ensures encodes { how.station ≡ None → input.old.fault ≡ None
        → EncodesText how input.old (W.state writer.old) result
        input.new (W.state writer.new) }

    // With a station, the answers of the station are written up to the first error.
    ensures answers { has_begun result ≡ true → input.old.fault ≡ None
        → IfSome how.station (λ sizes. StationText how (idle_sending sizes.0 sizes.1 sizes.2) input.old
        (W.state writer.old) result input.new (W.state writer.new)) }
{
    match how.station {
        Some((queue, slots, repeats)) => match Station::new(alloc, queue, slots, repeats) {
            Ok(mut station) => encode_by_station(&mut station, input, writer, how),
            Err(StationFault::Limit) => Err(ToolFault::Usage(Usage::BadStation)),
            Err(StationFault::NoMemory) => Err(ToolFault::NoMemory),
        },
        None => encode_packets(input, writer, how),
    }
}

/// Writes the line of each packet, without a station.
fn encode_packets<R: Source, W: Sink>(
    input: &mut Input<R>,
    writer: &mut W,
    how: Encode,
) -> Result<(), ToolFault>
    // If an error is stored, the function returns this error, and reads and writes nothing.
    ensures kept { IfSome input.old.fault
        (λ fault. (result ≡ Err (as_tool_fault fault)) × (input.new ≡ input.old) × (writer.new ≡ writer.old)) }
    ensures cause { ReadHasFailure input.old.fault input.old.failures }

    // If no error is stored, the lines of the packets are written up to the first error.
    ensures encodes { input.old.fault ≡ None
        → EncodesText how input.old (W.state writer.old) result
        input.new (W.state writer.new) }
{
    if let Some(fault) = input.fault() {
        return Err(ToolFault::from(fault));
    }
    let mut lines = FrameLines::new(how);
    let mut held = HeldLines::new();
    'packets: loop {
        match next_line::<R, W, Packet>(input, &mut held, writer)?? {
            Some(packet) => lines.hold(&mut held, &packet.frame(), writer)?,
            None => return Ok(()),
        }
    }
}
