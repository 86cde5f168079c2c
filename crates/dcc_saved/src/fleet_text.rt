//! Functions that write the decoder text of a fleet.
ghost use Rattle.std.specs.Prelude.{◌≡◌, ◌≤◌, ◌==◌, ◌++◌, [], map, if◌then◌else◌};
ghost use Rattle.dcc_regs.specs.Loco.{cv_held};
ghost use Rattle.dcc_io.specs.WrittenBytes.{Writes};
ghost use Rattle.dcc_saved.specs.FleetText.{cv_line, cvs_text, written_decoder, fleet_text};

use crate::decoder_line::{Head, LocoLine, Version};
use crate::decoder_rows::{board_rows, loco_front};
use crate::saved_line::{CvLine, HeadLine, VERSION, row};
use dcc_io::{Failed, Sink, write_all};
use dcc_packet::CvNumber;
use dcc_regs::{Decoder, Who};

/// Writes the decoder text of the fleet, in version 2. The text has the first line, the lines of
/// each decoder in the order of the fleet, and the line `end`.
///
/// Errors: Failed if a write fails. After a failed write the function writes nothing more.
pub fn write_fleet<W: Sink>(decoders: &[Box<dyn Decoder>], writer: &mut W) -> Result<(), Failed>
    ensures { Writes (W.state writer.old)
        (fleet_text (map (λ decoder. (who decoder, registers decoder)) decoders.now)) result
        (W.state writer.new) }
{
    write_all(writer, row(VERSION, Version::Two).as_slice())?;
    for decoder in decoders {
        write_decoder(&**decoder, writer)?;
    }
    write_all(writer, row(HeadLine, Head::End).as_slice())
}

/// Writes all lines of a decoder.
fn write_decoder<W: Sink>(decoder: &dyn Decoder, writer: &mut W) -> Result<(), Failed>
    ensures { Writes (W.state writer.old)
        (written_decoder (who decoder.now) (registers decoder.now)) result
        (W.state writer.new) }
{
    match decoder.who() {
        Who::Loco(address) => write_cvs(loco_front(&address, decoder).as_slice(), decoder, writer),
        Who::Board(board) => write_all(writer, board_rows(&board, decoder).as_slice()),
    }
}

/// Writes the lines `front`, followed by a line for each CV that is not 0.
fn write_cvs<W: Sink>(front: &[u8], decoder: &dyn Decoder, writer: &mut W) -> Result<(), Failed>
    ensures { Writes (W.state writer.old) (front.now ++ cvs_text (cv_held (registers decoder.now)) 1024)
        result
        (W.state writer.new) }
{
    write_all(writer, front)?;
    for n in 0..1024u16 {
        write_cv(n + 1, decoder.cv_byte(n + 1), writer)?;
    }
    Ok(())
}

/// Writes the line of a CV, if the value of the CV is not 0.
fn write_cv<W: Sink>(cv: u16, value: u8, writer: &mut W) -> Result<(), Failed>
    requires { (1 ≤ cv) × (cv ≤ 1024) }
    ensures { Writes (W.state writer.old) (if value == 0 then [] else cv_line cv value) result (W.state writer.new) }
{
    match CvNumber::new(cv) {
        Ok(cv) if value != 0 => {
            let line = row(CvLine { least: 1 }, LocoLine::Cv { cv, value });
            write_all(writer, line.as_slice())
        }
        _ => Ok(()),
    }
}
