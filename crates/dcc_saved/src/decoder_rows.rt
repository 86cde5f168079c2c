//! Functions that write the lines of a decoder in a decoder text.
ghost use Rattle.std.specs.Prelude.{◌≡◌, ◌<◌, ◌^◌, ◌++◌, ◌==◌, if◌then◌else◌};
ghost use Rattle.dcc_regs.specs.Loco.{holds_one as is_on_value};
ghost use Rattle.dcc_saved.specs.Lines.{line_text};
ghost use Rattle.dcc_saved.specs.DecoderLines.{head_line};
ghost use Rattle.dcc_saved.specs.FleetText.{speed_held, forward_held, pending_held, number_held, numbers_held};
ghost use Rattle.dcc_saved.specs.FleetText.{before_cvs, written_decoder};

use crate::decoder_fields::SavedSpeed;
use crate::decoder_line::{Four, Head, Numbered};
use crate::saved_line::{ASPECTS, HeadLine, POSITIONS, PendingLine, Rows, SPEED, SavedLine, row};
use dcc_packet::{Address, Bit, Board, Direction, Packet};
use dcc_regs::{Decoder, Register, Speed, Value, Who};

fn speed_in(value: Option<Value>) -> Speed
    ensures { result ≡ speed_held value }
{
    match value {
        Some(Value::Speed(speed)) => speed,
        _ => Speed::Stop,
    }
}

fn forward_in(value: Option<Value>) -> bool
    ensures { result ≡ forward_held value }
{
    match value {
        Some(Value::Forward(forward)) => forward,
        _ => true,
    }
}

fn pending_in(value: Option<Value>) -> Option<Packet>
    ensures { result ≡ pending_held value }
{
    match value {
        Some(Value::Pending(pending)) => pending,
        _ => None,
    }
}

fn number_in(value: Option<Value>) -> u8
    ensures { result ≡ number_held value }
{
    match value {
        Some(Value::Number(number)) => number,
        _ => 0,
    }
}

/// Returns the number in which bit `n` is one if `value` is on, and all other bits are 0.
fn bit_where_on(value: Option<Value>, n: u8) -> u128
    requires { n < 128 }
    ensures { result ≡ (if is_on_value value then 2 ^ n else 0) }
{
    match value {
        Some(Value::Flag(true)) => 1 << n,
        _ => 0,
    }
}

/// Returns the registers of a kind as bits: bit n is one if register n is on.
fn numbers_in(decoder: &dyn Decoder, numbered: Numbered) -> u128
    ensures { result ≡ numbers_held numbered (registers decoder.now) }
{
    let mut bits = 0;
    for n in 0..numbered.end() {
        bits += bit_where_on(decoder.get(numbered.register(n)), n);
    }
    bits
}

/// Returns the lines of a locomotive decoder that come before the lines of its CVs.
pub(crate) fn loco_front(address: &Option<Address>, decoder: &dyn Decoder) -> Rows
    ensures { result.items
        ≡ line_text head_line (Head.Decoder (Who.Loco address.now)) ++ before_cvs address.now (registers decoder.now) }
{
    let address = *address;
    let mut rows = row(HeadLine, Head::Decoder(Who::Loco(address)));
    let speed = speed_in(decoder.get(Register::Speed));
    let forward = forward_in(decoder.get(Register::Direction));
    SPEED.put((SavedSpeed { speed }, Direction { forward }), &mut rows);
    Numbered::Function.put(numbers_in(decoder, Numbered::Function), &mut rows);
    Numbered::State.put(numbers_in(decoder, Numbered::State), &mut rows);
    PendingLine { address }.put(pending_in(decoder.get(Register::Pending)), &mut rows);
    rows
}

fn side(decoder: &dyn Decoder, n: u8) -> Bit
    ensures { result.one ≡ (number_held (registers decoder.now (Register.Position n)) == 1) }
{
    Bit {
        one: number_in(decoder.get(Register::Position(n))) == 1,
    }
}

fn aspect(decoder: &dyn Decoder, n: u8) -> u8
    ensures { result ≡ number_held (registers decoder.now (Register.Aspect n)) }
{
    number_in(decoder.get(Register::Aspect(n)))
}

/// Returns all lines of an accessory decoder.
pub(crate) fn board_rows(board: &Board, decoder: &dyn Decoder) -> Rows
    ensures { result.items ≡ written_decoder (Who.Board board.now) (registers decoder.now) }
{
    let mut rows = row(HeadLine, Head::Decoder(Who::Board(*board)));
    Numbered::Out.put(numbers_in(decoder, Numbered::Out), &mut rows);
    let sides: Four<Bit> = (
        side(decoder, 0),
        (side(decoder, 1), (side(decoder, 2), side(decoder, 3))),
    );
    POSITIONS.put(sides, &mut rows);
    let aspects: Four<u8> = (
        aspect(decoder, 0),
        (aspect(decoder, 1), (aspect(decoder, 2), aspect(decoder, 3))),
    );
    ASPECTS.put(aspects, &mut rows);
    rows
}
