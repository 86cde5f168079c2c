//! The functions of a locomotive that a station remembers, as a C struct.

ghost use Rattle.std.specs.Prelude.{◌≡◌, ◌≢◌, ◌≤◌, ◌<◌, ℕ, ◌&&◌, nat_le, Ok, if◌then◌else◌};
ghost use Rattle.dcc_packet.specs.declared.address.Address.{Address};
ghost use Rattle.dcc_packet.specs.Bits.{is_one};
ghost use Rattle.dcc_c.specs.Functions.{Remembers, IsGroupTurned, turn_answer};
ghost use Rattle.dcc_c.specs.PacketFields.{address_of_numbers};

use crate::frame::DccFrame;
use crate::loco_numbers::{bits_of, words_of};
use crate::packet_fields::address_of;
use dcc_packet::{Address, PacketFault};
use dcc_station::Functions;

/// The functions F0 to F68 of a locomotive as a C struct. If all bytes are zero, all functions are
/// off.
#[repr(C)]
#[derive(Clone, Copy, Drop)]
pub struct DccFunctions {
    /// The functions: bit n of the first number is function n, and bit n of the second number is
    /// function 64 + n. The bits of functions above 68 are unused.
    pub on: [u64; 2],
}

/// Turns a function on or off. Writes the frame of the packet that sets the function group of this
/// function to `frame`. The packet has the address with the kind `to` and the number `address`, as
/// in the fields of a `DccPacket`, and the states of all functions of the group (RCN-212, NMRA
/// S-9.2.1). With 14 speed steps, a decoder takes F0 from the packets of speeds.
///
/// Returns 0 on success, 10 (P10) if `to` is no kind of an address, 1 (P1) or 2 (P2) if no address
/// has this number, and 13 (P13) if the function is above 68. If the result is not 0, nothing is
/// written.
#[unsafe(no_mangle)]
pub extern "C" fn dcc_functions_turn(
    functions: &mut DccFunctions,
    to: u8,
    address: u16,
    function: u8,
    on: bool,
    frame: &mut DccFrame,
) -> u8
    ensures answer { result ≡ turn_answer (address_of_numbers to address) function }
    ensures turned { result ≡ 0 → (own : Address) × (address_of_numbers to address ≡ Ok own)
        × IsGroupTurned own function on functions.old functions.new frame.new }
    ensures kept { result ≢ 0 → (functions.new ≡ functions.old) × (frame.new ≡ frame.old) }
{
    match address_of(to, address) {
        Ok(own) => turn(functions, own, function, on, frame),
        Err(fault) => fault.number(),
    }
}

/// Turns a function on or off, and writes the frame for the address `own`. Returns 0, or 13 if the
/// function is above 68.
fn turn(
    functions: &mut DccFunctions,
    own: Address,
    function: u8,
    on: bool,
    frame: &mut DccFrame,
) -> u8
    ensures answer { result ≡ turn_answer (Ok own) function }
    ensures turned { result ≡ 0 → IsGroupTurned own function on functions.old functions.new frame.new }
    ensures kept { result ≢ 0 → (functions.new ≡ functions.old) × (frame.new ≡ frame.old) }
{
    let mut remembered = Functions {
        on: bits_of(&functions.on),
    };
    match remembered.turn(own, function, on) {
        Some(packet) => {
            functions.on = words_of(remembered.on);
            *frame = DccFrame::of(packet.frame().bytes());
            0
        }
        None => PacketFault::State.number(),
    }
}

/// Returns 1 if the function is on, and 0 if the function is off or above 68.
#[unsafe(no_mangle)]
pub extern "C" fn dcc_functions_is_on(functions: &DccFunctions, function: u8) -> u8
    ensures state { (stored : ℕ) → Remembers functions.now stored
        → result ≡ (if nat_le function 68 && is_one stored function then 1 else 0) }
    ensures some { (stored : ℕ) × Remembers functions.now stored }
{
    let remembered = Functions {
        on: bits_of(&functions.on),
    };
    u8::from(remembered.is_on(function))
}
