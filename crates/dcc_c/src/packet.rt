//! A packet as a C struct with a field for each value.

ghost use Rattle.std.specs.Prelude.{◌≡◌, ◌≢◌};
ghost use Rattle.dcc_packet.specs.declared.packet.Packet.{Packet};
ghost use Rattle.dcc_wire.specs.Frames.{IsFrame};
ghost use Rattle.dcc_packet.specs.Spelling.{spelling};
ghost use Rattle.dcc_c.specs.Frames.{frame_answer};
ghost use Rattle.dcc_c.specs.Packets.{address_kind, address_number, group_number, instruction_numbers, of_kind};
ghost use Rattle.dcc_c.specs.Packets.{packet_numbers};

use crate::frame::check_frame;
use dcc_packet::{Address, CvNumber, Group, Packet, What};

/// A packet as a C struct. The fields that the kind of the packet does not use are 0 or false.
#[repr(C)]
#[derive(Clone, Copy, Drop)]
pub struct DccPacket {
    /// The kind of the packet. Kinds 0 to 5 are idle, reset, speed in 28 steps, speed in 128 steps,
    /// functions and binary state. Kinds 6 to 9 are CV write, CV verify, CV bit write and CV bit
    /// verify. Kinds 10 to 12 are accessory, signal and any other frame.
    pub kind: u8,
    /// The kind of the address, for kinds 1 to 9: 0 for a broadcast, 1 for a short address, 2 for a
    /// long address.
    pub to: u8,
    /// The number of the address, for kinds 1 to 11, or 0 for a broadcast to locomotives. For kind
    /// 10 the number is the address of the accessory decoder, and for kind 11 the address of the
    /// signal.
    pub address: u16,
    /// True if the direction is forward, for kinds 2 and 3.
    pub forward: bool,
    /// The speed bits, for kinds 2 and 3, or the function bits, for kind 4.
    pub bits: u8,
    /// The function group, for kind 4: 0 for F1 to F4 and F0, otherwise the first function of the
    /// group, 5, 9, 13, 21, 29, 37, 45, 53 or 61.
    pub group: u8,
    /// The number of the binary state, for kind 5. The number 0 stands for all binary states.
    pub state: u8,
    /// True if the binary state (kind 5) or the output (kind 10) is switched on.
    pub on: bool,
    /// The number of the CV, 1 to 1024, for kinds 6 to 9.
    pub cv: u16,
    /// The byte that is written or compared, for kinds 6 and 7.
    pub value: u8,
    /// The place of the bit, for kinds 8 and 9. Place 0 is the lowest bit.
    pub place: u8,
    /// The value of the bit, for kinds 8 and 9.
    pub one: bool,
    /// The number of the output, 0 to 7, for kind 10.
    pub output: u8,
    /// The aspect of the signal, for kind 11.
    pub aspect: u8,
}

/// Writes the packet of the frame `frame` to `packet`. Returns 0 on success, and 1 (L1) or 2 (L2)
/// if `frame` is no frame. If the result is not 0, nothing is written.
#[unsafe(no_mangle)]
pub extern "C" fn dcc_read(frame: &[u8], packet: &mut DccPacket) -> u8
    ensures answer { result ≡ frame_answer frame.now }
    ensures read { result ≡ 0 → (what : Packet) × (spelling what ≡ frame.now) × (packet.new ≡ packet_numbers what) }
    ensures kept { result ≢ 0 → packet.new ≡ packet.old }
{
    match check_frame(frame) {
        Ok(()) => {
            read(frame, packet);
            0
        }
        Err(number) => number,
    }
}

/// Writes the packet of the frame `frame` to `packet`.
#[inline(always)]
fn read(frame: &[u8], packet: &mut DccPacket)
    requires { IsFrame frame.now }
    ensures { (what : Packet) × (spelling what ≡ frame.now) × (packet.new ≡ packet_numbers what) }
{
    *packet = of_kind(12);
    if let Some(what) = Packet::of_row(frame) {
        put(&what, packet);
    }
}

/// Writes the kind and the values of a packet into `packet`, which has kind 12 and zeros.
#[inline(always)]
fn put(what: &Packet, packet: &mut DccPacket)
    requires { packet.old ≡ of_kind 12 }
    ensures { packet.new ≡ packet_numbers what.now }
{
    match what {
        Packet::Idle => packet.kind = 0,
        Packet::Loco { to, what } => {
            packet.to = address_kind(to);
            packet.address = address_number(to);
            put_instruction(what, packet);
        }
        Packet::Accessory { board, output, on } => {
            packet.kind = 10;
            packet.address = board.number();
            packet.output = output.number();
            packet.on = *on;
        }
        Packet::Signal { address, aspect } => {
            packet.kind = 11;
            packet.address = address.number();
            packet.aspect = *aspect;
        }
        Packet::Other(_) => (),
    }
}

/// Writes the kind and the values of an instruction into `packet`, which has kind 12 and the
/// address of the instruction.
#[inline(always)]
fn put_instruction(what: &What, packet: &mut DccPacket)
    requires { packet.old ≡ record (of_kind 12) { to = packet.old.to; address = packet.old.address } }
    ensures { packet.new ≡ record (instruction_numbers what.now) { to = packet.old.to; address = packet.old.address } }
{
    match what {
        What::Reset => packet.kind = 1,
        What::Speed28 { forward, bits } => put_speed(2, *forward, bits.bits(), packet),
        What::Speed128 { forward, bits } => put_speed(3, *forward, bits.bits(), packet),
        What::Functions(functions) => {
            packet.kind = 4;
            packet.group = group_number(functions.group());
            packet.bits = functions.bits();
        }
        What::BinaryState { number, on } => {
            packet.kind = 5;
            packet.state = number.number();
            packet.on = *on;
        }
        What::CvWrite { cv, value } => {
            put_cv(6, cv, packet);
            packet.value = *value;
        }
        What::CvVerify { cv, value } => {
            put_cv(7, cv, packet);
            packet.value = *value;
        }
        What::CvBitWrite { cv, place, one } => {
            put_cv(8, cv, packet);
            packet.place = place.place();
            packet.one = *one;
        }
        What::CvBitVerify { cv, place, one } => {
            put_cv(9, cv, packet);
            packet.place = place.place();
            packet.one = *one;
        }
    }
}

/// Writes the kind, the direction and the speed bits of a speed instruction.
#[inline(always)]
fn put_speed(kind: u8, forward: bool, bits: u8, packet: &mut DccPacket)
    ensures { packet.new ≡ record packet.old { kind = kind; forward = forward; bits = bits } }
{
    packet.kind = kind;
    packet.forward = forward;
    packet.bits = bits;
}

/// Writes the kind and the number of the CV of an access to a CV.
#[inline(always)]
fn put_cv(kind: u8, cv: &CvNumber, packet: &mut DccPacket)
    ensures { packet.new ≡ record packet.old { kind = kind; cv = cv.now.number } }
{
    packet.kind = kind;
    packet.cv = cv.number();
}

/// Returns the C struct of a packet of the kind `kind`, whose other fields are 0 or false.
#[inline(always)]
fn of_kind(kind: u8) -> DccPacket
    ensures { result ≡ of_kind kind }
{
    DccPacket {
        kind,
        to: 0,
        address: 0,
        forward: false,
        bits: 0,
        group: 0,
        state: 0,
        on: false,
        cv: 0,
        value: 0,
        place: 0,
        one: false,
        output: 0,
        aspect: 0,
    }
}

/// Returns the kind of an address: 0 for a broadcast, 1 for a short address, 2 for a long address.
pub(crate) fn address_kind(address: &Address) -> u8
    ensures { result ≡ address_kind address.now }
{
    match address {
        Address::Broadcast => 0,
        Address::Short(_) => 1,
        Address::Long(_) => 2,
    }
}

pub(crate) fn address_number(address: &Address) -> u16
    ensures { result ≡ address_number address.now }
{
    match address {
        Address::Broadcast => 0,
        Address::Short(address) => u16::from(address.number()),
        Address::Long(address) => address.number(),
    }
}

/// Returns the number of a function group: 0 for F1 to F4 and F0, otherwise the number of the first
/// function of the group.
fn group_number(group: Group) -> u8
    ensures { result ≡ group_number group }
{
    match group {
        Group::F0 => 0,
        Group::F5 => 5,
        Group::F9 => 9,
        Group::F13 => 13,
        Group::F21 => 21,
        Group::F29 => 29,
        Group::F37 => 37,
        Group::F45 => 45,
        Group::F53 => 53,
        Group::F61 => 61,
    }
}
