//! The frame of a packet that is a C struct.

ghost use Rattle.std.specs.Prelude.{◌≡◌, ◌≢◌, ◌≤◌, ◌↔◌, ◌⊎◌, IfOk, IsTrue};
ghost use Rattle.dcc_packet.specs.declared.packet.Packet.{Packet};
ghost use Rattle.dcc_packet.specs.Spelling.{spelling};
ghost use Rattle.dcc_c.specs.Frames.{bytes_of, frame_numbers};
ghost use Rattle.dcc_c.specs.Packets.{address_kind, address_number, group_number, instruction_numbers};
ghost use Rattle.dcc_c.specs.Packets.{of_kind, packet_numbers};
ghost use Rattle.dcc_c.specs.PacketFields.{accessory_of_fields, address_of_numbers, fault_or_zero};
ghost use Rattle.dcc_c.specs.PacketFields.{functions_of_numbers, group_of_number, loco_of_fields, packet_of_fields};
ghost use Rattle.dcc_c.specs.PacketFields.{used_fields, used_in_what, used_number, what_of_fields, IsOther};
ghost use Rattle.dcc_c.specs.ServicePackets.{bit_of_cv};

use crate::frame::DccFrame;
use crate::packet::DccPacket;
use crate::service_packet::bit_of_cv;
use dcc_packet::{
    Address, Board, CvNumber, Group, GroupBits, Output, Packet, PacketFault, SignalAddress,
    SpeedBits28, SpeedBits128, StateNumber, What,
};
use dcc_wire::Frame;

/// Writes the frame of the packet `packet` to `frame`. Returns 0 on success, or the number of the
/// first error. The function ignores the fields that the kind does not use.
///
/// The errors of a packet line come in the same order: 10 (P10) if the kind is above 12. For kinds 1
/// to 9, first the errors of the address: 10 if `to` is no kind of an address, 1 (P1) or 2 (P2) if
/// no address has this number. Then the errors of the other fields: 8 (P8) for speed bits, 10 for a
/// group, 9 (P9) for function bits, 14 (P14) for a binary state, 6 (P6) for a CV, 7 (P7) for a
/// place. For kind 10: 3 (P3) for the board, 4 (P4) for the output. For kind 11: 5 (P5) for the
/// signal.
///
/// A `DccPacket` has no bytes. So for kind 12 `frame` has the bytes before the call, and the
/// function writes the same bytes, followed by zeros. The error is 12 (P12) if `frame` has no frame,
/// or has the frame of a packet of another kind.
///
/// If the result is not 0, nothing is written.
#[unsafe(no_mangle)]
pub extern "C" fn dcc_frame_of_packet(packet: &DccPacket, frame: &mut DccFrame) -> u8
    ensures answer { packet.now.kind ≢ 12 → result ≡ fault_or_zero (packet_of_fields packet.now) }
    ensures frame { packet.now.kind ≢ 12
        → IfOk (packet_of_fields packet.now) (λ what. frame.new ≡ frame_numbers (spelling what)) }
    ensures other { packet.now.kind ≡ 12 → (result ≡ 0) ↔ IsOther frame.old }
    ensures other_frame { packet.now.kind ≡ 12 → result ≡ 0 → frame.new ≡ frame_numbers (bytes_of frame.old) }
    ensures no_other { packet.now.kind ≡ 12 → result ≢ 0 → result ≡ 12 }
    ensures inverse { (what : Packet) → packet.now ≡ packet_numbers what → packet.now.kind ≢ 12
        → (result ≡ 0) × (frame.new ≡ frame_numbers (spelling what)) }
    ensures read_back { result ≡ 0 → (what : Packet) × (frame.new ≡ frame_numbers (spelling what))
        × (packet_numbers what ≡ used_fields packet.now) }
    ensures kept { result ≢ 0 → frame.new ≡ frame.old }
{
    if packet.kind == 12 {
        return keep_other(frame);
    }
    match packet_of(packet) {
        Ok(what) => {
            *frame = DccFrame::of(what.frame().bytes());
            0
        }
        Err(fault) => fault.number(),
    }
}

/// Returns 0 if the struct has a frame that is in no row of the table of packets, otherwise 12
/// (P12). If the result is 0, the bytes after the frame are zeros.
fn keep_other(frame: &mut DccFrame) -> u8
    ensures found { (result ≡ 0) ↔ IsOther frame.old }
    ensures fault { result ≢ 0 → result ≡ 12 }
    ensures frame { result ≡ 0 → frame.new ≡ frame_numbers (bytes_of frame.old) }
    ensures packet { result ≡ 0 → (what : Packet) × (frame.new ≡ frame_numbers (spelling what))
        × (packet_numbers what ≡ of_kind 12) }
    ensures kept { result ≢ 0 → frame.new ≡ frame.old }
{
    if !is_other(frame) {
        return PacketFault::Frame.number();
    }
    let whole = DccFrame::of(frame.as_slice());
    *frame = whole;
    0
}

/// Returns true if the struct has a frame that is in no row of the table of packets.
fn is_other(frame: &DccFrame) -> bool
    ensures { IsTrue result ↔ IsOther frame.now }
{
    if frame.len > 6 {
        return false;
    }
    match Frame::of(frame.as_slice()) {
        Ok(found) => matches!(Packet::read(&found), Packet::Other(_)),
        Err(_) => false,
    }
}

/// Returns the packet with the fields of the C struct `fields`, or the first error.
fn packet_of(fields: &DccPacket) -> Result<Packet, PacketFault>
    requires { fields.now.kind ≢ 12 }
    ensures exact { result ≡ packet_of_fields fields.now }
    ensures used { IfOk result (λ what. packet_numbers what ≡ used_fields fields.now) }
{
    match fields.kind {
        0 => Ok(Packet::Idle),
        1..=9 => loco_of(fields),
        10 => accessory_of(fields),
        11 => signal_of(fields),
        _ => Err(PacketFault::Word),
    }
}

/// Returns the packet to multifunction decoders with the fields of the C struct `fields`, or the
/// first error.
fn loco_of(fields: &DccPacket) -> Result<Packet, PacketFault>
    requires least { 1 ≤ fields.now.kind }
    requires most { fields.now.kind ≤ 9 }
    ensures exact { result ≡ loco_of_fields fields.now }
    ensures used { IfOk result (λ what. packet_numbers what
        ≡ record (used_in_what fields.now)
        { to = fields.now.to; address = used_number fields.now.to fields.now.address }) }
{
    match address_of(fields.to, fields.address) {
        Ok(to) => match what_of(fields) {
            Ok(what) => Ok(Packet::Loco { to, what }),
            Err(fault) => Err(fault),
        },
        Err(fault) => Err(fault),
    }
}

/// Returns the packet that switches an output, or the first error.
fn accessory_of(fields: &DccPacket) -> Result<Packet, PacketFault>
    ensures exact { result ≡ accessory_of_fields fields.now }
    ensures used { IfOk result (λ what. packet_numbers what
        ≡ record (of_kind 10) { address = fields.now.address; output = fields.now.output; on = fields.now.on }) }
{
    match Board::new(fields.address) {
        Ok(board) => match Output::new(fields.output) {
            Ok(output) => Ok(Packet::Accessory {
                board,
                output,
                on: fields.on,
            }),
            Err(fault) => Err(fault),
        },
        Err(fault) => Err(fault),
    }
}

/// Returns the packet that sets a signal, or the error of its address.
fn signal_of(fields: &DccPacket) -> Result<Packet, PacketFault>
    requires { fields.now.kind ≡ 11 }
    ensures exact { result ≡ packet_of_fields fields.now }
    ensures used { IfOk result (λ what. packet_numbers what ≡ used_fields fields.now) }
{
    match SignalAddress::new(fields.address) {
        Ok(address) => Ok(Packet::Signal {
            address,
            aspect: fields.aspect,
        }),
        Err(fault) => Err(fault),
    }
}

/// Returns the address with the kind `kind` and the number `number`, or the first error.
pub(crate) fn address_of(kind: u8, number: u16) -> Result<Address, PacketFault>
    ensures exact { result ≡ address_of_numbers kind number }
    ensures kind { IfOk result (λ to. address_kind to ≡ kind) }
    ensures number { IfOk result (λ to. address_number to ≡ used_number kind number) }
{
    match kind {
        0 => Ok(Address::Broadcast),
        1 => short_of(number),
        2 => Address::long(number),
        _ => Err(PacketFault::Word),
    }
}

/// Returns the short address `number`, or the error P1.
fn short_of(number: u16) -> Result<Address, PacketFault>
    ensures exact { result ≡ address_of_numbers 1 number }
    ensures kind { IfOk result (λ to. address_kind to ≡ 1) }
    ensures number { IfOk result (λ to. address_number to ≡ number) }
{
    if number > 127 {
        return Err(PacketFault::Short);
    }
    Address::short(number as u8)
}

/// Returns the instruction with the fields of the C struct `fields`, or the first error.
fn what_of(fields: &DccPacket) -> Result<What, PacketFault>
    requires least { 1 ≤ fields.now.kind }
    requires most { fields.now.kind ≤ 9 }
    ensures exact { result ≡ what_of_fields fields.now }
    ensures used { IfOk result (λ what. instruction_numbers what ≡ used_in_what fields.now) }
{
    match fields.kind {
        1 => Ok(What::Reset),
        2 => speed28_of(fields),
        3 => speed128_of(fields),
        4 => functions_of(fields),
        5 => state_of(fields),
        6 | 7 => byte_access(fields),
        _ => bit_access(fields),
    }
}

fn speed28_of(fields: &DccPacket) -> Result<What, PacketFault>
    requires { fields.now.kind ≡ 2 }
    ensures exact { result ≡ what_of_fields fields.now }
    ensures used { IfOk result (λ what. instruction_numbers what ≡ used_in_what fields.now) }
{
    match SpeedBits28::new(fields.bits) {
        Ok(bits) => Ok(What::Speed28 {
            forward: fields.forward,
            bits,
        }),
        Err(fault) => Err(fault),
    }
}

fn speed128_of(fields: &DccPacket) -> Result<What, PacketFault>
    requires { fields.now.kind ≡ 3 }
    ensures exact { result ≡ what_of_fields fields.now }
    ensures used { IfOk result (λ what. instruction_numbers what ≡ used_in_what fields.now) }
{
    match SpeedBits128::new(fields.bits) {
        Ok(bits) => Ok(What::Speed128 {
            forward: fields.forward,
            bits,
        }),
        Err(fault) => Err(fault),
    }
}

fn functions_of(fields: &DccPacket) -> Result<What, PacketFault>
    requires { fields.now.kind ≡ 4 }
    ensures exact { result ≡ what_of_fields fields.now }
    ensures used { IfOk result (λ what. instruction_numbers what ≡ used_in_what fields.now) }
{
    match group_bits(fields.group, fields.bits) {
        Ok(functions) => Ok(What::Functions(functions)),
        Err(fault) => Err(fault),
    }
}

/// Returns the bits of the function group with the number `group`, or the first error.
fn group_bits(group: u8, bits: u8) -> Result<GroupBits, PacketFault>
    ensures exact { result ≡ functions_of_numbers group bits }
    ensures group { IfOk result (λ functions. group_number functions.group ≡ group) }
    ensures bits { IfOk result (λ functions. functions.bits ≡ bits) }
{
    match group_of(group) {
        Ok(group) => GroupBits::new(group, bits),
        Err(fault) => Err(fault),
    }
}

/// Returns the function group with the number `number`, or the error P10.
fn group_of(number: u8) -> Result<Group, PacketFault>
    ensures exact { result ≡ group_of_number number }
    ensures number { IfOk result (λ group. group_number group ≡ number) }
{
    match number {
        0 => Ok(Group::F0),
        5 => Ok(Group::F5),
        9 => Ok(Group::F9),
        13 => Ok(Group::F13),
        21 => Ok(Group::F21),
        29 => Ok(Group::F29),
        37 => Ok(Group::F37),
        45 => Ok(Group::F45),
        53 => Ok(Group::F53),
        61 => Ok(Group::F61),
        _ => Err(PacketFault::Word),
    }
}

fn state_of(fields: &DccPacket) -> Result<What, PacketFault>
    requires { fields.now.kind ≡ 5 }
    ensures exact { result ≡ what_of_fields fields.now }
    ensures used { IfOk result (λ what. instruction_numbers what ≡ used_in_what fields.now) }
{
    match StateNumber::new(fields.state) {
        Ok(number) => Ok(What::BinaryState {
            number,
            on: fields.on,
        }),
        Err(fault) => Err(fault),
    }
}

/// Returns the write or verify of a byte, or the error of its CV.
fn byte_access(fields: &DccPacket) -> Result<What, PacketFault>
    requires { (fields.now.kind ≡ 6) ⊎ (fields.now.kind ≡ 7) }
    ensures exact { result ≡ what_of_fields fields.now }
    ensures used { IfOk result (λ what. instruction_numbers what ≡ used_in_what fields.now) }
{
    let value = fields.value;
    match CvNumber::new(fields.cv) {
        Ok(cv) if fields.kind == 6 => Ok(What::CvWrite { cv, value }),
        Ok(cv) => Ok(What::CvVerify { cv, value }),
        Err(fault) => Err(fault),
    }
}

/// Returns the write or verify of a bit, or its first error.
fn bit_access(fields: &DccPacket) -> Result<What, PacketFault>
    requires { (fields.now.kind ≡ 8) ⊎ (fields.now.kind ≡ 9) }
    ensures exact { result ≡ what_of_fields fields.now }
    ensures used { IfOk result (λ what. instruction_numbers what ≡ used_in_what fields.now) }
{
    let one = fields.one;
    match bit_of_cv(fields.cv, fields.place) {
        Ok((cv, place)) if fields.kind == 8 => Ok(What::CvBitWrite { cv, place, one }),
        Ok((cv, place)) => Ok(What::CvBitVerify { cv, place, one }),
        Err(fault) => Err(fault),
    }
}
