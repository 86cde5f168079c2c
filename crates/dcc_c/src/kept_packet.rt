//! A packet that is stored as its frame.

ghost use Rattle.std.specs.Prelude.{◌≡◌, ◌⊎◌, ◌&&◌, ◌||◌, nat_le, [], IsTrue, ◌↔◌};
ghost use Rattle.dcc_wire.specs.Frames.{IsFrame};
ghost use Rattle.dcc_regs.specs.Heard as heard;
ghost use Rattle.dcc_regs.specs.Safety as safety;
ghost use Rattle.dcc_station.specs.Sending as sending;
ghost use Rattle.dcc_c.specs.Frames.{bytes_of, frame_numbers};
ghost use Rattle.dcc_station.specs.Sending.{Displaces};
ghost use Rattle.dcc_c.specs.KeptPackets.{kept_bytes, KeptBy, KeptBy-prop, is_for_another};

use crate::frame::DccFrame;
use dcc_packet::{Address, Packet, read_loco};
use dcc_regs::frame_address;
use dcc_station::{can_move, displaces_by_registers, displaces_loco};
use dcc_wire::Frame;
use std::marker::Model;

/// A packet that is stored as its frame, in 7 bytes. An idle packet is stored as no bytes, so a
/// struct of zeros is an idle packet.
#[repr(C)]
#[derive(Clone, Copy)]
pub struct KeptPacket {
    frame: DccFrame,
    ghost says: { KeptBy (bytes_of frame) } by { KeptBy-prop (bytes_of frame) },
}

impl Model for KeptPacket {
    ghost use Rattle.dcc_packet.specs.declared.packet.Packet.{Packet};

    ghost Value = { Packet };

    ghost use Rattle.dcc_c.specs.KeptPacketLaw.{packet_of, IsKeptPacket, kept_packet, kept_packet_back};

    ghost view = { packet_of };

    ghost invariant = { IsKeptPacket };

    ghost inverse = { kept_packet };

    ghost inverse_ok = { kept_packet_back };
}

impl KeptPacket {
    /// Creates the stored form of a packet.
    pub fn of(packet: &Packet) -> KeptPacket
        ensures { result ≡ packet.now }
    {
        KeptPacket {
            frame: kept_frame(packet),
        }
    }

    /// Returns the packet that is stored.
    pub fn packet(&self) -> Packet
        ensures { result ≡ self.now }
    {
        if self.frame.len == 0 {
            return Packet::Idle;
        }
        match Frame::of(self.frame.as_slice()) {
            Ok(frame) => Packet::read(&frame),
            Err(_) => unreachable!(),
        }
    }

    /// Returns true if the stored packet is sent to the address `to`. The function reads at most two
    /// bytes of the frame.
    pub fn has_address(&self, to: &Address) -> bool
        ensures { result ≡ sending.has_address to.now self.now }
    {
        match self.address() {
            Some(own) => own.is(to),
            None => false,
        }
    }

    /// Returns the address of locomotive decoders to which the stored packet is sent. Returns `None`
    /// if the packet is not sent to locomotive decoders.
    fn address(&self) -> Option<Address>
        ensures { result ≡ heard.address_of self.now }
    {
        if self.frame.len == 0 {
            return None;
        }
        frame_address(self.frame.as_slice())
    }

    /// Returns true if the stored packet sets the speed of a locomotive to a step.
    pub fn can_move(&self) -> bool
        ensures { result ≡ safety.can_move self.now }
    {
        if let Some((_error_byte, body)) = self.frame.as_slice().split_last() {
            if let Some((to, what)) = read_loco(body) {
                return can_move(&Packet::Loco { to, what });
            }
        }
        false
    }

    /// Returns true if a command displaces the stored entry. If the entry and the command are sent to
    /// two different locomotives, the function compares only their addresses.
    pub fn is_displaced_by(&self, command: &Packet) -> bool
        ensures { IsTrue result ↔ Displaces command.now self.now }
    {
        if let Packet::Loco { to, .. } = command {
            if self.is_for_another(to) {
                return false;
            }
        }
        self.is_displaced_by_instruction(command)
    }

    /// Returns true if a command displaces the stored entry. If the entry is a packet to locomotives,
    /// the function compares instructions and creates no frame.
    // not inlined, so that the comparison of addresses takes fewer instructions
    #[inline(never)]
    fn is_displaced_by_instruction(&self, command: &Packet) -> bool
        ensures { IsTrue result ↔ Displaces command.now self.now }
    {
        if let Some((_error_byte, body)) = self.frame.as_slice().split_last() {
            if let Some((to, what)) = read_loco(body) {
                return displaces_loco(command, &to, &what);
            }
        }
        self.is_displaced_as_read(command)
    }

    /// Returns true if `to` is the address of one locomotive and the stored packet is sent to another.
    fn is_for_another(&self, to: &Address) -> bool
        ensures { result ≡ is_for_another to.now self.now }
    {
        match to {
            Address::Broadcast => false,
            Address::Short(own) => {
                let first = self.frame.bytes[0];
                first != own.number() && begins_address(first)
            }
            Address::Long(own) => {
                let [first, second, ..] = self.frame.bytes;
                if u16::from(first) == 192 + own.number() / 256 {
                    u16::from(second) != own.number() % 256
                } else {
                    begins_address(first)
                }
            }
        }
    }

    /// Returns true if a command displaces the stored entry. The function reads the packet of the
    /// entry from the frame, so the entry can be any packet.
    // not inlined, so that the packet takes no stack while instructions are compared
    #[inline(never)]
    fn is_displaced_as_read(&self, command: &Packet) -> bool
        ensures { IsTrue result ↔ Displaces command.now self.now }
    {
        displaces_by_registers(command, &self.packet())
    }
}

/// Returns the frame in which a packet is stored. An idle packet is stored as no bytes.
fn kept_frame(packet: &Packet) -> DccFrame
    ensures numbers { result ≡ frame_numbers (kept_bytes packet.now) }
    ensures valid { (kept_bytes packet.now ≡ []) ⊎ IsFrame (kept_bytes packet.now) }
{
    match packet {
        Packet::Idle => DccFrame::none(),
        _ => DccFrame::of_frame(&packet.frame()),
    }
}

/// Returns true if a frame that begins with this byte has the address of one locomotive.
fn begins_address(first: u8) -> bool
    ensures { result ≡ (nat_le 1 first && nat_le first 127 || nat_le 192 first && nat_le first 231) }
{
    matches!(first, 1..=127 | 192..=231)
}
