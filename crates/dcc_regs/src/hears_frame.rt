//! A function that decides whether a locomotive decoder hears a packet, from the address bytes of
//! the frame (NMRA S-9.2.1; RCN-211).

ghost use Rattle.std.specs.Prelude.{◌≡◌};
ghost use Rattle.dcc_wire.specs.Frames.{IsFrame};
ghost use Rattle.dcc_packet.specs.declared.packet.Packet.{Packet};
ghost use Rattle.dcc_packet.specs.Spelling.{spelling};
ghost use Rattle.dcc_regs.specs.declared.register.Who.{Who};
ghost use Rattle.dcc_regs.specs.Heard.{hears as is_heard_by};

use dcc_packet::Address;

/// Returns true if a locomotive decoder with the address `active` hears the packet of the frame
/// `frame`. The function reads only the address bytes.
#[inline(always)]
pub fn loco_hears_frame(active: &Option<Address>, frame: &[u8]) -> bool
    requires { IsFrame frame.now }
    ensures { (packet : Packet) → spelling packet ≡ frame.now → result ≡ is_heard_by (Who.Loco active.now) packet }
{
    let (first, second) = (frame[0], frame[1]);
    if first == 0 {
        return true;
    }
    match active {
        None | Some(Address::Broadcast) => false,
        Some(Address::Short(own)) => first == own.number(),
        Some(Address::Long(own)) => {
            u16::from(first) == 192 + own.number() / 256 && u16::from(second) == own.number() % 256
        }
    }
}
