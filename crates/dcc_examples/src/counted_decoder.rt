//! A custom decoder that wraps any other decoder and counts its packets. All theorems about
//! decoders hold for this type.

ghost use Rattle.std.specs.Prelude.{◌≡◌, ◌∷◌, [], IfOk};
ghost use Rattle.dcc_wire.specs.Framing.{report_at, seen};

use dcc_order::hear;
use dcc_packet::Packet;
use dcc_regs::{Decoder, LocoDecoder, PackedLoco, Register, Value, Who};
use dcc_wire::{Framer, Seen};
use std::alloc::{AllocError, Global};

/// A decoder with the number of packets that were applied to it. The number of packets stops at
/// 2^32 - 1.
#[derive(Drop)]
pub struct CountedDecoder<D: Decoder> {
    pub inner: D,
    pub packets: u32,
}

impl<D: Decoder> Decoder for CountedDecoder<D> {
    ghost who = { λ d. D.who d.inner };

    ghost registers = { λ d. D.registers d.inner };

    fn who(&self) -> Who {
        self.inner.who()
    }

    fn apply(&mut self, packet: &Packet) {
        self.packets = self.packets.saturating_add(1);
        self.inner.apply(packet);
    }

    fn get(&self, register: Register) -> Option<Value> {
        self.inner.get(register)
    }
}

/// Lets a fleet hear one half-bit of `us` microseconds. The fleet has a counted decoder and a
/// decoder of another type, each in a `Box`. Returns the outcome of the framer, which is the
/// outcome of the list with only this half-bit.
pub fn hear_in_boxes(alloc: Global, cvs: &[u8; 1024], us: u16) -> Result<Seen, AllocError>
    ensures { IfOk result (λ shown. seen (us ∷ []) ≡ report_at 0 shown) }
{
    let counted = CountedDecoder {
        inner: LocoDecoder::new(cvs),
        packets: 0,
    };
    let mut fleet: Vec<Box<dyn Decoder>> = Vec::new(alloc);
    fleet.push(Box::new(alloc, counted)?)?;
    fleet.push(Box::new(alloc, PackedLoco::new(cvs))?)?;
    Ok(hear(fleet.as_mut_slice(), &mut Framer::new(), us))
}
