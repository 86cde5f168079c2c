//! The implementation of `Decoder` for a `Box` with a decoder.

use crate::decoder::Decoder;
use crate::register::{Register, Value, Who};
use dcc_packet::Packet;

/// A `Box` with a decoder of any type is a decoder. It has the address and the registers of the
/// decoder in the `Box`. So functions for fleets of one type accept fleets of several types too.
impl Decoder for Box<dyn Decoder> {
    ghost who = { λ decoder. (Decoder-box decoder).who decoder.value };

    ghost registers = { λ decoder. (Decoder-box decoder).registers decoder.value };

    fn who(&self) -> Who {
        (**self).who()
    }

    fn apply(&mut self, packet: &Packet) {
        (**self).apply(packet)
    }

    fn get(&self, register: Register) -> Option<Value> {
        (**self).get(register)
    }

    fn cv_byte(&self, cv: u16) -> u8 {
        (**self).cv_byte(cv)
    }
}
