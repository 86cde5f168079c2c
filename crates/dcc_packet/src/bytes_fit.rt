//! A lemma function: each byte of a packet is below 256.
ghost use Rattle.dcc_packet.specs.Spelling.{BytesFit, ValueFits};

use crate::{Packet, What};

impl Packet {
    /// Lemma: each byte of the packet is below 256. The type `u8` guarantees this bound, but
    /// contracts are about natural numbers. The function does nothing at run time.
    #[inline]
    pub(crate) fn has_bytes(&self)
        ensures { BytesFit self.now }
    {
        match self {
            Packet::Idle | Packet::Accessory { .. } => (),
            Packet::Loco { what, .. } => lemma_value(what),
            Packet::Signal { aspect, .. } => {
                let _aspect = *aspect;
            }
            Packet::Other(other) => {
                let _bytes = other.bytes();
            }
        }
    }
}

/// Lemma: each byte of the instruction is below 256.
#[inline]
pub(crate) fn lemma_value(what: &What)
    ensures { ValueFits what.now }
{
    match what {
        What::CvWrite { value, .. } | What::CvVerify { value, .. } => {
            let _value = *value;
        }
        _ => (),
    }
}
