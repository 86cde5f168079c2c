//! Functions that find CV writes to the address of a decoder, and pending writes (RCN-214).

ghost use Rattle.std.specs.Prelude.{◌≡◌, ◌↔◌, nat_le, IsTrue, Some, true};
ghost use Rattle.dcc_regs.specs.Loco.{is_byte_write, writes_byte};
ghost use Rattle.dcc_regs.specs.Result.{is_effective};
ghost use Rattle.dcc_regs.specs.Setting.{left_pending};
ghost use Rattle.dcc_regs.specs.Writes.{is_cv_write, is_own_write as is_own_write_of};
ghost use Rattle.dcc_regs.specs.declared.register.Value.TheVariants.{Pending as PendingValue};

use dcc_packet::{Address, Packet, What};

/// Lemma: a byte is at most 255. The function does nothing at run time.
fn byte_is_small(value: u8)
    ensures { nat_le value 255 ≡ true }
{}

/// Returns true if the instruction writes a CV or a bit of a CV.
fn is_write(what: &What) -> bool
    ensures write { result ≡ is_cv_write what.now }
    ensures byte { writes_byte what.now ≡ true }
{
    match what {
        What::CvWrite { value, .. } => {
            byte_is_small(*value);
            true
        }
        What::CvBitWrite { .. } => true,
        _ => false,
    }
}

/// Returns true if the packet is an own write, which is a CV write that is no broadcast. Each
/// decoder that hears an own write has the address of the packet.
pub fn is_own_write(packet: &Packet) -> bool
    ensures own { result ≡ is_own_write_of packet.now }
    ensures byte { is_byte_write packet.now ≡ true }
{
    match packet {
        Packet::Loco { to, what } => is_write(what) && !matches!(to, Address::Broadcast),
        _ => false,
    }
}

/// Returns the pending write after a heard packet: this packet if it is an own write, otherwise
/// `None`.
fn own_write(packet: &Packet) -> Option<Packet>
    ensures pending { result ≡ left_pending packet.now }
    ensures byte { is_byte_write packet.now ≡ true }
{
    if is_own_write(packet) {
        Some(*packet)
    } else {
        None
    }
}

/// Sets `pending` to the pending write after a heard packet: this packet if it is an own write,
/// otherwise `None`.
pub fn leave_pending(pending: &mut Option<Packet>, packet: &Packet)
    ensures pending { pending.new ≡ left_pending packet.now }
    ensures byte { is_byte_write packet.now ≡ true }
{
    *pending = own_write(packet);
}

/// Returns true if a heard packet is a CV write that takes effect, because the packet is the second
/// copy of the pending packet.
pub fn is_repeated_write(pending: &Option<Packet>, packet: &Packet) -> bool
    ensures { result ≡ is_effective (Some (PendingValue pending.now)) packet.now }
{
    match pending {
        Some(before) => is_own_write(packet) && is_same_write(before, packet),
        None => false,
    }
}

/// Returns true if `packet` equals `own_write`, which must be an own write.
// compares the fields, since `Packet::is` creates the frames of both packets
fn is_same_write(packet: &Packet, own_write: &Packet) -> bool
    requires { is_own_write_of own_write.now ≡ true }
    ensures { IsTrue result ↔ (packet.now ≡ own_write.now) }
{
    match (packet, own_write) {
        (
            Packet::Loco {
                to: other,
                what: told,
            },
            Packet::Loco { to, what },
        ) => { to.is(other) && is_same_write_of(told, what) }
        _ => false,
    }
}

/// Returns true if the instruction `what` equals `write`, which must write a CV or a bit of a CV.
fn is_same_write_of(what: &What, write: &What) -> bool
    requires { is_cv_write write.now ≡ true }
    ensures { IsTrue result ↔ (what.now ≡ write.now) }
{
    match (what, write) {
        (
            What::CvWrite {
                cv: other,
                value: byte,
            },
            What::CvWrite { cv, value },
        ) => { other.number() == cv.number() && *byte == *value }
        (
            What::CvBitWrite {
                cv: other,
                place: at,
                one: bit,
            },
            What::CvBitWrite { cv, place, one },
        ) => { other.number() == cv.number() && at.place() == place.place() && *bit == *one }
        _ => false,
    }
}
