//! Functions that decide if an entry stays after a command, from the instructions of the entry and
//! the command.

ghost use Rattle.std.specs.Prelude.{◌≡◌};
ghost use Rattle.dcc_station.specs.Inner.Kept as kept;

use crate::commands::is_refreshed_at;
use dcc_packet::{Address, GroupBits, Packet, What};
use dcc_regs::first_function;

/// Returns true if the entry with the instruction `set` to the address `own` stays after the
/// command. Returns `None` if the station does not refresh the instruction `set`, or if the entry
/// and the command both set the speed of one locomotive.
pub fn is_left(command: &Packet, own: &Address, set: &What) -> Option<bool>
    ensures { result ≡ kept.kept_in command.now own.now set.now }
{
    if !is_refreshed_at(own, set) {
        return None;
    }
    match command {
        Packet::Loco { to, what } => is_left_at(to, what, own, set),
        _ => Some(true),
    }
}

/// Returns the result of `is_left` for a command that is the instruction `what` to the address
/// `to`.
fn is_left_at(to: &Address, what: &What, own: &Address, set: &What) -> Option<bool>
    ensures { result ≡ kept.kept_of to.now what.now own.now set.now }
{
    match to {
        Address::Broadcast => Some(is_left_by_all(what, set)),
        Address::Short(_) | Address::Long(_) => if own.is(to) {
            is_left_by_one(what, set)
        } else {
            Some(true)
        },
    }
}

/// Returns true if an entry with the instruction `set` stays after a command to all locomotives.
fn is_left_by_all(what: &What, set: &What) -> bool
    ensures { result ≡ kept.kept_by_all what.now set.now }
{
    match what {
        What::Reset => is_left_by_reset(set),
        What::Speed28 { forward, bits } => is_left_by_stop(*forward, bits.bits(), set),
        What::Speed128 { forward, bits } => has_speed(set, bits.bits(), Some(*forward)),
        What::Functions(bits) => is_left_by_group(false, bits, set),
        _ => true,
    }
}

/// Returns true if an entry with the instruction `set` stays after a command to its locomotive.
/// Returns `None` if both instructions set the speed.
fn is_left_by_one(what: &What, set: &What) -> Option<bool>
    ensures { result ≡ kept.kept_by_one what.now set.now }
{
    match what {
        What::Reset => Some(is_left_by_reset(set)),
        What::Functions(bits) => Some(is_left_by_group(true, bits, set)),
        What::Speed28 { .. } | What::Speed128 { .. } => {
            if matches!(set, What::Functions(_)) {
                Some(true)
            } else {
                None
            }
        }
        What::CvWrite { cv, .. } | What::CvBitWrite { cv, .. } => Some(cv.number() != 29),
        _ => Some(true),
    }
}

/// Returns true if an entry stays after a broadcast that sets the speed in 28 steps. A broadcast
/// that sets the speed in 28 steps takes effect only if it is a stop.
fn is_left_by_stop(forward: bool, bits: u8, set: &What) -> bool
    ensures { result ≡ kept.stop_kept forward bits set.now }
{
    if bits >= 4 {
        return true;
    }
    let way = if bits == 0 || bits == 2 {
        Some(forward)
    } else {
        None
    };
    has_speed(set, bits / 2, way)
}

/// Returns true if the entry sets no speed. Returns true also if the entry sets the speed `bits`
/// and the direction `way`. The number `bits` is the speed in the form of the bits of an
/// instruction with 128 steps.
fn has_speed(set: &What, bits: u8, way: Option<bool>) -> bool
    ensures { result ≡ kept.speed_kept bits way set.now }
{
    match set {
        What::Speed28 { forward, bits: own } => {
            bits < 2 && own.bits() / 2 == bits && is_way(way, *forward)
        }
        What::Speed128 { forward, bits: own } => own.bits() == bits && is_way(way, *forward),
        _ => true,
    }
}

/// Returns true if `way` is `None` or equals `forward`.
fn is_way(way: Option<bool>, forward: bool) -> bool
    ensures { result ≡ kept.way_kept way forward }
{
    match way {
        None => true,
        Some(true) => forward,
        Some(false) => !forward,
    }
}

/// Returns true if an entry stays after a reset. A speed stays if it is a stop with direction
/// forward, and a function group stays if all its functions are off.
fn is_left_by_reset(set: &What) -> bool
    ensures { result ≡ kept.reset_kept set.now }
{
    match set {
        What::Speed28 { forward, bits } => *forward && bits.bits() == 0,
        What::Speed128 { forward, bits } => *forward && bits.bits() == 0,
        What::Functions(bits) => bits.bits() == 0,
        _ => true,
    }
}

/// Returns true if an entry stays after a command that switches a function group. The entry stays
/// if it does not switch this group. It also stays if the command is to all locomotives and both
/// packets have the same bits.
fn is_left_by_group(one: bool, bits: &GroupBits, set: &What) -> bool
    ensures { result ≡ kept.group_kept one bits.now set.now }
{
    match set {
        What::Functions(own) => {
            first_function(bits.group()) != first_function(own.group())
                || !one && bits.bits() == own.bits()
        }
        _ => true,
    }
}
