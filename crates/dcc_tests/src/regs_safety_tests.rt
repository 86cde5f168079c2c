//! Tests of the theorems on the safety of locomotives and of their CVs, with pseudo-random lists of
//! packets.

use crate::checks::{check, check_at};
use crate::noise::Noise;
use dcc_packet::{
    Address, BitPlace, Board, CvNumber, Group, GroupBits, Output, Packet, SpeedBits28,
    SpeedBits128, What,
};
use dcc_regs::{Decoder, LocoDecoder, Register, Speed, Value};
use std::process::Abort;

/// The CVs that the packets write and that the tests compare.
const CVS: [u16; 5] = [1, 7, 8, 29, 100];

/// Returns a locomotive decoder at short address 3 with 28 speed steps.
fn s3() -> LocoDecoder {
    let mut cvs = [0; 1024];
    cvs[0] = 3;
    cvs[6] = 1;
    cvs[7] = 13;
    cvs[28] = 2;
    LocoDecoder::new(&cvs)
}

/// Returns short address 3, short address 4, or the broadcast address.
fn any_address(rt: &impl Abort, noise: &mut Noise) -> Address {
    match noise.below(6) {
        0 => short(rt, 4),
        1 => Address::Broadcast,
        _ => short(rt, 3),
    }
}

fn short(rt: &impl Abort, number: u8) -> Address {
    Address::short(number).expect(rt, "an address")
}

/// Returns CV1, CV7, CV8, CV29 or CV100.
fn any_cv(rt: &impl Abort, noise: &mut Noise) -> CvNumber {
    let number = match noise.below(5) {
        0 => 1,
        1 => 7,
        2 => 8,
        3 => 29,
        _ => 100,
    };
    CvNumber::new(number).expect(rt, "a CV")
}

/// Returns an instruction. Half of the speeds are stops.
fn any_instruction(rt: &impl Abort, noise: &mut Noise) -> What {
    let forward = noise.below(2) == 0;
    let is_slow = noise.below(2) == 0;
    match noise.below(8) {
        0 => What::Reset,
        1 => speed_28(rt, forward, noise.below(if is_slow { 4 } else { 32 }) as u8),
        2 => speed_128(
            rt,
            forward,
            noise.below(if is_slow { 2 } else { 128 }) as u8,
        ),
        3 => functions(rt, noise.below(32) as u8),
        4 => verify(any_cv(rt, noise), noise.below(4) as u8),
        5 => write_bit(rt, any_cv(rt, noise), noise.below(8) as u8, forward),
        _ => write(any_cv(rt, noise), noise.below(4) as u8),
    }
}

fn speed_28(rt: &impl Abort, forward: bool, bits: u8) -> What {
    let bits = SpeedBits28::new(bits).expect(rt, "a speed");
    What::Speed28 { forward, bits }
}

fn speed_128(rt: &impl Abort, forward: bool, bits: u8) -> What {
    let bits = SpeedBits128::new(bits).expect(rt, "a speed");
    What::Speed128 { forward, bits }
}

fn functions(rt: &impl Abort, bits: u8) -> What {
    What::Functions(GroupBits::new(Group::F0, bits).expect(rt, "functions"))
}

fn verify(cv: CvNumber, value: u8) -> What {
    What::CvVerify { cv, value }
}

fn write(cv: CvNumber, value: u8) -> What {
    What::CvWrite { cv, value }
}

fn write_bit(rt: &impl Abort, cv: CvNumber, place: u8, one: bool) -> What {
    let place = BitPlace::new(place).expect(rt, "a place");
    What::CvBitWrite { cv, place, one }
}

/// Returns a packet to locomotive decoders, a packet to accessory decoders, or an idle packet.
fn any_packet(rt: &impl Abort, noise: &mut Noise) -> Packet {
    match noise.below(10) {
        0 => Packet::Idle,
        1 => accessory(rt, noise.below(512) as u16, noise.below(8) as u8),
        _ => Packet::Loco {
            to: any_address(rt, noise),
            what: any_instruction(rt, noise),
        },
    }
}

fn accessory(rt: &impl Abort, board: u16, output: u8) -> Packet {
    Packet::Accessory {
        board: Board::new(board).expect(rt, "a board"),
        output: Output::new(output).expect(rt, "an output"),
        on: true,
    }
}

/// Returns true if the packet is for short address 3.
fn is_to_s3(packet: &Packet) -> bool {
    match packet {
        Packet::Loco {
            to: Address::Short(own),
            ..
        } => own.number() == 3,
        _ => false,
    }
}

/// Returns true if the packet is a broadcast to locomotive decoders.
fn is_to_all(packet: &Packet) -> bool {
    matches!(
        packet,
        Packet::Loco {
            to: Address::Broadcast,
            ..
        }
    )
}

/// The effect that a packet to a locomotive has on its speed.
#[derive(Clone, Copy, PartialEq, Eq)]
enum Effect {
    /// The packet sets the speed to a stop.
    Stops,
    /// The packet sets the speed to a step.
    Moves,
    /// The packet sets no speed.
    Nothing,
}

/// Returns the effect of a packet on the speed of the decoder at short address 3.
fn speed_effect(packet: &Packet) -> Effect {
    if !is_to_s3(packet) && !is_to_all(packet) {
        return Effect::Nothing;
    }
    match packet {
        Packet::Loco {
            what: What::Reset,
            ..
        } => Effect::Stops,
        Packet::Loco {
            what: What::Speed28 { bits, .. },
            ..
        } => {
            if bits.bits() < 4 {
                Effect::Stops
            } else if is_to_all(packet) {
                Effect::Nothing
            } else {
                Effect::Moves
            }
        }
        Packet::Loco {
            what: What::Speed128 { bits, .. },
            ..
        } => {
            if bits.bits() < 2 {
                Effect::Stops
            } else {
                Effect::Moves
            }
        }
        _ => Effect::Nothing,
    }
}

/// Returns true if the packet is a speed packet to short address 3, or a speed packet of 128 steps
/// to all locomotives.
fn can_have_step(packet: &Packet) -> bool {
    match packet {
        Packet::Loco {
            what: What::Speed28 { .. },
            ..
        } => is_to_s3(packet),
        Packet::Loco {
            what: What::Speed128 { .. },
            ..
        } => is_to_s3(packet) || is_to_all(packet),
        _ => false,
    }
}

/// Returns true if the speed of the decoder is a stop.
fn is_standing(decoder: &LocoDecoder) -> bool {
    matches!(
        decoder.get(Register::Speed),
        Some(Value::Speed(Speed::Stop | Speed::Emergency))
    )
}

/// Returns the number of the CV that a write to short address 3 writes. Returns 0 for another
/// packet.
fn written_cv(packet: &Packet) -> u16 {
    match packet {
        Packet::Loco {
            what: What::CvWrite { cv, .. } | What::CvBitWrite { cv, .. },
            ..
        } => if is_to_s3(packet) { cv.number() } else { 0 },
        _ => 0,
    }
}

/// Applies a packet. Returns true if the decoder stood before the packet, and true if it stands
/// after the packet.
fn hear(decoder: &mut LocoDecoder, packet: &Packet) -> (bool, bool) {
    let stood = is_standing(decoder);
    decoder.apply(packet);
    (stood, is_standing(decoder))
}

#[test]
fn only_speed_packets_move_a_standing_loco(rt: HostRuntime) {
    let mut noise = Noise { state: 17 };
    let (mut stayed, mut moved, mut stopped) = (0u32, 0u32, 0u32);
    for _ in 0..300u32 {
        let mut decoder = s3();
        // true if the decoder heard a stop, and after it no packet that sets a step
        let mut is_stopped = false;
        for _ in 0..40u32 {
            let packet = any_packet(&rt, &mut noise);
            let (stood, stands) = hear(&mut decoder, &packet);
            if stood && !can_have_step(&packet) {
                check(&rt, stands, "moved by another packet");
                stayed = stayed.saturating_add(1);
            }
            if stood && !stands {
                moved = moved.saturating_add(1);
            }
            let effect = speed_effect(&packet);
            if effect == Effect::Stops && !stood {
                stopped = stopped.saturating_add(1);
            }
            is_stopped = is_stopped_after(is_stopped, effect);
            check(&rt, stands || !is_stopped, "not stopped");
        }
    }
    check_at(&rt, stayed > 1000, stayed);
    check_at(&rt, moved > 100, moved);
    check_at(&rt, stopped > 100, stopped);
}

/// Returns true if a packet with this effect stops the decoder, or leaves it stopped.
fn is_stopped_after(is_stopped: bool, effect: Effect) -> bool {
    match effect {
        Effect::Stops => true,
        Effect::Moves => false,
        Effect::Nothing => is_stopped,
    }
}

/// Returns the values of the CVs in `CVS`.
fn values(decoder: &LocoDecoder) -> [u8; 5] {
    [
        decoder.cv_byte(1),
        decoder.cv_byte(7),
        decoder.cv_byte(8),
        decoder.cv_byte(29),
        decoder.cv_byte(100),
    ]
}

/// Applies a packet, and asserts that only CV `written` changes, and only if `is_second` is true.
/// Returns true if this CV changes.
fn has_changed(
    rt: &impl Abort,
    decoder: &mut LocoDecoder,
    packet: &Packet,
    is_second: bool,
) -> bool {
    let before = values(decoder);
    decoder.apply(packet);
    let after = values(decoder);
    let written = written_cv(packet);
    let mut changed = false;
    for ((cv, old), new) in CVS.iter().zip(before).zip(after) {
        if old != new {
            check_at(rt, *cv == written && is_second, u32::from(*cv));
            changed = true;
        }
    }
    changed
}

/// Returns true if the packet is a write of a byte.
fn is_byte_write(packet: &Packet) -> bool {
    matches!(
        packet,
        Packet::Loco {
            what: What::CvWrite { .. },
            ..
        }
    )
}

/// Returns true if the packets are equal.
fn is_copy(packet: &Packet, other: &Packet) -> bool {
    packet.is(other)
}

/// Returns the values of CV7 and CV8.
fn fixed_values(decoder: &LocoDecoder) -> (u8, u8) {
    (decoder.cv_byte(7), decoder.cv_byte(8))
}

#[test]
fn cvs_change_by_two_copies_of_a_write(rt: HostRuntime) {
    let mut noise = Noise { state: 19 };
    let (mut by_byte, mut by_bit, mut alone, mut refused) = (0u32, 0u32, 0u32, 0u32);
    for _ in 0..300u32 {
        let mut decoder = s3();
        // the last packet, and the last packet that the decoder heard
        let mut packet = Packet::Idle;
        let mut heard = Packet::Idle;
        for _ in 0..40u32 {
            if noise.below(3) != 0 {
                packet = any_packet(&rt, &mut noise);
            }
            let written = written_cv(&packet);
            let is_second = is_copy(&heard, &packet);
            if has_changed(&rt, &mut decoder, &packet, is_second) {
                if is_byte_write(&packet) {
                    by_byte = by_byte.saturating_add(1);
                } else {
                    by_bit = by_bit.saturating_add(1);
                }
            }
            check(&rt, fixed_values(&decoder) == (1, 13), "CV7 or CV8");
            if written != 0 && !is_second {
                alone = alone.saturating_add(1);
            }
            if is_second && (written == 7 || written == 8) {
                refused = refused.saturating_add(1);
            }
            if is_to_s3(&packet) || is_to_all(&packet) {
                heard = packet;
            }
        }
    }
    check_at(&rt, by_byte > 50, by_byte);
    check_at(&rt, by_bit > 50, by_bit);
    check_at(&rt, alone > 1000, alone);
    check_at(&rt, refused > 100, refused);
}
