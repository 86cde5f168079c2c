//! Tests of the theorems on the times that commands wait in a station, with pseudo-random commands.

use crate::checks::{check, check_at};
use crate::noise::Noise;
use dcc_packet::{Address, CvNumber, Packet, SpeedBits28, What};
use dcc_station::*;
use dcc_wire::{Halves, Timing};
use std::alloc::Global;
use std::process::Abort;

/// Returns a command to the short or long address `number`, and the number of its copies.
fn command(rt: &impl Abort, noise: &mut Noise, number: u8, repeats: u8) -> (Packet, u32) {
    let to = match noise.below(2) {
        0 => Address::short(number).expect(rt, "an address"),
        _ => Address::long(u16::from(number)).expect(rt, "an address"),
    };
    let copies = u32::from(repeats);
    match noise.below(2) {
        0 => (speed(rt, to, noise.below(32) as u8), copies),
        _ => {
            let cv = noise.below(1024) as u16 + 1;
            (
                write(rt, to, cv, noise.below(256) as u8),
                copies.saturating_add(1),
            )
        }
    }
}

fn speed(rt: &impl Abort, to: Address, bits: u8) -> Packet {
    let forward = true;
    let bits = SpeedBits28::new(bits).expect(rt, "a speed");
    let what = What::Speed28 { forward, bits };
    Packet::Loco { to, what }
}

fn write(rt: &impl Abort, to: Address, cv: u16, value: u8) -> Packet {
    let cv = CvNumber::new(cv).expect(rt, "a CV");
    let what = What::CvWrite { cv, value };
    Packet::Loco { to, what }
}

/// Returns the number of half-bits of a packet, and asserts that its bytes give this number.
fn half_bits(rt: &impl Abort, packet: &Packet) -> u32 {
    let mut count = 0u32;
    for _ in Halves::new(packet.frame(), Timing::main()) {
        count = count.saturating_add(1);
    }
    check_at(rt, count == sent_half_bits(packet), count);
    count
}

/// Returns the number of half-bits of a preamble of 14 ones, of the bytes of the packet with a start
/// bit before each byte, and of an end bit.
fn sent_half_bits(packet: &Packet) -> u32 {
    match packet.frame().bytes().len() {
        3 => 2 * (14 + 27 + 1),
        4 => 2 * (14 + 36 + 1),
        5 => 2 * (14 + 45 + 1),
        6 => 2 * (14 + 54 + 1),
        _ => 0,
    }
}

/// Gives a command to a station, which must accept it.
fn accepts<Q: PacketRing, S: PacketRing>(
    rt: &impl Abort,
    station: &mut StationOver<Q, S>,
    packet: Packet,
) {
    check(rt, station.command(packet).is_ok(), "a refused command");
}

/// Lets a station send a packet, which must be this packet.
fn sends<Q: PacketRing, S: PacketRing>(
    rt: &impl Abort,
    station: &mut StationOver<Q, S>,
    packet: &Packet,
) {
    check(rt, station.next().is(packet), "another packet");
}

fn waiting<Q: PacketRing, S: PacketRing>(station: &StationOver<Q, S>) -> u32 {
    u32::try_from(station.waiting()).unwrap_or(u32::MAX)
}

/// Lets a station accept `ahead` commands. Returns the list of all their copies.
fn accept_ahead<Q: PacketRing, S: PacketRing>(
    rt: &impl Abort,
    alloc: Global,
    noise: &mut Noise,
    station: &mut StationOver<Q, S>,
    repeats: u8,
    ahead: u8,
) -> Vec<Packet> {
    let mut copies = Vec::new(alloc);
    for number in 0..ahead {
        let (packet, n) = command(rt, noise, number.saturating_add(1), repeats);
        accepts(rt, station, packet);
        push_copies(rt, &mut copies, &packet, n);
    }
    copies
}

/// Appends `n` copies of a packet.
fn push_copies(rt: &impl Abort, copies: &mut Vec<Packet>, packet: &Packet, n: u32) {
    for _ in 0..n {
        copies.push(*packet).expect(rt, "memory");
    }
}

/// Lets a station accept `ahead` commands and send some packets, so that commands wait and the
/// first waiting command can be partly sent. Then the station accepts a tested command and a later
/// command. The function asserts which packets the station sends before the first copy of the
/// tested command, and the number of half-bits until this copy is complete. Returns the number of
/// packets before this copy.
fn wait_for_copy<Q: PacketRing, S: PacketRing>(
    rt: &impl Abort,
    alloc: Global,
    noise: &mut Noise,
    station: &mut StationOver<Q, S>,
    repeats: u8,
    ahead: u8,
) -> u32 {
    let copies = accept_ahead(rt, alloc, noise, station, repeats, ahead);
    let sent = noise.below(60) as usize;
    for copy in copies.iter().take(sent) {
        sends(rt, station, copy);
    }
    let k = waiting(station);
    check(rt, k <= 12, "more than 12 commands wait");
    let most = k.saturating_mul(u32::from(repeats).saturating_add(1));
    let (packet, _) = command(rt, noise, 100, repeats);
    accepts(rt, station, packet);
    let (later, _) = command(rt, noise, 101, repeats);
    accepts(rt, station, later);
    let (mut before, mut halves) = (0u32, 0u32);
    for copy in copies.iter().skip(sent) {
        sends(rt, station, copy);
        before = before.saturating_add(1);
        halves = halves.saturating_add(half_bits(rt, copy));
    }
    sends(rt, station, &packet);
    halves = halves.saturating_add(half_bits(rt, &packet));
    check_at(rt, before <= most, before);
    let limit = most.saturating_add(1).saturating_mul(2 * (14 + 55));
    check_at(rt, halves <= limit, halves);
    before
}

/// Lets a station send packets until no command waits.
fn send_all<Q: PacketRing, S: PacketRing>(rt: &impl Abort, station: &mut StationOver<Q, S>) {
    for _ in 0..200u32 {
        if waiting(station) > 0 {
            send_one(station);
        }
    }
    check(rt, waiting(station) == 0, "commands wait");
}

fn send_one<Q: PacketRing, S: PacketRing>(station: &mut StationOver<Q, S>) {
    let _ = station.next();
}

#[test]
fn commands_are_sent_in_turn_and_in_time(rt: HostRuntime) {
    let mut noise = Noise { state: 23 };
    let (mut at_once, mut after_many) = (0u32, 0u32);
    for _ in 0..150u32 {
        let repeats = noise.below(8) as u8 + 1;
        let slots = noise.below(6) as usize + 1;
        let (few, many) = rounds(&rt, rt.alloc(), &mut noise, slots, repeats);
        at_once = at_once.saturating_add(few);
        after_many = after_many.saturating_add(many);
    }
    check_at(&rt, at_once > 50, at_once);
    check_at(&rt, after_many > 20, after_many);
}

/// Tests a command in three rounds, with a `Station` and a `FixedStation`. Returns the number of
/// rounds in which no packet came before the command, and the number of rounds in which more than
/// 20 packets came before it.
fn rounds(
    rt: &impl Abort,
    alloc: Global,
    noise: &mut Noise,
    slots: usize,
    repeats: u8,
) -> (u32, u32) {
    let mut station = Station::new(alloc, 12, slots, repeats).expect(rt, "a station");
    let mut fixed = FixedStation::<12, 6>::new(12, slots, repeats).expect(rt, "a station");
    let (mut at_once, mut after_many) = (0u32, 0u32);
    // after the first round the stations have entries
    for _ in 0..3u32 {
        let ahead = noise.below(11) as u8;
        let before = wait_for_copy(rt, alloc, noise, &mut station, repeats, ahead);
        wait_for_copy(rt, alloc, noise, &mut fixed, repeats, ahead);
        if before == 0 {
            at_once = at_once.saturating_add(1);
        }
        if before > 20 {
            after_many = after_many.saturating_add(1);
        }
        send_all(rt, &mut station);
        send_all(rt, &mut fixed);
    }
    (at_once, after_many)
}

/// Lets a station accept `ahead` own writes and a tested write, and stops it `stops` times, each time
/// when the station has sent all copies of the last stop and `repeats` copies of the first write.
/// Returns the number of packets before the first copy of the tested write.
fn wait_between_stops(rt: &impl Abort, alloc: Global, repeats: u8, ahead: u8, stops: u32) -> u32 {
    let mut station = Station::new(alloc, 12, 6, repeats).expect(rt, "a station");
    for number in 0..ahead {
        let to = Address::short(number.saturating_add(1)).expect(rt, "an address");
        accepts(rt, &mut station, write(rt, to, 3, 7));
    }
    let to = Address::short(100).expect(rt, "an address");
    let tested = write(rt, to, 3, 7);
    accepts(rt, &mut station, tested);
    let wasted = if ahead > 0 { u32::from(repeats) } else { 0 };
    let mut before = 0u32;
    for _ in 0..stops {
        for _ in 0..wasted {
            send_one(&mut station);
        }
        station.stop();
        for _ in 0..repeats {
            send_one(&mut station);
        }
        before = before
            .saturating_add(wasted)
            .saturating_add(u32::from(repeats));
    }
    for _ in 0..200u32 {
        if station.next().is(&tested) {
            return before;
        }
        before = before.saturating_add(1);
    }
    before
}

#[test]
fn stops_can_cost_the_longest_wait(rt: HostRuntime) {
    for ahead in 0..5u8 {
        for repeats in 1..5u8 {
            for stops in 0..5u32 {
                let before = wait_between_stops(&rt, rt.alloc(), repeats, ahead, stops);
                let one_stop = if ahead > 0 { 2 } else { 1 } * u32::from(repeats);
                let most = u32::from(ahead) * (u32::from(repeats) + 1) + stops * one_stop;
                check_at(&rt, before == most, before);
            }
        }
    }
}

/// Lets a station accept `ahead` own writes, stops it, and lets it accept a tested write. Returns the
/// number of packets before the first copy of the tested write.
fn wait_after_a_stop(rt: &impl Abort, alloc: Global, repeats: u8, ahead: u8) -> u32 {
    let mut station = Station::new(alloc, 12, 6, repeats).expect(rt, "a station");
    for number in 0..ahead {
        let to = Address::short(number.saturating_add(1)).expect(rt, "an address");
        accepts(rt, &mut station, write(rt, to, 3, 7));
    }
    station.stop();
    let to = Address::short(100).expect(rt, "an address");
    let tested = write(rt, to, 3, 7);
    accepts(rt, &mut station, tested);
    for before in 0..200u32 {
        if station.next().is(&tested) {
            return before;
        }
    }
    200
}

#[test]
fn a_stop_that_waits_can_cost_its_copies(rt: HostRuntime) {
    for ahead in 0..5u8 {
        for repeats in 1..9u8 {
            let before = wait_after_a_stop(&rt, rt.alloc(), repeats, ahead);
            let most = u32::from(ahead) * (u32::from(repeats) + 1) + u32::from(repeats);
            check_at(&rt, before == most, before);
        }
    }
}
