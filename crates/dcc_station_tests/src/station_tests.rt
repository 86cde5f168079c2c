//! Tests of stations with worked examples.

use crate::checks::check;
use crate::rows::{column, number};
use dcc_packet::Packet;
use dcc_regs::address_of;
use dcc_station::*;
use std::alloc::Global;
use std::process::Abort;

/// Returns the packet line for which a letter stands.
fn line_of(letter: &str) -> &'static str {
    match letter {
        // for locomotive 3: a speed, functions 5 to 8, and functions 9 to 12
        "A" => "frame 036261",
        "B" => "frame 03b1b2",
        "C" => "frame 03a1a2",
        // a speed and functions 5 to 8 for locomotive 1000
        "L" => "frame c3e86249",
        "M" => "frame c3e8b299",
        // a speed for the long address 3
        "N" => "loco l3 speed28 f 4",
        // a stop for all locomotive decoders, the packet of a stop of the station, an emergency stop
        // of locomotive 3, and two speeds with 128 steps for it, a stop and a step
        "S" => "frame 006060",
        "E" => "loco all speed28 f 3",
        "P" => "loco s3 speed28 f 2",
        "Q" => "loco s3 speed128 r 0",
        "R" => "loco s3 speed128 r 2",
        // a step for all locomotives, which no locomotive takes, and a reset of all
        "G" => "loco all speed28 f 20",
        "H" => "loco all reset",
        // `W` writes 2 to CV29 of locomotive 3, and `T` writes 1 to bit 5 of this CV. `V` verifies
        // CV29 of all locomotives, and `X` writes this CV.
        "W" => "frame 03ec1c02f1",
        "T" => "frame 03e81cfd0a",
        "V" => "loco all cv verify 29 2",
        "X" => "loco all cv write 29 2",
        // turns on binary state 5 of locomotive 3, and of all locomotives
        "U" => "frame 03dd855b",
        "Z" => "frame 00dd8558",
        "F" => "frame 7c000a76",
        _ => "idle",
    }
}

/// Makes one step of a station and asserts the result. `+A`: the station accepts command A. `-A:4`:
/// the station refuses command A with error C4 and returns this command. `=A`: the station sends
/// packet A. `~A`: the station forgets the address of packet A. `!2`: the station is stopped, and 2
/// commands are withdrawn. `0:1`: no command waits, and the station has one entry.
fn go<Q: PacketRing, S: PacketRing>(rt: &impl Abort, station: &mut StationOver<Q, S>, step: &str) {
    let (front, count) = match step.split_once(':') {
        Some(parts) => parts,
        None => (step, "0"),
    };
    let letter = front.trim_start_matches(['+', '-', '=', '~', '!']);
    let packet = Packet::from_line(line_of(letter)).expect(rt, step);
    let holds = if step.starts_with('=') {
        sends(station, &packet)
    } else if step.starts_with('~') {
        forget(station, &packet)
    } else if step.starts_with('!') {
        withdraws(station, number(letter))
    } else if step.starts_with('+') {
        refusal(station, packet) == 0
    } else if step.starts_with('-') {
        refusal(station, packet) == number(count)
    } else {
        has_waiting(station, number(front), number(count))
    };
    check(rt, holds, step);
}

fn sends<Q: PacketRing, S: PacketRing>(station: &mut StationOver<Q, S>, packet: &Packet) -> bool {
    station.next().is(packet)
}

/// Forgets the address of a packet, if it has one. Returns true.
fn forget<Q: PacketRing, S: PacketRing>(station: &mut StationOver<Q, S>, packet: &Packet) -> bool {
    if let Some(address) = address_of(packet) {
        station.forget(address);
    }
    true
}

fn withdraws<Q: PacketRing, S: PacketRing>(
    station: &mut StationOver<Q, S>,
    withdrawn: u32,
) -> bool {
    station.stop() == withdrawn as usize
}

/// Gives a command to a station. Returns 0 if the station accepts the command, or the number of the
/// error. Returns the greatest number if the station returns another packet than the command.
fn refusal<Q: PacketRing, S: PacketRing>(station: &mut StationOver<Q, S>, packet: Packet) -> u32 {
    match station.command(packet) {
        Ok(()) => 0,
        Err((refused, back)) if back.is(&packet) => u32::from(refused.number()),
        Err(_) => u32::MAX,
    }
}

fn has_waiting<Q: PacketRing, S: PacketRing>(
    station: &StationOver<Q, S>,
    waiting: u32,
    entries: u32,
) -> bool {
    station.waiting() == waiting as usize && station.entries() == entries as usize
}

/// The columns of a row are the name, the capacities of the queue and of the entries, the number of
/// copies of a command, and the steps.
const STATIONS: &str = "\
    nothing_to_send | 4 | 4 | 1 | =I =I 0:0
    sent_and_refreshed | 4 | 4 | 1 | +A 1:0 =A 0:1 =A =A
    a_broadcast_stop_ends_refreshing | 4 | 4 | 1 | +A =A =A +S =S =I =I
    the_queue_is_full | 4 | 4 | 1 | +A +B +A +B -C:4 =A +C 4:1
    no_commands | 1 | 1 | 1 | -I:3 -F:3 -V:3 -X:3 +A -I:3 -A:4
    a_write_ends_refreshing_its_address | 4 | 4 | 1 | +A =A +W =W 1:0 =W =I
    two_slots_and_two_repeats | 4 | 2 | 2 | +A +B =A =A =B =B =A =B =A +C =C =C =A =C
    a_write_leaves_other_addresses | 4 | 4 | 1 | +A +L =A =L +T =T =T =L =L 0:1
    nothing_comes_between_the_copies_of_a_write | 4 | 4 | 2 | +L =L =L =L +W =W =W =W =L
    a_state_beside_a_speed | 4 | 4 | 1 | +A +U =A =U =A =A 0:1
    a_state_of_all | 4 | 4 | 2 | +Z =Z =Z =I 0:0
    an_address_is_forgotten | 4 | 4 | 1 | +A +L +B =A =L =B 0:3 ~A 0:1 =L =L
    other_entries_keep_their_order | 4 | 4 | 1 | +L +A +M +N =L =A =M =N =L ~A 0:3 =M =N =L =M ~L 0:1 =N =N ~N 0:0 =I
    short_and_long_addresses_differ | 4 | 4 | 1 | +A +N =A =N ~N 0:1 =A =A ~A 0:0 =I
    an_address_without_entries_changes_nothing | 4 | 4 | 1 | +A +B =A =B =A ~L ~S 0:2 =B =A =B
    remaining_copies_are_sent_after_forgetting | 4 | 4 | 3 | +A =A 1:1 ~A 1:0 =A =A 0:0 =I
    a_command_that_waits_becomes_an_entry | 4 | 4 | 2 | +L +A =L ~A 2:1 =L =A 1:2 =A =L =A
    a_write_keeps_its_copies | 4 | 4 | 2 | +L =L =L +W =W ~A ~L 1:0 =W =W =I 0:0
    forgotten_and_sent_again | 4 | 4 | 1 | +A =A ~A =I +A =A 0:1 =A
    rings_go_round_and_forget | 2 | 3 | 1 | +A +L =A =L +M =M =A =L =M =A ~A 0:2 =L =M +N =N 0:3 =L =M =N ~L 0:1 =N
    rings_go_round | 2 | 3 | 1 | +A +B -C:4 =A +C =B =C 0:3 =A +L +A =L 1:3 =A +B =B =L =A =B +C +U =C =U =A =B =C
    a_stop_comes_before_commands | 4 | 4 | 2 | +B +C !0 2:0 =E =E 2:0 =B =B =C 1:2 =C 0:2 =B
    a_stop_ends_refreshing_speeds | 4 | 4 | 1 | +A +B =A =B 0:2 !0 0:2 =E 0:1 =B =B
    steps_are_withdrawn | 6 | 4 | 1 | +A +P +Q +R +L +B 6:0 !3 3:0 =E =P =Q =B 0:2 =Q =B
    commands_without_a_step_stay | 8 | 4 | 1 | +S +G +H +U +Z +W +T +B !0 8:0 =E =S =G =H =U =Z =W
    a_stop_is_accepted_with_a_full_queue | 2 | 4 | 2 | +B +C -B:4 !0 2:0 =E -A:4 =E =B =B =C =C 0:2
    a_second_stop_starts_the_copies_again | 4 | 4 | 3 | +B !0 =E =E !0 =E =E =E =B =B =B 0:1 =B
    a_write_starts_again_after_a_stop | 4 | 4 | 2 | +W =W =W !0 1:0 =E =E 1:0 =W =W =W 0:0 =I
    a_step_that_was_partly_sent_is_withdrawn | 4 | 4 | 3 | +A +B =A 2:1 !1 1:1 =E 1:0 =E =E =B =B =B 0:1 =B
    a_command_after_a_stop_moves_again | 4 | 4 | 1 | !0 +A 1:0 =E =A 0:1 =A
    nothing_waits_after_a_stop | 4 | 4 | 2 | !0 0:0 =E =E =I
    forgotten_while_a_stop_waits | 4 | 4 | 1 | +L +M +B =L =M =B 0:3 !0 ~L 0:1 =E 0:1 =B =B
    all_of_one_station | 4 | 4 | 1 | +A =A =A +S =S =I =I +A +B +A +B -C:4 -I:3";

#[test]
fn stations(rt: HostRuntime) {
    for row in STATIONS.lines() {
        play(&rt, rt.alloc(), row);
    }
}

/// Makes the steps of a row with a `Station` and a `FixedStation`.
fn play(rt: &impl Abort, alloc: Global, row: &str) {
    let queue = number(column(row, 1)) as usize;
    let slots = number(column(row, 2)) as usize;
    let repeats = column(row, 3).parse::<u8>().expect(rt, row);
    let mut station = Station::new(alloc, queue, slots, repeats).expect(rt, row);
    go_all(rt, &mut station, column(row, 4));
    let mut fixed = FixedStation::<64, 128>::new(queue, slots, repeats).expect(rt, row);
    go_all(rt, &mut fixed, column(row, 4));
}

fn go_all<Q: PacketRing, S: PacketRing>(
    rt: &impl Abort,
    station: &mut StationOver<Q, S>,
    steps: &str,
) {
    for step in steps.split_whitespace() {
        go(rt, station, step);
    }
}

/// The capacity of a queue, the capacity of the entries, the number of copies, and the number of
/// the error. The last number is 0 if such a station can be created.
const LIMITS: [(usize, usize, u8, u8); 8] = [
    (0, 4, 1, 1),
    (65, 4, 1, 1),
    (4, 0, 1, 1),
    (4, 129, 1, 1),
    (4, 4, 0, 1),
    (4, 4, 9, 1),
    (1, 1, 1, 0),
    (64, 128, 8, 0),
];

#[test]
fn limits(rt: HostRuntime) {
    for (queue, slots, repeats, refusal) in LIMITS {
        let number = station_fault(rt.alloc(), queue, slots, repeats);
        check(&rt, number == refusal, "a row");
        // larger arrays do not change the limits
        let number = large_fault(queue, slots, repeats);
        check(&rt, number == refusal, "a row");
    }
    check(&rt, fault_numbers() == (1, 2, 3, 4), "numbers");
}

fn fault_numbers() -> (u8, u8, u8, u8) {
    (
        StationFault::Limit.number(),
        StationFault::NoMemory.number(),
        Refused::NotSendable.number(),
        Refused::QueueFull.number(),
    )
}

/// Returns 0 if a `Station` with these sizes can be created, otherwise the number of the error.
fn station_fault(alloc: Global, queue: usize, slots: usize, repeats: u8) -> u8 {
    match Station::new(alloc, queue, slots, repeats) {
        Ok(_) => 0,
        Err(fault) => fault.number(),
    }
}

/// Returns 0 if a `FixedStation` with room for 100 commands and 200 entries can be created with
/// these sizes, otherwise the number of the error.
fn large_fault(queue: usize, slots: usize, repeats: u8) -> u8 {
    match FixedStation::<100, 200>::new(queue, slots, repeats) {
        Ok(_) => 0,
        Err(fault) => fault.number(),
    }
}

/// Returns 0 if a `FixedStation` with room for 3 commands and 5 entries can be created with these
/// sizes, otherwise the number of the error.
fn small_fault(queue: usize, slots: usize, repeats: u8) -> u8 {
    match FixedStation::<3, 5>::new(queue, slots, repeats) {
        Ok(_) => 0,
        Err(fault) => fault.number(),
    }
}

/// Sizes of a station, and the number of the error of a `FixedStation` with room for 3 commands and
/// 5 entries.
const ROOM: [(usize, usize, u8, u8); 7] = [
    (3, 5, 8, 0),
    (1, 1, 1, 0),
    (4, 5, 8, 1),
    (3, 6, 8, 1),
    (0, 5, 8, 1),
    (3, 0, 8, 1),
    (3, 5, 9, 1),
];

#[test]
fn a_fixed_station_has_no_more_than_its_room(rt: HostRuntime) {
    for (queue, slots, repeats, refusal) in ROOM {
        let number = small_fault(queue, slots, repeats);
        check(&rt, number == refusal, "a row");
    }
}
