//! Examples of the libraries. A decoder hears the capture on standard input. Two boosters are
//! compared, a programmer reads a CV, and a station sends packets. One receiver has a slow clock,
//! and one receiver loses contact with the rails. Each module contains code that you can copy.
#![tactic(auto)]

mod after_a_stop;
mod all_stopped;
mod both_tracks;
mod cab;
mod chained_reader;
mod copied_cv;
mod counted_decoder;
mod counting_listener;
mod decoder_loop;
mod encoded_and_listed;
mod equal_again;
mod first_call;
mod lost_contact;
mod lost_packets;
mod measured_track;
mod own_board;
mod own_streams;
mod parked;
mod played_lists;
mod programmer;
mod refreshed;
mod sent_and_heard;
mod sent_in_turn;
mod station_sends;
mod two_boosters;
mod written_cv;

use dcc_order::NoMemory;
use dcc_packet::{Address, CvNumber, Packet, PacketFault};
use dcc_regs::Who;
use dcc_service::ServiceDecoder;
use dcc_station::{Refused, StationFault};
use dcc_wire::{Framer, Halves, Seen, Timing};
use std::alloc::Global;
use std::io;
use thiserror::Error;

/// An error of an example.
#[derive(Debug, Drop, Error)]
pub enum Fault {
    /// A line is no packet line.
    #[error("{0}")]
    Packet(#[from] PacketFault),
    /// A station cannot be created.
    #[error("{0}")]
    Station(#[from] StationFault),
    /// A station refuses a command.
    #[error("{0}")]
    Refused(#[from] Refused),
    /// An allocation of a comparison failed.
    #[error("{0}")]
    NoMemory(#[from] NoMemory),
    /// Standard input or output failed, or the allocation of the half-bits failed.
    #[error("{0}")]
    Io(#[from] io::Error),
}

/// Returns the half-bits of standard input, which contains the duration of each half-bit in
/// microseconds. The function skips words that are no numbers.
fn durations<R: Input + Alloc>(rt: &R) -> io::Result<Vec<u16, R::A>> {
    let mut durations = Vec::new(rt.alloc());
    for line in rt.lines(rt.alloc()) {
        for word in line?.as_str().split_whitespace() {
            if let Ok(us) = word.parse::<u16>() {
                durations.push(us)?;
            }
        }
    }
    Ok(durations)
}

/// Compares the packets of two boosters for locomotive 3. The first two tracks are alike, and the
/// next two tracks are not.
fn compare_boosters<R: Print>(rt: &R, alloc: Global) -> Result<(), Fault> {
    let who = Who::Loco(Some(Address::short(3)?));
    let slow = Packet::from_line("loco s3 speed28 f 4")?;
    let fast = Packet::from_line("loco s3 speed28 f 8")?;
    let write = Packet::from_line("loco s3 cv write 3 12")?;
    let left = [slow, write, write, fast];
    let repeated = [slow, Packet::Idle, slow, write, write, fast];
    let (verdict, (lefts, rights)) = two_boosters::compare_in_step(alloc, who, &left, &repeated)?;
    println!(rt; "{verdict:?}, {lefts} and {rights} read")?;
    let faster = [fast, write, write, fast];
    let (verdict, (lefts, rights)) = two_boosters::compare_in_step(alloc, who, &left, &faster)?;
    println!(rt; "{verdict:?}, {lefts} and {rights} read")?;
    Ok(())
}

/// Sends six packets with a station. The station sends each of its two commands twice, and then
/// refreshes each command once.
fn send_six<R: Print>(rt: &R, alloc: Global) -> Result<(), Fault> {
    let mut station = station_sends::with_two_commands(alloc)?;
    let mut rails = Framer::new();
    for _ in 0..6 {
        let (packet, heard) = station_sends::send_next(&mut station, &mut rails);
        let sent = packet.to_line();
        if let Seen::Packet(frame) = heard {
            let heard = Packet::read(&frame).to_line();
            println!(rt; "sent {sent}, heard {heard}")?;
        }
    }
    Ok(())
}

/// Returns the half-bits of packets, one after the other.
fn track_of(alloc: Global, packets: &[Packet]) -> io::Result<Vec<u16>> {
    let mut track = Vec::new(alloc);
    for packet in packets {
        for us in Halves::new(packet.frame(), Timing::main()) {
            track.push(us)?;
        }
    }
    Ok(track)
}

/// Prints each packet that a framer finds in `halves`.
fn print_heard<R: Print>(rt: &R, halves: &[u16]) -> io::Result<()> {
    let mut framer = Framer::new();
    for us in halves {
        if let Seen::Packet(frame) = framer.push(*us) {
            let heard = Packet::read(&frame).to_line();
            println!(rt; "heard {heard}")?;
        }
    }
    Ok(())
}

/// Lets two receivers hear three packets: one with a slow clock, and one that loses contact
/// during the error byte of the first packet.
fn receive<R: Print>(rt: &R, alloc: Global) -> Result<(), Fault> {
    let slow = Packet::from_line("loco s3 speed28 f 4")?;
    let fast = Packet::from_line("loco s3 speed28 f 8")?;
    let track = track_of(alloc, &[Packet::Idle, slow, fast])?;
    println!(rt; "a receiver with a slow clock")?;
    let measured = measured_track::measured(alloc, track.as_slice())?;
    print_heard(rt, measured.as_slice())?;
    println!(rt; "a locomotive that loses contact")?;
    // The last 18 of 84 half-bits are missing, so the preamble of the second packet completes the
    // first packet, and the second packet is lost.
    let to = track.len().min(84);
    let heard = lost_contact::with_gap(alloc, track.as_slice(), to.min(66), to)?;
    print_heard(rt, heard.as_slice())?;
    let lost = lost_packets::count_lost(heard.as_slice());
    println!(rt; "lost packets: {lost}")?;
    Ok(())
}

fn main(rt: HostRuntime) -> Result<(), Fault> {
    println!(rt; "a decoder's loop")?;
    let mut cvs = [0; 1024];
    cvs[0] = 3; // CV1: the short address
    cvs[28] = 2; // CV29: 28 speed steps
    let loco = decoder_loop::run(&rt, &cvs, &durations(&rt)?);
    let speed = loco.state().speed;
    println!(rt; "{speed:?}")?;
    println!(rt; "two boosters")?;
    compare_boosters(&rt, rt.alloc())?;
    println!(rt; "a programmer")?;
    let value = programmer::read_cv(&mut ServiceDecoder::new(&cvs), CvNumber::new(29)?);
    println!(rt; "CV29 has {value:?}")?;
    println!(rt; "a station that sends")?;
    send_six(&rt, rt.alloc())?;
    receive(&rt, rt.alloc())
}
