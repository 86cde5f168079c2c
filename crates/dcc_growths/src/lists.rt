//! Tests of a station and of the comparison of lists. Each function returns true if an allocation
//! failed, false if no allocation failed, and `None` if a result is wrong.

use dcc_order::{Comparer, Verdict, Wants, compare};
use dcc_packet::{Address, Packet};
use dcc_regs::Who;
use dcc_station::Station;
use std::alloc::Global;

/// A packet that sets the speed of locomotive 3.
const A: &str = "frame 036261";

/// A packet that sets the speed of locomotive 3. The next two packets write the bit of CV29 that
/// selects the speed mode.
const X: &str = "frame 037477";

const C: &str = "frame 03e81cf106";

const D: &str = "frame 03e81cf90e";

const LEFT: [&str; 7] = [X, C, C, X, D, D, X];

const RIGHT: [&str; 6] = [X, C, C, D, D, X];

fn packet(line: &str) -> Option<Packet> {
    Packet::from_line(line).ok()
}

fn s3() -> Option<Who> {
    Some(Who::Loco(Some(Address::short(3).ok()?)))
}

/// Creates a station, and tries again if an allocation failed. The function then checks that the
/// station works.
pub fn station(alloc: Global) -> Option<bool> {
    let mut wanted = false;
    let made = match Station::new(alloc, 4, 4, 1) {
        Ok(station) => Ok(station),
        Err(fault) => {
            wanted = true;
            if fault.number() != 2 {
                return None;
            }
            Station::new(alloc, 4, 4, 1)
        }
    };
    let mut station = made.ok()?;
    let command = packet(A)?;
    let taken = station.command(command).is_ok();
    let sent = station.next().is(&command) && station.next().is(&command);
    let left = station.waiting() == 0 && station.entries() == 1;
    if taken && sent && left {
        Some(wanted)
    } else {
        None
    }
}

/// Compares two lists, and tries again if an allocation failed. The function then checks the
/// verdict.
pub fn two_lists(alloc: Global) -> Option<bool> {
    let left = [
        packet(X)?,
        packet(C)?,
        packet(C)?,
        packet(X)?,
        packet(D)?,
        packet(D)?,
        packet(X)?,
    ];
    let right = [
        packet(X)?,
        packet(C)?,
        packet(C)?,
        packet(D)?,
        packet(D)?,
        packet(X)?,
    ];
    let who = s3()?;
    let mut wanted = false;
    let verdict = match compare(alloc, who, &left, &right) {
        Ok(verdict) => verdict,
        Err(_) => {
            wanted = true;
            compare(alloc, who, &left, &right).ok()?
        }
    };
    if verdict == Verdict::Members(2) {
        Some(wanted)
    } else {
        None
    }
}

/// Returns the next packet of a list, or `Some(None)` at the end of the list. Returns `None` if a
/// line is no packet line.
fn next(lines: &[&str], at: u32) -> Option<Option<Packet>> {
    match lines.get(at as usize) {
        Some(line) => Some(Some(packet(line)?)),
        None => Some(None),
    }
}

/// Compares two lists packet by packet. If an allocation fails, the function checks that the
/// comparer is unchanged, and passes the same packet again.
pub fn in_step(alloc: Global) -> Option<bool> {
    let mut comparer = Comparer::new(alloc, s3()?);
    let mut wanted = false;
    for _ in 0..20 {
        let (left, right) = comparer.given();
        if left > 7 || right > 6 {
            return None;
        }
        let item = match comparer.wants() {
            Wants::Left => next(&LEFT, left)?,
            Wants::Right => next(&RIGHT, right)?,
            Wants::Done(_) => None,
        };
        let before = (comparer.wants(), comparer.held());
        if comparer.give(item).is_err() {
            wanted = true;
            if (comparer.wants(), comparer.held()) != before || comparer.given() != (left, right) {
                return None;
            }
            comparer.give(item).ok()?;
        }
    }
    if comparer.wants() == Wants::Done(Verdict::Members(2)) {
        Some(wanted)
    } else {
        None
    }
}
