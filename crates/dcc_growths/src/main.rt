//! Tests of failed allocations. Each call must return its full result, or report that an allocation
//! failed and change nothing.
//!
//! `tools/growths` runs this program so that the first allocation fails, then the second, and so
//! on. With an argument the program makes two calls with many packets. `tools/growths` runs these
//! calls under a limit of memory.
#![tactic(auto)]

mod lists;
mod many;
mod page;
mod tool;

use std::env;
use std::process::ExitCode;

fn main(rt: HostRuntime) -> ExitCode {
    let is_asked = match env::args(&rt) {
        Ok(words) => words.count() > 1,
        Err(_) => false,
    };
    if is_asked {
        let many = [
            ("many blocks", many::many_blocks(rt.alloc())),
            ("one block of as many packets", many::one_block(rt.alloc())),
        ];
        tell(&rt, &many)
    } else {
        let rows = [
            ("a station", lists::station(rt.alloc())),
            ("two lists", lists::two_lists(rt.alloc())),
            ("two lists in step", lists::in_step(rt.alloc())),
            ("a fleet", tool::fleet(rt.alloc())),
            ("a fleet made before", tool::made_before(rt.alloc())),
            ("a station that is driven", tool::driven(rt.alloc())),
            ("two captures", tool::two_captures(rt.alloc())),
            ("two captures in one input", tool::both_captures(rt.alloc())),
            ("captures that are not heard", tool::unheard(rt.alloc())),
            ("a listing", tool::listing()),
            ("lines", tool::lines(rt.alloc())),
            ("a reading", tool::reading()),
        ];
        tell(&rt, &rows)
    }
}

/// Writes a line for each call. The exit status is 1 if a result is wrong, otherwise 0.
fn tell(rt: &impl Print, rows: &[(&str, Option<bool>)]) -> ExitCode {
    let mut status = 0;
    for (name, came) in rows {
        let word = match came {
            Some(false) => "full answer",
            Some(true) => "want of memory",
            None => "WRONG",
        };
        if came.is_none() {
            status = 1;
        }
        let _ = println!(rt; "{name}: {word}");
    }
    ExitCode::from(status)
}
