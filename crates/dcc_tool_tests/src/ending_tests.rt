//! Tests of the exit status, the number and the text of each error.

use crate::calls::told;
use crate::checks::check;
use dcc_packet::PacketFault;
use dcc_tool::{Ending, ToolFault, Usage, exit_status};

/// Errors, with the number, the exit status and the text of each error.
const FAULTS: [(ToolFault, u8, u8, &str); 9] = [
    (ToolFault::Usage(Usage::Words), 1, 2, "U1 bad command line"),
    (ToolFault::Usage(Usage::BadWho), 1, 2, "U1 bad who"),
    (ToolFault::Usage(Usage::BadStation), 1, 2, "U1 bad station"),
    (ToolFault::Number { line: 3 }, 2, 3, "U2 line 3: bad number"),
    (
        ToolFault::Line {
            line: 3,
            fault: PacketFault::Word,
        },
        3,
        3,
        "U3 line 3: P10",
    ),
    (ToolFault::Read, 4, 3, "U4 read failed"),
    (ToolFault::Write, 5, 3, "U5 write failed"),
    (ToolFault::NoMemory, 6, 3, "U6 out of memory"),
    (ToolFault::TooMuch, 7, 3, "U7 input too long"),
];

#[test]
fn faults_have_their_texts_and_numbers(rt: HostRuntime) {
    for (fault, number, status, text) in FAULTS {
        check(&rt, numbers_of(fault) == (number, status), text);
        let told = told(&rt, rt.alloc(), &Err(fault));
        check(&rt, told.as_str() == text, text);
    }
    check(&rt, exit_status(&Ok(Ending::Done)) == 0, "done");
}

/// Returns the number and the exit status of an error.
fn numbers_of(fault: ToolFault) -> (u8, u8) {
    (fault.number(), exit_status(&Err(fault)))
}
