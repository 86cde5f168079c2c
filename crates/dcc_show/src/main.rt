//! The program `dcc_show` lists the capture on standard input, as `dcc show` does. With the
//! argument `--words` packets are written as packet lines.
//!
//! The program depends only on the crates that read a capture, so it is the program with the
//! shortest proof time. The program also shows the parts of a program over these crates: arguments,
//! streams, an operation, and an exit status.
#![tactic(auto)]

mod program;

use dcc_io::{Counted, Input, Limits};
use std::process::ExitCode;

fn main(rt: HostRuntime) -> ExitCode {
    let mut input = Input::new(Counted::new(rt.stdin()), Limits::full());
    let mut writer = Counted::new(rt.stdout());
    ExitCode::from(program::run(&rt, &mut input, &mut writer))
}
