//! Assertions, as functions. The prover needs less time for a call of `check` than for `assert!`
//! with a message.
//!
//! The prover's time for a test also grows with the contracts of the functions that the test calls
//! in a loop. So most tests of this crate are loops over a table. Each loop calls a function
//! without a contract, and this function calls the function under test.

use std::process::Abort;

/// Asserts that `holds` is true. The message of a failure is `text`.
pub fn check(rt: &impl Abort, holds: bool, text: &str) {
    if !holds {
        rt.panic(text)
    }
}

/// Asserts that `holds` is true. The message of a failure is `number`.
pub fn check_at(rt: &impl Abort, holds: bool, number: u32) {
    if !holds {
        rt.panic(number)
    }
}
