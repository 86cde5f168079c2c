//! Assertions, as functions. `checks.rt` of `dcc_tests` says why tests call these functions.

use std::process::Abort;

/// Asserts that `holds` is true. The message of a failure is `text`.
pub fn check(rt: &impl Abort, holds: bool, text: &str) {
    if !holds {
        rt.panic(text)
    }
}
