//! Tests of whole operations of `dcc_tool`. The readers and writers of the tests fail, give few
//! bytes, or record the order of calls. This crate has no public items.
#![tactic(auto)]

#[cfg(test)]
mod call_tests;
#[cfg(test)]
mod calls;
#[cfg(test)]
mod checks;
#[cfg(test)]
mod encode_order_tests;
#[cfg(test)]
mod ending_tests;
#[cfg(test)]
mod failing_tests;
#[cfg(test)]
mod fakes;
#[cfg(test)]
mod readcv_tests;
#[cfg(test)]
mod rows;
#[cfg(test)]
mod run_tests;
#[cfg(test)]
mod same_tests;
#[cfg(test)]
mod show_order_tests;
#[cfg(test)]
mod what_tests;
