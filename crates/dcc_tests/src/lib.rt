//! Tests of decoders and fleets, with worked examples and with pseudo-random packets, for the public
//! functions of `dcc_regs`, `dcc_order` and `dcc_track`. This crate has no public items.
#![tactic(auto)]

#[cfg(test)]
mod checks;
#[cfg(test)]
mod noise;
#[cfg(test)]
mod order_hearing_tests;
#[cfg(test)]
mod order_verdict_tests;
#[cfg(test)]
mod regs_address_tests;
#[cfg(test)]
mod regs_board_tests;
#[cfg(test)]
mod regs_examples;
#[cfg(test)]
mod regs_loco_tests;
#[cfg(test)]
mod regs_restore_tests;
#[cfg(test)]
mod regs_safety_tests;
#[cfg(test)]
mod regs_tests;
#[cfg(test)]
mod rows;
#[cfg(test)]
mod track_tests;
