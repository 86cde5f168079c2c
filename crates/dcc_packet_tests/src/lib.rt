//! Tests of half-bits, packets, lost packets, readers and writers, with worked examples and with
//! noisy tracks, for the public functions of `dcc_wire`, `dcc_packet`, `dcc_lost` and `dcc_io`. This
//! crate has no public items.
#![tactic(auto)]

#[cfg(test)]
mod checks;
#[cfg(test)]
mod io_counted_tests;
#[cfg(test)]
mod lost_tests;
#[cfg(test)]
mod noise;
#[cfg(test)]
mod packet_tests;
#[cfg(test)]
mod plain;
#[cfg(test)]
mod rows;
#[cfg(test)]
mod wire_noise_tests;
#[cfg(test)]
mod wire_recovery_tests;
#[cfg(test)]
mod wire_run_tests;
#[cfg(test)]
mod wire_tests;
