//! Tests of the programming track and of stations, with worked examples and with pseudo-random
//! commands, for the public functions of `dcc_service` and `dcc_station`. This crate has no public
//! items.
#![tactic(auto)]

#[cfg(test)]
mod checks;
#[cfg(test)]
mod function_tests;
#[cfg(test)]
mod kept_tests;
#[cfg(test)]
mod noise;
#[cfg(test)]
mod rows;
#[cfg(test)]
mod service_tests;
#[cfg(test)]
mod station_tests;
#[cfg(test)]
mod station_waiting_tests;
