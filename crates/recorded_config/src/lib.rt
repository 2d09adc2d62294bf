// The calls of rcc/clock_config.rs and the guarded change, run on a plan's bytes.
#![tactic(auto)]

pub mod kinds;
