// A recorded call of LPSYS or of tasks, run on an argument's bytes.
#![tactic(auto)]

pub mod lpsys;
pub mod tasks;
