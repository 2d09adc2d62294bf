// A task, its rules, its bytes in a record, the tests of a list of them in bytes, and the look-up of an id.
#![tactic(auto)]

pub mod bytes;
pub mod list;
pub mod look_up;
pub mod rules;

#[derive(Clone, Copy, Default)]
pub struct Task {
    pub id: u8,
    pub cycles: u32,
    pub period: u32,
}
