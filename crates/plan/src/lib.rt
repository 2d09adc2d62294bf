// A plan as a value: rcc/clock_config.rs, `ConfigBuilder`.
#![tactic(auto)]

pub mod bytes;
pub mod codes;
pub mod tests;

use clock::Dll;

// A plan, its fields under the names of the source and in the record's codes.
#[derive(Clone, Copy)]
pub struct Plan {
    pub sys: u8,
    pub hdiv: u8,
    pub pdiv1: u8,
    pub pdiv2: u8,
    pub dll1: Option<Dll>,
    pub dll2: Option<Dll>,
    pub hrc48_calibrate: bool,
    pub usb: bool,
    pub wdtsel: u8,
    pub usbsel: u8,
    pub perisel: u8,
    pub mpi1sel: u8,
    pub mpi2sel: u8,
}
