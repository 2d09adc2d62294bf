// rcc/clock_read.rs: the frequencies of the DLLs, USB, the watchdog and flash, read from a head.
ghost use Rattle.std.specs.Prelude.{◌≡◌};
ghost use Rattle.register.specs.Word.{byte_b, byte_c};
ghost use Rattle.head.specs.Encodable.{Encodable};
ghost use Rattle.clock_read.specs.Hpsys.{reg, dll_reading};
ghost use Rattle.clock_read.specs.devices.{usb_source, usb_of, wdt_of, flash_of};
ghost use Rattle.register.specs.Numbers.{DLL1, DLL2, FLASH};

use head::Head;
use time::Hertz;

#[tactic(auto, using(crate::proofs::Codes::dll1_stage))]
pub fn get_clk_dll1_freq(h: &Head) -> Option<Hertz>
    requires { Encodable h.now }
    ensures { result ≡ dll_reading (reg h.now DLL1) }
{
    crate::dll_freq(h.regs[register::DLL1])
}

#[tactic(auto, using(crate::proofs::Codes::dll2_stage))]
pub fn get_clk_dll2_freq(h: &Head) -> Option<Hertz>
    requires { Encodable h.now }
    ensures { result ≡ dll_reading (reg h.now DLL2) }
{
    crate::dll_freq(h.regs[register::DLL2])
}

#[tactic(auto, unfolding(crate::specs::devices::usb_source))]
fn usb_source(h: &Head) -> Option<Hertz>
    requires { Encodable h.now }
    ensures { result ≡ usb_source h.now }
{
    if h.regs[register::USB_SOURCE] == 1 {
        get_clk_dll2_freq(h)
    } else {
        crate::get_clk_sys_freq(h)
    }
}

#[tactic(auto, unfolding(crate::specs::devices::usb_of))]
pub fn get_clk_usb_freq(h: &Head) -> Option<Hertz>
    requires { Encodable h.now }
    ensures { result ≡ usb_of h.now }
{
    let divider = register::c(h.regs[register::USB_DIVIDER]) as u8;
    crate::divide(usb_source(h), divider)
}

#[tactic(auto, unfolding(crate::specs::devices::wdt_of))]
pub fn get_clk_wdt_freq(h: &Head) -> Option<Hertz>
    ensures { result ≡ wdt_of h.now }
{
    if h.regs[register::LOW_POWER] == 0 {
        Some(clock::CLK_LRC10_FREQ)
    } else {
        Some(clock::CLK_LRC32_FREQ)
    }
}

// A flash clock by its select.
#[tactic(auto, unfolding(crate::specs::devices::flash_of))]
fn flash_freq(select: u32, h: &Head) -> Option<Hertz>
    requires { Encodable h.now }
    ensures { result ≡ flash_of select h.now }
{
    match select {
        1 => get_clk_dll1_freq(h),
        2 => get_clk_dll2_freq(h),
        _ => Some(clock::CLK_HXT48_FREQ),
    }
}

pub fn get_clk_mpi1_freq(h: &Head) -> Option<Hertz>
    requires { Encodable h.now }
    ensures { result ≡ flash_of (byte_b (reg h.now FLASH)) h.now }
{
    flash_freq(register::b(h.regs[register::FLASH]), h)
}

pub fn get_clk_mpi2_freq(h: &Head) -> Option<Hertz>
    requires { Encodable h.now }
    ensures { result ≡ flash_of (byte_c (reg h.now FLASH)) h.now }
{
    flash_freq(register::c(h.regs[register::FLASH]), h)
}
