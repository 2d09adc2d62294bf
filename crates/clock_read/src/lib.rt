// rcc/clock_read.rs: frequencies of HPSYS read from a head, up to HCLK.
#![tactic(auto)]

pub mod buses;
pub mod devices;
pub mod lpsys;

ghost use Rattle.std.specs.Prelude.{◌≡◌, ◌≤◌};
ghost use Rattle.register.specs.Word.{byte_c};
ghost use Rattle.head.specs.Encodable.{Encodable};
ghost use Rattle.clock_read.specs.Hpsys.{reg, ready_reading, dll_reading, divided_reading, sys_of, hclk_of};

use clock::Dll;
use head::Head;
use time::Hertz;

// HXT48 or HRC48 by its ready flag.
pub fn ready_freq(ready: bool) -> Option<Hertz>
    ensures { result ≡ ready_reading ready }
{
    ready.then_some(clock::CLK_HXT48_FREQ)
}

// A DLL by its register.
#[tactic(auto, unfolding(crate::specs::Hpsys::dll_reading))]
pub fn dll_freq(word: u32) -> Option<Hertz>
    requires { byte_c word ≤ 15 }
    ensures { result ≡ dll_reading word }
{
    if register::a(word) != 1 {
        return None;
    }
    let dll = Dll {
        stage: register::c(word) as u8,
        half: register::b(word) == 1,
    };
    Some(dll.freq_hz())
}

pub fn divide(f: Option<Hertz>, divider: u8) -> Option<Hertz>
    ensures { result ≡ divided_reading f divider }
{
    f.map(|f| clock::divide(f, divider))
}

#[tactic(auto, using(crate::proofs::Codes::dll1_stage), unfolding(crate::specs::Hpsys::sys_of))]
pub fn get_clk_sys_freq(h: &Head) -> Option<Hertz>
    requires { Encodable h.now }
    ensures { result ≡ sys_of h.now }
{
    match h.regs[register::SYSCLK] {
        0 => ready_freq(h.hrc48_ready),
        1 => ready_freq(h.hxt48_ready),
        3 => dll_freq(h.regs[register::DLL1]),
        _ => None,
    }
}

#[tactic(auto, unfolding(crate::specs::Hpsys::hclk_of))]
pub fn get_hclk_freq(h: &Head) -> Option<Hertz>
    requires { Encodable h.now }
    ensures { result ≡ hclk_of h.now }
{
    let hdiv = register::a(h.regs[register::HPSYS_CFGR]) as u8;
    divide(get_clk_sys_freq(h), hdiv)
}
