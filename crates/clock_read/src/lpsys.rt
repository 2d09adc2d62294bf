// The readings of rcc/clock_lpsys.rs: frequencies of LPSYS read from a head, up to HCLK.
ghost use Rattle.std.specs.Prelude.{◌≡◌};
ghost use Rattle.register.specs.Word.{byte_a};
ghost use Rattle.clock_read.specs.Hpsys.{reg};
ghost use Rattle.clock_read.specs.lpsys.{source_reading, lpsys_sys_of, lpsys_hclk_of};
ghost use Rattle.register.specs.Numbers.{LPSYS_CFGR};

use head::Head;
use time::Hertz;

pub fn get_lpsys_hclk_div(h: &Head) -> u8
    ensures { result ≡ byte_a (reg h.now LPSYS_CFGR) }
{
    register::a(h.regs[register::LPSYS_CFGR]) as u8
}

// HRC48 or HXT48 by a select.
pub fn source_freq(select: u32, h: &Head) -> Option<Hertz>
    ensures { result ≡ source_reading select h.now }
{
    if select == 0 {
        crate::ready_freq(h.hrc48_ready)
    } else {
        crate::ready_freq(h.hxt48_ready)
    }
}

#[tactic(auto, unfolding(crate::specs::lpsys::lpsys_sys_of))]
pub fn get_lpsys_sysclk_freq(h: &Head) -> Option<Hertz>
    ensures { result ≡ lpsys_sys_of h.now }
{
    source_freq(h.regs[register::LPSYS_SYSCLK], h)
}

#[tactic(auto, unfolding(crate::specs::lpsys::lpsys_hclk_of))]
pub fn get_lpsys_hclk_freq(h: &Head) -> Option<Hertz>
    ensures { result ≡ lpsys_hclk_of h.now }
{
    crate::divide(get_lpsys_sysclk_freq(h), get_lpsys_hclk_div(h))
}
