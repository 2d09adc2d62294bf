// rcc/clock_read.rs and the readings of rcc/clock_lpsys.rs: the frequencies of the buses, and those of the MAC and the peripherals of
// LPSYS.
ghost use Rattle.std.specs.Prelude.{◌≡◌};
ghost use Rattle.head.specs.Encodable.{Encodable};
ghost use Rattle.clock_read.specs.buses.{
  shifted_reading,
  pclk_of,
  pclk2_of,
  lpsys_pclk1_of,
  lpsys_pclk2_of,
  lpsys_peri_of,
  lpsys_mac_of,
};

use head::Head;
use time::Hertz;

pub fn prescale(f: Option<Hertz>, exponent: u8) -> Option<Hertz>
    ensures { result ≡ shifted_reading f exponent }
{
    f.map(|f| clock::prescale(f, exponent))
}

#[tactic(auto, unfolding(crate::specs::buses::pclk_of))]
pub fn get_pclk_freq(h: &Head) -> Option<Hertz>
    requires { Encodable h.now }
    ensures { result ≡ pclk_of h.now }
{
    let pdiv1 = register::b(h.regs[register::HPSYS_CFGR]) as u8;
    prescale(crate::get_hclk_freq(h), pdiv1)
}

#[tactic(auto, unfolding(crate::specs::buses::pclk2_of))]
pub fn get_pclk2_freq(h: &Head) -> Option<Hertz>
    requires { Encodable h.now }
    ensures { result ≡ pclk2_of h.now }
{
    let pdiv2 = register::c(h.regs[register::HPSYS_CFGR]) as u8;
    prescale(crate::get_hclk_freq(h), pdiv2)
}

#[tactic(auto, unfolding(crate::specs::buses::lpsys_pclk1_of))]
pub fn get_lpsys_pclk1_freq(h: &Head) -> Option<Hertz>
    ensures { result ≡ lpsys_pclk1_of h.now }
{
    let pdiv1 = register::b(h.regs[register::LPSYS_CFGR]) as u8;
    prescale(crate::lpsys::get_lpsys_hclk_freq(h), pdiv1)
}

#[tactic(auto, unfolding(crate::specs::buses::lpsys_pclk2_of))]
pub fn get_lpsys_pclk2_freq(h: &Head) -> Option<Hertz>
    ensures { result ≡ lpsys_pclk2_of h.now }
{
    let pdiv2 = register::c(h.regs[register::LPSYS_CFGR]) as u8;
    prescale(crate::lpsys::get_lpsys_hclk_freq(h), pdiv2)
}

#[tactic(auto, unfolding(crate::specs::buses::lpsys_peri_of))]
pub fn get_lpsys_clk_peri_freq(h: &Head) -> Option<Hertz>
    ensures { result ≡ lpsys_peri_of h.now }
{
    crate::lpsys::source_freq(h.regs[register::LPSYS_PERI], h)
}

#[tactic(auto, unfolding(crate::specs::buses::lpsys_mac_of))]
pub fn get_lpsys_mac_clk_freq(h: &Head) -> Option<Hertz>
    ensures { result ≡ lpsys_mac_of h.now }
{
    let macdiv = register::b(h.regs[register::LPSYS_MAC]) as u8;
    crate::divide(crate::lpsys::get_lpsys_hclk_freq(h), macdiv)
}
