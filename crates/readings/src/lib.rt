// The frequencies of a head in their order, and the calls that read them from its bytes.
#![tactic(auto)]

pub mod hclk;

ghost use Rattle.std.specs.Prelude.{◌≡◌};
ghost use Rattle.refusal.specs.Refusal.{number_of};
ghost use Rattle.head.specs.Record.{head_refusal, head_of};
ghost use Rattle.head.specs.Encodable.{Encodable};
ghost use Rattle.readings.specs.Clocks.{clocks_of, lpsys_of, in_order, unless_refused};

use clock::Clocks;
use head::Head;
use refusal::Refusal;
use time::MaybeHertz;

#[tactic(auto, unfolding(crate::specs::Clocks::clocks_of))]
pub fn read_hpsys_clocks_from_hw(h: &Head) -> Clocks
    requires { Encodable h.now }
    ensures { in_order result ≡ clocks_of h.now }
{
    Clocks {
        sysclk: MaybeHertz::from(clock_read::get_clk_sys_freq(h)),
        hclk: MaybeHertz::from(clock_read::get_hclk_freq(h)),
        pclk: MaybeHertz::from(clock_read::buses::get_pclk_freq(h)),
        pclk2: MaybeHertz::from(clock_read::buses::get_pclk2_freq(h)),
        dll1: MaybeHertz::from(clock_read::devices::get_clk_dll1_freq(h)),
        dll2: MaybeHertz::from(clock_read::devices::get_clk_dll2_freq(h)),
        clk_peri: MaybeHertz::from(clock::CLK_HXT48_FREQ),
        clk_peri_div2: MaybeHertz(24_000_000),
        clk_usb: MaybeHertz::from(clock_read::devices::get_clk_usb_freq(h)),
        clk_wdt: MaybeHertz::from(clock_read::devices::get_clk_wdt_freq(h)),
        clk_rtc: MaybeHertz::from(clock::CLK_LRC10_FREQ),
        clk_mpi1: MaybeHertz::from(clock_read::devices::get_clk_mpi1_freq(h)),
        clk_mpi2: MaybeHertz::from(clock_read::devices::get_clk_mpi2_freq(h)),
        clk_aud_pll: MaybeHertz::NONE,
        clk_aud_pll_div16: MaybeHertz::NONE,
    }
}

// The numbers of the 15 frequencies, in their order.
pub fn numbers(c: Clocks) -> [u32; 15]
    ensures { result ≡ in_order c }
{
    [
        c.sysclk.0,
        c.hclk.0,
        c.pclk.0,
        c.pclk2.0,
        c.dll1.0,
        c.dll2.0,
        c.clk_peri.0,
        c.clk_peri_div2.0,
        c.clk_usb.0,
        c.clk_wdt.0,
        c.clk_rtc.0,
        c.clk_mpi1.0,
        c.clk_mpi2.0,
        c.clk_aud_pll.0,
        c.clk_aud_pll_div16.0,
    ]
}

// Reads the 15 frequencies of the head in a buffer, or refuses them with `clocks` as it was.
pub fn read_clocks(buffer: &[u8], clocks: &mut [u32; 15]) -> Result<(), Refusal>
    ensures value { number_of result ≡ head_refusal buffer.now }
    ensures clocks_after { clocks.new ≡ unless_refused buffer.now (clocks_of (head_of buffer.now)) clocks.old }
{
    *clocks = numbers(read_hpsys_clocks_from_hw(&head::from_bytes::decode(buffer)?));
    Ok(())
}

// The six frequencies of LPSYS, in their order.
#[tactic(auto, unfolding(crate::specs::Clocks::lpsys_of))]
fn lpsys_numbers(h: &Head) -> [u32; 6]
    ensures { result ≡ lpsys_of h.now }
{
    [
        MaybeHertz::from(clock_read::lpsys::get_lpsys_sysclk_freq(h)).0,
        MaybeHertz::from(clock_read::lpsys::get_lpsys_hclk_freq(h)).0,
        MaybeHertz::from(clock_read::buses::get_lpsys_pclk1_freq(h)).0,
        MaybeHertz::from(clock_read::buses::get_lpsys_pclk2_freq(h)).0,
        MaybeHertz::from(clock_read::buses::get_lpsys_clk_peri_freq(h)).0,
        MaybeHertz::from(clock_read::buses::get_lpsys_mac_clk_freq(h)).0,
    ]
}

// Reads the six frequencies of LPSYS of the head in a buffer, or refuses them with `lpsys` as it was.
pub fn read_lpsys(buffer: &[u8], lpsys: &mut [u32; 6]) -> Result<(), Refusal>
    ensures value { number_of result ≡ head_refusal buffer.now }
    ensures lpsys_after { lpsys.new ≡ unless_refused buffer.now (lpsys_of (head_of buffer.now)) lpsys.old }
{
    *lpsys = lpsys_numbers(&head::from_bytes::decode(buffer)?);
    Ok(())
}
