// rcc/clock.rs: clock constants, the clocks that are read, DLL and divider arithmetic.
#![tactic(auto)]

ghost use Rattle.std.specs.Prelude.{◌≡◌, ◌≤◌};
ghost use Rattle.clock.specs.Clock.{dll_hz, divided, shifted};

use time::{Hertz, MaybeHertz};

pub const CLK_LRC10_FREQ: Hertz = Hertz(100_000);

pub const CLK_LRC32_FREQ: Hertz = Hertz(32_000);

pub const CLK_HXT48_FREQ: Hertz = Hertz(48_000_000);

// The 15 frequencies of a head, in the order of the source.
#[derive(Clone, Copy)]
pub struct Clocks {
    pub sysclk: MaybeHertz,
    pub hclk: MaybeHertz,
    pub pclk: MaybeHertz,
    pub pclk2: MaybeHertz,
    pub dll1: MaybeHertz,
    pub dll2: MaybeHertz,
    pub clk_peri: MaybeHertz,
    pub clk_peri_div2: MaybeHertz,
    pub clk_usb: MaybeHertz,
    pub clk_wdt: MaybeHertz,
    pub clk_rtc: MaybeHertz,
    pub clk_mpi1: MaybeHertz,
    pub clk_mpi2: MaybeHertz,
    pub clk_aud_pll: MaybeHertz,
    pub clk_aud_pll_div16: MaybeHertz,
}

// A DLL's setting: its stage, 0 to 15, and whether its output is halved.
#[derive(Clone, Copy)]
pub struct Dll {
    pub stage: u8,
    pub half: bool,
}

impl Dll {
    pub fn freq_hz(self) -> Hertz
        requires { self.stage ≤ 15 }
        ensures { result.0 ≡ dll_hz self.stage self.half }
    {
        let base = 24_000_000 * (u32::from(self.stage) + 1);
        if self.half {
            Hertz(base / 2)
        } else {
            Hertz(base)
        }
    }
}

// A clock behind a divider, which divides by 1 where it is 0.
pub fn divide(f: Hertz, divider: u8) -> Hertz
    ensures { result.0 ≡ divided f.0 divider }
{
    if divider == 0 {
        return f;
    }
    Hertz(f.0 / u32::from(divider))
}

// A clock behind a prescaler, which divides by a power of two.
pub fn prescale(f: Hertz, exponent: u8) -> Hertz
    ensures { result.0 ≡ shifted f.0 exponent }
{
    Hertz(f.0.checked_shr(u32::from(exponent)).unwrap_or(0))
}
