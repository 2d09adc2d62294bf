// The clocks that a plan gives: rcc/clock_config.rs, `get_sysclk_freq_hz`, `get_hclk_freq_hz` and the sums in `check`.
#![tactic(auto)]

ghost use Rattle.std.specs.Prelude.{◌≡◌, cond, ◌≤◌, ◌/◌};
ghost use Rattle.plan.specs.Code.{stage_of};
ghost use Rattle.plan_clocks.specs.Clocks.{maybe_hz, maybe_whole_hz, sys_hz, usb_hz, sources_of, target_of};

use clock::Dll;
use plan::Plan;
use time::Hertz;

const DLL1: u8 = 3;

const USB_DLL2: u8 = 1;

// The clocks that HCLK and USB are divided from.
#[derive(Clone, Copy)]
pub struct Sources {
    pub core: Hertz,
    pub usb: Hertz,
}

// What an accepted plan gives. The USB divider of a plan without USB is 0.
#[derive(Clone, Copy)]
pub struct Target {
    pub hclk: Hertz,
    pub pclk1: Hertz,
    pub pclk2: Hertz,
    pub usb_div: u8,
}

fn dll_freq(d: Option<Dll>) -> Hertz
    requires { stage_of d ≤ 15 }
    ensures { result.0 ≡ maybe_hz d }
{
    match d {
        None => Hertz(0),
        Some(dll) => dll.freq_hz(),
    }
}

pub fn dll_whole_freq(d: Option<Dll>) -> Hertz
    requires { stage_of d ≤ 15 }
    ensures { result.0 ≡ maybe_whole_hz d }
{
    match d {
        None => Hertz(0),
        Some(dll) => Hertz(24_000_000 * (u32::from(dll.stage) + 1)),
    }
}

// The core clock: `get_sysclk_freq_hz`.
fn sysclk(p: Plan) -> Hertz
    requires { stage_of p.dll1 ≤ 15 }
    ensures { result.0 ≡ sys_hz p }
{
    if p.sys == DLL1 {
        dll_freq(p.dll1)
    } else {
        clock::CLK_HXT48_FREQ
    }
}

// The clock that USB is divided from.
fn usb_source(p: Plan, core: Hertz) -> Hertz
    requires { (stage_of p.dll2 ≤ 15) × (core.0 ≡ sys_hz p) }
    ensures { result.0 ≡ usb_hz p }
{
    if p.usbsel == USB_DLL2 {
        dll_freq(p.dll2)
    } else {
        core
    }
}

pub fn sources_of(p: Plan) -> Sources
    requires { (stage_of p.dll1 ≤ 15) × (stage_of p.dll2 ≤ 15) }
    ensures { result ≡ sources_of p }
{
    let core = sysclk(p);
    Sources {
        core,
        usb: usb_source(p, core),
    }
}

// The USB divider of a plan with USB, 0 of one without.
fn usb_divider(usb: bool, source: Hertz) -> u8
    ensures { result ≡ cond usb (source.0 / 60000000) 0 }
{
    if usb {
        (source.0 / 60_000_000) as u8
    } else {
        0
    }
}

// What a plan of these sources gives; HCLK is that of `get_hclk_freq_hz`.
pub fn target_from(p: Plan, sources: Sources) -> Target
    requires { sources ≡ sources_of p }
    ensures { result ≡ target_of p }
{
    let hclk = clock::divide(sources.core, p.hdiv);
    Target {
        hclk,
        pclk1: clock::prescale(hclk, p.pdiv1),
        pclk2: clock::prescale(hclk, p.pdiv2),
        usb_div: usb_divider(p.usb, sources.usb),
    }
}
