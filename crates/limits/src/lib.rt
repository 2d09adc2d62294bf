// Tests 4 to 14 of `ConfigBuilder::check`, one function each, one for 6 and 7. 4 to 8, a source that the plan does not have, are in
// `sources`; 9 to 14, a frequency outside its limits, are here and, from 12 on, in `buses`.
#![tactic(auto)]

pub mod buses;
pub mod sources;

ghost use Rattle.std.specs.Prelude.{◌≡◌};
ghost use Rattle.limits.specs.Limits.{usb_not60, dll1_core_too_slow, hclk_too_fast};

use time::Hertz;

const DLL1: u8 = 3;

// 9
pub fn usb_not_60(usb: bool, source: Hertz) -> bool
    ensures { result ≡ usb_not60 usb source.0 }
{
    usb && source.0 % 60_000_000 != 0
}

// 10
pub fn dll1_core_too_slow(sys: u8, core: Hertz) -> bool
    ensures { result ≡ dll1_core_too_slow sys core.0 }
{
    sys == DLL1 && core.0 < 24_000_000
}

// 11
pub fn hclk_too_fast(hclk: Hertz) -> bool
    ensures { result ≡ hclk_too_fast hclk.0 }
{
    240_000_000 < hclk.0
}
