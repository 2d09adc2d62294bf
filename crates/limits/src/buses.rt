// Tests 12 to 14 of `ConfigBuilder::check`: a bus or DLL2 outside the limits that go by HCLK. One function each, on the frequencies of a
// plan.
ghost use Rattle.std.specs.Prelude.{◌≡◌};
ghost use Rattle.limits.specs.Limits.{is_fast, pclk1_too_fast, pclk2_too_fast, dll2_too_fast};

use time::Hertz;

// Whether HCLK is above 48 MHz.
fn is_fast(hclk: Hertz) -> bool
    ensures { result ≡ is_fast hclk.0 }
{
    48_000_000 < hclk.0
}

// 12
pub fn pclk1_too_fast(hclk: Hertz, pclk1: Hertz) -> bool
    ensures { result ≡ pclk1_too_fast hclk.0 pclk1.0 }
{
    let most = if is_fast(hclk) {
        120_000_000
    } else {
        48_000_000
    };
    most < pclk1.0
}

// 13
pub fn pclk2_too_fast(hclk: Hertz, pclk2: Hertz) -> bool
    ensures { result ≡ pclk2_too_fast hclk.0 pclk2.0 }
{
    let most = if is_fast(hclk) { 7_500_000 } else { 6_000_000 };
    most < pclk2.0
}

// 14; DLL2 before halving.
pub fn dll2_too_fast(hclk: Hertz, whole: Hertz) -> bool
    ensures { result ≡ dll2_too_fast hclk.0 whole.0 }
{
    is_fast(hclk) && 288_000_000 < whole.0
}
