// What an LPSYS request comes to on a head: the mode before it, its own mode, its divider. Nothing is stored.
ghost use Rattle.std.specs.Prelude.{◌≡◌, ◌≤◌};
ghost use Rattle.lpsys_request.specs.modes.{divider_for, present_mode, request_mode};

use dvfs::lpsys::LpsysDvfsMode;
use head::Head;
use time::{Hertz, Megahertz};

#[tactic(auto, unfolding(crate::specs::modes::present_mode))]
pub fn present_mode(h: &Head) -> LpsysDvfsMode
    ensures { result ≡ present_mode h.now }
{
    let f = clock_read::lpsys::get_lpsys_hclk_freq(h).unwrap_or(Hertz(48_000_000));
    LpsysDvfsMode::from_hertz(f).unwrap_or(LpsysDvfsMode::S)
}

#[tactic(auto, unfolding(crate::specs::modes::request_mode))]
pub fn request_mode(freq: Megahertz) -> LpsysDvfsMode
    ensures { result ≡ request_mode freq.0 }
{
    LpsysDvfsMode::from_frequency(freq).unwrap_or(LpsysDvfsMode::D)
}

#[tactic(auto, unfolding(crate::specs::modes::divider_for))]
pub fn divider_for(freq: Megahertz, h: &Head) -> u8
    requires { (1 ≤ freq.0) × (freq.0 ≤ 48) }
    ensures { result ≡ divider_for freq.0 h.now }
{
    let sysclk = clock_read::lpsys::get_lpsys_sysclk_freq(h).unwrap_or(Hertz(48_000_000));
    let target = freq.0 * 1_000_000;
    if sysclk.0 <= target {
        return 0;
    }
    (sysclk.0 / target) as u8
}
