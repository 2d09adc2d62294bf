// The rail limit: the highest HCLK that the active supply carries, by what its registers hold.
ghost use Rattle.std.specs.Prelude.{◌≡◌};
ghost use Rattle.fit.specs.rail.{limit_hz, ldo_of, met, higher, rail_limit};

use dvfs::HpsysDvfsMode;
use head::Head;
use time::Hertz;

// The clock that a mode's row carries.
pub fn limit(mode: HpsysDvfsMode) -> Hertz
    ensures { result.0 ≡ limit_hz mode }
{
    match mode {
        HpsysDvfsMode::D0 => Hertz(24_000_000),
        HpsysDvfsMode::D1 => Hertz(48_000_000),
        HpsysDvfsMode::S0 => Hertz(144_000_000),
        HpsysDvfsMode::S1 => Hertz(240_000_000),
    }
}

fn ldo(mode: HpsysDvfsMode) -> u32
    ensures { result ≡ ldo_of mode }
{
    match mode {
        HpsysDvfsMode::D0 | HpsysDvfsMode::D1 => dvfs_hpsys::volts::vref(mode),
        HpsysDvfsMode::S0 | HpsysDvfsMode::S1 => u32::from(mode.get_config().ldo),
    }
}

// Whether a buck and an ldo are at least those of a mode's row.
#[tactic(auto, unfolding(crate::specs::rail::met))]
fn meets(mode: HpsysDvfsMode, has_buck: u32, has_ldo: u32) -> bool
    ensures { result ≡ met mode has_buck has_ldo }
{
    u32::from(mode.get_config().buck) <= has_buck && ldo(mode) <= has_ldo
}

#[tactic(auto, unfolding(crate::specs::rail::higher))]
fn higher(low: HpsysDvfsMode, high: HpsysDvfsMode, buck: u32, ldo: u32) -> Hertz
    ensures { result.0 ≡ higher low high buck ldo }
{
    if meets(high, buck, ldo) {
        return limit(high);
    }
    if meets(low, buck, ldo) {
        return limit(low);
    }
    Hertz(0)
}

#[tactic(auto, unfolding(crate::specs::rail::rail_limit))]
pub fn rail_limit(h: &Head) -> Hertz
    ensures { result.0 ≡ rail_limit h.now }
{
    if dvfs::is_hpsys_dvfs_mode_s(h) {
        return higher(
            HpsysDvfsMode::S0,
            HpsysDvfsMode::S1,
            h.regs[register::BUCK_VOUT],
            h.regs[register::HPSYS_VOUT],
        );
    }
    higher(
        HpsysDvfsMode::D0,
        HpsysDvfsMode::D1,
        h.regs[register::SET_VOUT_M],
        h.regs[register::HPSYS_LDO],
    )
}
