// pmu/dvfs.rs: the limits of a supply mode, `get_dll2_limit` and `get_frequency_limit`. Ported since document 01 lists them; nothing calls them.
ghost use Rattle.std.specs.Prelude.{◌≡◌};
ghost use Rattle.dvfs.specs.Hpsys.{frequency_limit};
ghost use Rattle.dvfs.specs.limits.{dll2_limit, lpsys_frequency_limit};

use crate::lpsys::{LPSYS_DVFS_MODE_D_LIMIT, LPSYS_DVFS_MODE_S_LIMIT, LpsysDvfsMode};
use crate::{
    HPSYS_DVFS_MODE_D0_LIMIT, HPSYS_DVFS_MODE_D1_LIMIT, HPSYS_DVFS_MODE_S0_LIMIT,
    HPSYS_DVFS_MODE_S1_LIMIT, HpsysDvfsMode,
};
use time::Hertz;

const HPSYS_DLL2_LIMIT: [u32; 4] = [0, 0, 288_000_000, 288_000_000];

pub fn hpsys_dll2_limit(mode: HpsysDvfsMode) -> Hertz
    ensures { result.0 ≡ dll2_limit mode }
{
    Hertz(HPSYS_DLL2_LIMIT[mode.number()])
}

// Whole MHz inside `Hertz`, as the source has it.
pub fn hpsys_frequency_limit(mode: HpsysDvfsMode) -> Hertz
    ensures { result.0 ≡ frequency_limit mode }
{
    match mode {
        HpsysDvfsMode::D0 => Hertz(HPSYS_DVFS_MODE_D0_LIMIT),
        HpsysDvfsMode::D1 => Hertz(HPSYS_DVFS_MODE_D1_LIMIT),
        HpsysDvfsMode::S0 => Hertz(HPSYS_DVFS_MODE_S0_LIMIT),
        HpsysDvfsMode::S1 => Hertz(HPSYS_DVFS_MODE_S1_LIMIT),
    }
}

pub fn lpsys_frequency_limit(mode: LpsysDvfsMode) -> Hertz
    ensures { result.0 ≡ lpsys_frequency_limit mode }
{
    match mode {
        LpsysDvfsMode::D => Hertz(LPSYS_DVFS_MODE_D_LIMIT * 1_000_000),
        LpsysDvfsMode::S => Hertz(LPSYS_DVFS_MODE_S_LIMIT * 1_000_000),
    }
}
