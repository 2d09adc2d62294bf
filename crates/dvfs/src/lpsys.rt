// pmu/dvfs.rs: the supply modes of LPSYS, the low-power system, their limits and their table.
ghost use Rattle.std.specs.Prelude.{◌≡◌, ◌<◌, eqb, get_or};
ghost use Rattle.dvfs.specs.lpsys.{lpsys_mode_of, lpsys_number_of, lpsys_row_of};
ghost use Rattle.time.specs.Frequency.{megahertz};

use head::Head;
use time::{Hertz, Megahertz};

pub const LPSYS_DVFS_MODE_D_LIMIT: u32 = 24;

pub const LPSYS_DVFS_MODE_S_LIMIT: u32 = 48;

// A supply row: the ldo, and the memory timing as register 31 holds it.
#[derive(Clone, Copy)]
pub struct LpsysDvfsConfig {
    pub ldo: u8,
    pub ulpmcr: u32,
}

#[derive(Clone, Copy, PartialEq, Eq)]
pub enum LpsysDvfsMode {
    D,
    S,
}

const LPSYS_DVFS_CONFIG: [LpsysDvfsConfig; 2] = [
    LpsysDvfsConfig {
        ldo: 0x6,
        ulpmcr: 0x0162,
    },
    LpsysDvfsConfig {
        ldo: 0x8,
        ulpmcr: 0x1162,
    },
];

// Supply 1 is S, 0 is D.
pub fn is_lpsys_dvfs_mode_s(h: &Head) -> bool
    ensures { result ≡ eqb (get_or h.now.regs 28 0) 1 }
{
    h.regs[register::LPSYS_SUPPLY] == 1
}

impl LpsysDvfsMode {
    // None above 48 MHz.
    #[tactic(auto, unfolding(crate::specs::lpsys::lpsys_mode_of))]
    pub fn from_frequency(f: Megahertz) -> Option<LpsysDvfsMode>
        ensures { result ≡ lpsys_mode_of f.0 }
    {
        match f.0 {
            ..=LPSYS_DVFS_MODE_D_LIMIT => Some(LpsysDvfsMode::D),
            ..=LPSYS_DVFS_MODE_S_LIMIT => Some(LpsysDvfsMode::S),
            _ => None,
        }
    }

    pub fn from_hertz(f: Hertz) -> Option<LpsysDvfsMode>
        ensures { result ≡ lpsys_mode_of (megahertz f.0) }
    {
        LpsysDvfsMode::from_frequency(f.whole_mhz())
    }

    pub fn number(self) -> usize
        ensures { (result ≡ lpsys_number_of self) × (result < 2) }
    {
        self as usize
    }

    pub fn get_config(self) -> LpsysDvfsConfig
        ensures { result ≡ lpsys_row_of self }
    {
        LPSYS_DVFS_CONFIG[self.number()]
    }
}
