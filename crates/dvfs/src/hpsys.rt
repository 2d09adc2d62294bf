// HPSYS: the supply of the core.
ghost use Rattle.std.specs.Prelude.{◌≡◌, ◌<◌, eqb, get_or};
ghost use Rattle.dvfs.specs.Hpsys.{mode_of, mode_number, row_of};
ghost use Rattle.time.specs.Frequency.{megahertz};

use head::Head;
use time::{Hertz, Megahertz};

pub const HPSYS_DVFS_MODE_D0_LIMIT: u32 = 24;

pub const HPSYS_DVFS_MODE_D1_LIMIT: u32 = 48;

pub const HPSYS_DVFS_MODE_S0_LIMIT: u32 = 144;

pub const HPSYS_DVFS_MODE_S1_LIMIT: u32 = 240;

// A supply row: the D mode's ldo as an offset on a reference, the S mode's ldo, the buck, and the memory timing as register 17 holds it.
#[derive(Clone, Copy)]
pub struct HpsysDvfsConfig {
    pub ldo_offset: i8,
    pub ldo: u8,
    pub buck: u8,
    pub ulpmcr: u32,
}

// The modes in the order of what they carry.
#[derive(Clone, Copy, PartialEq, Eq, PartialOrd, Ord)]
pub enum HpsysDvfsMode {
    D0,
    D1,
    S0,
    S1,
}

const HPSYS_DVFS_CONFIG: [HpsysDvfsConfig; 4] = [
    HpsysDvfsConfig {
        ldo_offset: -5,
        ldo: 0x6,
        buck: 0x9,
        ulpmcr: 0x0160,
    },
    HpsysDvfsConfig {
        ldo_offset: -3,
        ldo: 0x8,
        buck: 0xA,
        ulpmcr: 0x1161,
    },
    HpsysDvfsConfig {
        ldo_offset: 0,
        ldo: 0xB,
        buck: 0xD,
        ulpmcr: 0x3043,
    },
    HpsysDvfsConfig {
        ldo_offset: 2,
        ldo: 0xD,
        buck: 0xF,
        ulpmcr: 0x3043,
    },
];

// Supply 0 is S, 1 is D.
pub fn is_hpsys_dvfs_mode_s(h: &Head) -> bool
    ensures { result ≡ eqb (get_or h.now.regs 12 0) 0 }
{
    h.regs[register::HPSYS_SUPPLY] == 0
}

impl HpsysDvfsMode {
    // None above 240 MHz.
    #[tactic(auto, unfolding(crate::specs::Hpsys::mode_of))]
    pub fn from_frequency(f: Megahertz) -> Option<HpsysDvfsMode>
        ensures { result ≡ mode_of f.0 }
    {
        match f.0 {
            ..=HPSYS_DVFS_MODE_D0_LIMIT => Some(HpsysDvfsMode::D0),
            ..=HPSYS_DVFS_MODE_D1_LIMIT => Some(HpsysDvfsMode::D1),
            ..=HPSYS_DVFS_MODE_S0_LIMIT => Some(HpsysDvfsMode::S0),
            ..=HPSYS_DVFS_MODE_S1_LIMIT => Some(HpsysDvfsMode::S1),
            _ => None,
        }
    }

    pub fn from_hertz(f: Hertz) -> Option<HpsysDvfsMode>
        ensures { result ≡ mode_of (megahertz f.0) }
    {
        HpsysDvfsMode::from_frequency(f.whole_mhz())
    }

    pub fn number(self) -> usize
        ensures { (result ≡ mode_number self) × (result < 4) }
    {
        self as usize
    }

    pub fn get_config(self) -> HpsysDvfsConfig
        ensures { result ≡ row_of self }
    {
        HPSYS_DVFS_CONFIG[self.number()]
    }
}
