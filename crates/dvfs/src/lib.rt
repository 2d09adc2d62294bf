// pmu/dvfs.rs: the supply modes of HPSYS and, in `lpsys`, of LPSYS, with their tables.
#![tactic(auto)]

mod hpsys;
pub mod limits;
pub mod lpsys;

pub use hpsys::{
    HPSYS_DVFS_MODE_D0_LIMIT, HPSYS_DVFS_MODE_D1_LIMIT, HPSYS_DVFS_MODE_S0_LIMIT,
    HPSYS_DVFS_MODE_S1_LIMIT, HpsysDvfsConfig, HpsysDvfsMode, is_hpsys_dvfs_mode_s,
};
