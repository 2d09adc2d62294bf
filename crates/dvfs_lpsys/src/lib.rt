// pmu/dvfs.rs: the halves of a supply transition of LPSYS, before and after the clock is set.
#![tactic(auto)]

pub mod switch;

ghost use Rattle.journal.specs.Machine.{Lent, Does, none};
ghost use Rattle.dvfs_lpsys.specs.LpsysModes.{lpsys_first, lpsys_second};

use dvfs::lpsys::LpsysDvfsMode;
use journal::Machine;

// `config_lpsys_dvfs` before the clock is set.
pub fn config_lpsys_dvfs_first(
    m: &mut Machine,
    journal: &mut [u32],
    current: LpsysDvfsMode,
    target: LpsysDvfsMode,
)
    requires { Lent 3 m.old journal.old none }
    ensures { Does 3 (lpsys_first current target) m.old m.new journal.old journal.new none }
{
    match (current, target) {
        (LpsysDvfsMode::D, LpsysDvfsMode::S) => switch::switch_lpsys_dvfs_d2s_first(m, journal),
        (LpsysDvfsMode::S, LpsysDvfsMode::D) => switch::switch_lpsys_dvfs_s2d_first(m, journal),
        (LpsysDvfsMode::D, LpsysDvfsMode::D) | (LpsysDvfsMode::S, LpsysDvfsMode::S) => {}
    }
}

// `config_lpsys_dvfs` after the clock is set.
pub fn config_lpsys_dvfs_second(
    m: &mut Machine,
    journal: &mut [u32],
    current: LpsysDvfsMode,
    target: LpsysDvfsMode,
)
    requires { Lent 2 m.old journal.old none }
    ensures { Does 2 (lpsys_second current target) m.old m.new journal.old journal.new none }
{
    match (current, target) {
        (LpsysDvfsMode::S, LpsysDvfsMode::D) => switch::switch_lpsys_dvfs_s2d_second(m, journal),
        (LpsysDvfsMode::D, _) | (LpsysDvfsMode::S, LpsysDvfsMode::S) => {}
    }
}
