// pmu/dvfs.rs: `config_hcpu_dvfs`, the half of the supply transition of HPSYS before the clock is set and the one after it.
#![tactic(auto)]

pub mod switch;
pub mod volts;

ghost use Rattle.std.specs.Prelude.{◌≡◌};
ghost use Rattle.journal.specs.Machine.{Lent, Does, none};
ghost use Rattle.dvfs_hpsys.specs.HpsysModes.{is_s, hpsys_first, hpsys_second};

use dvfs::HpsysDvfsMode;
use journal::Machine;

fn is_s(mode: HpsysDvfsMode) -> bool
    ensures { result ≡ is_s mode }
{
    matches!(mode, HpsysDvfsMode::S0 | HpsysDvfsMode::S1)
}

// `config_hcpu_dvfs` before the clock is set.
#[tactic(auto, unfolding(crate::specs::HpsysModes::hpsys_first))]
pub fn config_hcpu_dvfs_first(
    m: &mut Machine,
    journal: &mut [u32],
    current: HpsysDvfsMode,
    target: HpsysDvfsMode,
)
    requires { Lent 5 m.old journal.old none }
    ensures { Does 5 (hpsys_first current target) m.old m.new journal.old journal.new none }
{
    if current == target {
        return;
    }
    match (is_s(target), is_s(current)) {
        (true, true) => switch::switch_hcpu_dvfs_s2s_first(m, journal, target),
        (true, false) => switch::switch_hcpu_dvfs_d2s_first(m, journal, target),
        (false, _) => switch::switch_hcpu_dvfs_s2d_first(m, journal, target),
    }
}

// `config_hcpu_dvfs` after the clock is set.
#[tactic(auto, unfolding(crate::specs::HpsysModes::hpsys_second))]
pub fn config_hcpu_dvfs_second(
    m: &mut Machine,
    journal: &mut [u32],
    current: HpsysDvfsMode,
    target: HpsysDvfsMode,
)
    requires { Lent 2 m.old journal.old none }
    ensures { Does 2 (hpsys_second current target) m.old m.new journal.old journal.new none }
{
    if current == target || is_s(target) {
        return;
    }
    switch::switch_hcpu_dvfs_s2d_second(m, journal, target);
}
