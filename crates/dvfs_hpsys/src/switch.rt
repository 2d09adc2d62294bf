// pmu/dvfs.rs: the halves of each supply transition of HPSYS, before and after the clock is set.
ghost use Rattle.journal.specs.Machine.{Lent, Does, none};
ghost use Rattle.dvfs_hpsys.specs.switch.{s2s_first, d2s_first, s2d_first, s2d_second};

use dvfs::HpsysDvfsMode;
use journal::Machine;

#[tactic(auto, unfolding(crate::specs::switch::s2s_first))]
pub fn switch_hcpu_dvfs_s2s_first(m: &mut Machine, journal: &mut [u32], target: HpsysDvfsMode)
    requires { Lent 3 m.old journal.old none }
    ensures { Does 3 (s2s_first target) m.old m.new journal.old journal.new none }
{
    crate::volts::config_hcpu_sx_mode_volt(m, journal, target);
    journal::delay_us(m, journal, 250);
}

#[tactic(auto, using(crate::proofs::volts::Rows::supply_fits), unfolding(crate::specs::switch::d2s_first))]
pub fn switch_hcpu_dvfs_d2s_first(m: &mut Machine, journal: &mut [u32], target: HpsysDvfsMode)
    requires { Lent 5 m.old journal.old none }
    ensures { Does 5 (d2s_first target) m.old m.new journal.old journal.new none }
{
    crate::volts::config_hcpu_sx_mode_volt(m, journal, target);
    m.store(journal, register::HPSYS_SUPPLY, 0);
    journal::delay_us(m, journal, 250);
    crate::volts::store_timing(m, journal, target);
}

#[tactic(auto, using(crate::proofs::volts::Rows::vref_fits), unfolding(crate::specs::switch::s2d_first))]
pub fn switch_hcpu_dvfs_s2d_first(m: &mut Machine, journal: &mut [u32], target: HpsysDvfsMode)
    requires { Lent 2 m.old journal.old none }
    ensures { Does 2 (s2d_first target) m.old m.new journal.old journal.new none }
{
    let row = target.get_config();
    m.store(journal, register::SET_VOUT_M, u32::from(row.buck));
    m.store(journal, register::HPSYS_LDO, crate::volts::vref(target));
}

#[tactic(auto, using(crate::proofs::volts::Rows::supply_fits), unfolding(crate::specs::switch::s2d_second))]
pub fn switch_hcpu_dvfs_s2d_second(m: &mut Machine, journal: &mut [u32], target: HpsysDvfsMode)
    requires { Lent 2 m.old journal.old none }
    ensures { Does 2 (s2d_second target) m.old m.new journal.old journal.new none }
{
    crate::volts::store_timing(m, journal, target);
    m.store(journal, register::HPSYS_SUPPLY, 1);
}
